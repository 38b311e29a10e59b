//! The rows of a slot list.
ghost use Rattle.std.specs.Prelude.{◌≡◌, ◌≤◌, IfOk, length};
ghost use Rattle.std.specs.Option.{option_map};
ghost use Rattle.flow_core.specs.History.{state_of};
ghost use Rattle.flow_slots.specs.Lineup.{held_flight};
ghost use Rattle.flow_slots.specs.Period.{most_slots};
ghost use Rattle.flow_view.specs.Shown.{slot_row_of, shown};

use crate::flight::{Flight, flight_at};
use flow_core::Core;
use flow_slots::SlotList;
use fpl_message::Spot;
use fpl_text::Minute;
use std::alloc::{AllocError, Allocator};

/// A held slot of a regulation with its flight.
#[derive(Clone, Copy)]
pub struct SlotRow {
    /// The number of the slot, from 0.
    pub slot: u32,
    /// The time of the slot.
    pub time: Minute,
    /// The number of the flight's plan, from 1.
    pub plan: u32,
    /// Whether the slot is frozen.
    pub frozen: bool,
    /// The flight as it enters the regulated point. `None` if there is no plan of that number.
    pub flight: Option<Flight>,
}

/// The row of a slot, if a flight holds it.
fn row_at<A: Allocator + Copy>(
    core: &Core<A>,
    spot: &Spot,
    list: &SlotList<A>,
    slot: u32,
) -> Option<SlotRow>
    ensures { result ≡ option_map
        (λ f. slot_row_of core.now.setup.taxi (state_of core.now).traffic spot.now list.now.lineup
        (record { flight = f; slot = slot })) (held_flight list.now.lineup slot) }
{
    let Some(plan) = list.holder(slot) else {
        return None;
    };
    Some(SlotRow {
        slot,
        time: list.shape().slot_time(slot),
        plan,
        frozen: list.is_fixed(plan),
        flight: flight_at(core, spot, plan),
    })
}

/// The rows of a slot list of a regulation at `spot`, in the order of its slots. Returns `Err` if
/// allocation fails.
pub(crate) fn rows_of<A: Allocator + Copy>(
    alloc: A,
    core: &Core<A>,
    spot: &Spot,
    list: &SlotList<A>,
) -> Result<Vec<SlotRow, A>, AllocError>
    ensures rows { IfOk result (λ rows. rows.items ≡ shown core.now spot.now list.now.lineup) }
    ensures few { IfOk result (λ rows. length rows.items ≤ most_slots) }
{
    let mut rows = Vec::new(alloc);
    for slot in 0..list.len() {
        if let Some(row) = row_at(core, spot, list, slot) {
            rows.push(row)?;
        }
    }
    Ok(rows)
}
