//! The held slots of a regulation, by number.
ghost use Rattle.std.specs.Prelude.{◌≡◌, ◌++◌, IfOk, OnOk};
ghost use Rattle.std.specs.Option.{option_map, is_some};
ghost use Rattle.flow_slots.specs.Lineup.{held_flight, fixed_slot};
ghost use Rattle.flow_traffic.specs.Traffic.{slots_of};
ghost use Rattle.flow_core.specs.History.{state_of};
ghost use Rattle.flow_desk.specs.Slots.{held_at, held_slots};

use flow_core::Core;
use flow_slots::SlotList;
use fpl_text::{Minute, Text};
use std::alloc::{AllocError, Allocator};

/// A slot that a flight holds.
#[derive(Clone, Copy, Debug, PartialEq, Eq)]
pub struct SlotRow {
    /// The number of the slot, from 0.
    pub slot: u32,
    /// The time of the slot.
    pub at: Minute,
    /// The number of the flight's plan, from 1.
    pub plan: u32,
    /// Whether the slot is frozen.
    pub frozen: bool,
}

/// Whether a flight has a frozen slot.
fn is_frozen<A: Allocator + Copy>(list: &SlotList<A>, flight: u32) -> bool
    ensures { result ≡ is_some (fixed_slot list.now.lineup flight) }
{
    list.is_fixed(flight)
}

/// Appends the slot of this number, if a flight holds it. Returns `Err` if allocation fails.
fn note<A: Allocator + Copy>(
    held: &mut Vec<SlotRow, A>,
    list: &SlotList<A>,
    slot: u32,
) -> Result<(), AllocError>
    ensures { OnOk result (held.new.items ≡ held.old.items ++ held_at list.now.lineup slot
        (held_flight list.now.lineup slot)) }
{
    let Some(plan) = list.holder(slot) else {
        return Ok(());
    };
    held.push(SlotRow {
        slot,
        at: list.shape().slot_time(slot),
        plan,
        frozen: is_frozen(list, plan),
    })?;
    Ok(())
}

/// The held slots of a slot list. Returns `Err` if allocation fails.
fn held_of<A: Allocator + Copy>(alloc: A, list: &SlotList<A>) -> Result<Vec<SlotRow, A>, AllocError>
    ensures { IfOk result (λ v. v.items ≡ held_slots list.now.lineup) }
{
    let mut held = Vec::new(alloc);
    for slot in 0..list.len() {
        note(&mut held, list, slot)?;
    }
    Ok(held)
}

/// The held slots of the open regulation `id`; `None` if no regulation of this name is open.
/// Returns `Err` if allocation fails.
pub fn slots_of<A: Allocator + Copy>(
    alloc: A,
    core: &Core<A>,
    id: &Text<8>,
) -> Result<Option<Vec<SlotRow, A>>, AllocError>
    ensures { IfOk result (λ r. option_map (λ v. v.items) r ≡ option_map held_slots
        (slots_of (state_of core.now).traffic id.now)) }
{
    match core.slots(id) {
        Some(list) => Ok(Some(held_of(alloc, list)?)),
        None => Ok(None),
    }
}
