//! The table of a slot list.
ghost use Rattle.std.specs.Prelude.{◌≡◌, IfOk};
ghost use Rattle.flow_view.specs.Table.{holding_of, told_in, ctot_of, cause_of};
ghost use Rattle.flow_view.specs.Table.{empty_between, line_of, lines};

use crate::slot_row::SlotRow;
use flow_core::Told;
use flow_plans::PlanState;
use fpl_text::{Minute, Text};
use std::alloc::{AllocError, Allocator};

/// How a flight holds its slot.
#[derive(Clone, Copy, PartialEq, Eq)]
pub enum Holding {
    /// Its slot is provisional, and may still move.
    Waiting,
    /// Its slot is frozen.
    Frozen,
    /// It has departed, and its slot is frozen.
    Departed,
}

/// A line of the table of a slot list.
#[derive(Clone, Copy)]
pub struct Line {
    /// The held slot with its flight.
    pub row: SlotRow,
    /// The number of empty slots between it and the held one before it, or before it if it is the
    /// first.
    pub empty: u32,
    /// The minutes from the planned entry to the slot; 0 if there is no such entry.
    pub delay: u32,
    /// How the flight holds the slot.
    pub holding: Holding,
    /// The calculated take-off time (CTOT) last issued to the flight.
    pub ctot: Option<Minute>,
    /// The name of the regulation that causes it.
    pub cause: Option<Text<8>>,
}

impl SlotRow {
    /// How the flight holds the slot.
    pub fn holding(&self) -> Holding
        ensures { result ≡ holding_of self.now }
    {
        let departed = match &self.flight {
            Some(flight) => flight.state == PlanState::Departed,
            None => false,
        };
        if departed {
            Holding::Departed
        } else if self.frozen {
            Holding::Frozen
        } else {
            Holding::Waiting
        }
    }

    /// The CTOT last issued to the flight, with the regulation that causes it.
    pub fn told(&self) -> Option<Told>
        ensures { result ≡ told_in self.now }
    {
        let flight = self.flight.as_ref()?;
        flight.told
    }

    /// The CTOT last issued to the flight.
    fn ctot(&self) -> Option<Minute>
        ensures { result ≡ ctot_of self.now }
    {
        match self.told() {
            Some(told) => Some(told.ctot),
            None => None,
        }
    }

    /// The name of the regulation that causes it.
    fn cause(&self) -> Option<Text<8>>
        ensures { result ≡ cause_of self.now }
    {
        match self.told() {
            Some(told) => Some(told.regulation),
            None => None,
        }
    }
}

/// The number of empty slots between a held slot and the held one before it, or before it if it is
/// the first.
fn empty_between(before: Option<u32>, slot: u32) -> u32
    ensures { result ≡ empty_between before slot }
{
    match before {
        Some(before) => slot.saturating_sub(before).saturating_sub(1),
        None => slot,
    }
}

/// The line of a row, given the slot of the row before it.
fn line_of(before: Option<u32>, row: SlotRow) -> Line
    ensures { result ≡ line_of (before, row) }
{
    Line {
        empty: empty_between(before, row.slot),
        delay: row.delay(),
        holding: row.holding(),
        ctot: row.ctot(),
        cause: row.cause(),
        row,
    }
}

/// The lines of the rows of a slot list, one for each, in order. Returns `Err` if allocation fails.
pub fn lines_with<A: Allocator + Copy>(
    alloc: A,
    rows: &[SlotRow],
) -> Result<Vec<Line, A>, AllocError>
    ensures { IfOk result (λ made. made.items ≡ lines rows.now) }
{
    let mut made = Vec::new(alloc);
    let mut before = None;
    for row in rows {
        let slot = row.slot;
        made.push(line_of(before, *row))?;
        before = Some(slot);
    }
    Ok(made)
}
