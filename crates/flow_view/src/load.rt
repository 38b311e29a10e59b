//! Demand against slots, in steps of a regulation's period.
ghost use Rattle.std.specs.Prelude.{◌≡◌, ◌≤◌, ◌<◌, ◌+◌, ◌-◌, ◌*◌, IfOk, false, count_by, min};
ghost use Rattle.std.specs.Option.{option_map_or};
ghost use Rattle.flow_slots.specs.Period.{first_slot};
ghost use Rattle.flow_view.specs.Load.{is_from_to, load_in, loads, held_in, held_later};
ghost use Rattle.flow_view.specs.Totals.{entry_of};
ghost use Rattle.flow_slots.specs.declared.shape.TheConstants.{LONGEST_PERIOD};

use crate::slot_row::SlotRow;
use flow_slots::Shape;
use fpl_text::Minute;
use std::alloc::{AllocError, Allocator};

/// Demand and slots of one step of time.
#[derive(Clone, Copy)]
pub struct Load {
    pub from: Minute,
    /// The first minute after the step.
    pub to: Minute,
    /// The number of flights that are planned to enter in the step.
    pub demand: u64,
    /// The number of slots that the rates give in the step.
    pub slots: u32,
    /// The number of flights that hold a slot in the step.
    pub held: u64,
}

/// Whether a time is from `from` to before `to`.
pub(crate) fn is_from_to(from: Minute, to: Minute, moment: Minute) -> bool
    ensures { result ≡ is_from_to from to moment }
{
    from <= moment && moment < to
}

/// Whether the flight of a row is planned to enter from `from` to before `to`.
fn enters(row: &SlotRow, from: Minute, to: Minute) -> bool
    ensures { result ≡ option_map_or (is_from_to from to) (entry_of row.now) false }
{
    match row.entry() {
        Some(entry) => is_from_to(from, to, entry),
        None => false,
    }
}

/// The number of flights that are planned to enter from `from` to before `to`.
fn demand_in(rows: &[SlotRow], from: Minute, to: Minute) -> u64
    ensures { result ≡ count_by
        (λ r. option_map_or (is_from_to from to) (entry_of r) false) rows.now }
{
    let mut count = 0;
    for row in rows {
        count += u64::from(enters(row, from, to));
    }
    count
}

/// The number of flights that hold a slot from `from` to before `to`.
pub fn held_in(rows: &[SlotRow], from: Minute, to: Minute) -> u64
    ensures { result ≡ held_in from to rows.now }
{
    let mut count = 0;
    for row in rows {
        count += u64::from(is_from_to(from, to, row.time));
    }
    count
}

/// The number of flights that hold a slot after the period.
pub fn held_later(shape: &Shape, rows: &[SlotRow]) -> u64
    ensures { result ≡ held_later shape.now rows.now }
{
    let (_, end) = shape.period();
    let mut count = 0;
    for row in rows {
        count += u64::from(end <= row.time);
    }
    count
}

/// The number of the first slot that isn't before a time of the period.
fn first_slot(shape: &Shape, moment: Minute) -> u32
    requires start { shape.now.start ≤ moment }
    requires end { moment ≤ shape.now.end }
    ensures { result ≡ first_slot shape.now moment }
{
    if shape.contains(moment) {
        shape.first_slot(moment)
    } else {
        shape.slots_before_end()
    }
}

/// Demand and slots from one time of the period to before another.
fn load_in(shape: &Shape, rows: &[SlotRow], from: Minute, to: Minute) -> Load
    requires start { shape.now.start ≤ from }
    requires rises { from ≤ to }
    requires end { to ≤ shape.now.end }
    ensures { result ≡ load_in shape.now rows.now from to }
{
    let before = first_slot(shape, from);
    Load {
        from,
        to,
        demand: demand_in(rows, from, to),
        slots: first_slot(shape, to).saturating_sub(before),
        held: held_in(rows, from, to),
    }
}

/// Demand and slots in step `index`, from 0, of `step` minutes.
fn load_at(shape: &Shape, rows: &[SlotRow], step: u32, index: u32) -> Load
    requires some { 0 < step }
    requires within { step * index < shape.now.end - shape.now.start }
    requires long { step ≤ LONGEST_PERIOD }
    ensures { result ≡ load_in shape.now rows.now (shape.now.start + step * index)
        (min (shape.now.start + step * index + step) shape.now.end) }
{
    let (start, end) = shape.period();
    let from = start.minutes() + step * index;
    let to = (from + step).min(end.minutes());
    load_in(
        shape,
        rows,
        Minute::from_minutes(from),
        Minute::from_minutes(to),
    )
}

/// Demand and slots in each step of `step` minutes from the start of the period. The last step ends
/// with the period. Returns `Err` if allocation fails.
pub fn loads_of<A: Allocator + Copy>(
    alloc: A,
    shape: &Shape,
    rows: &[SlotRow],
    step: u32,
) -> Result<Vec<Load, A>, AllocError>
    requires some { 0 < step }
    requires most { step ≤ LONGEST_PERIOD }
    ensures { IfOk result (λ v. v.items ≡ loads step shape.now rows.now) }
{
    let (start, end) = shape.period();
    let minutes = end.minutes().saturating_sub(start.minutes());
    let count = (minutes + step - 1) / step;
    let mut loads = Vec::new(alloc);
    for index in 0..count {
        loads.push(load_at(shape, rows, step, index))?;
    }
    Ok(loads)
}
