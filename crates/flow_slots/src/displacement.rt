//! The chains: an inserted flight displaces later ones up to an empty slot, and later ones move up
//! into a hole.
ghost use Rattle.std.specs.Prelude.{◌≡◌, ◌+◌, ◌-◌, ◌^◌, ◌<◌, ◌≤◌, ◌++◌, true};
ghost use Rattle.std.specs.Prelude.{length, map, take, drop, IfSome, IfNone};
ghost use Rattle.std.specs.Prelude.{None, Some};
ghost use Rattle.flow_slots.specs.Changed.{gained};
ghost use Rattle.flow_slots.specs.PackedCell.{flight_from, flight_number, from_start, planned_in};
ghost use Rattle.flow_slots.specs.Period.{first_slot, IsRegular};
ghost use Rattle.flow_slots.specs.Row.{flight_at, place_at, IsTied, EntriesWithin, MovesUp};
ghost use Rattle.flow_slots.specs.Walk.{displace, has_empty, next_up, close};
ghost use Rattle.flow_slots.specs.Walk.{waits, Follows, AllFollow, ComesIn};

use crate::row::{CHUNK, Counting, HeldSlot, PackedCell, are_passed};
use crate::shape::FirstSlotsRef;

/// The index of the first cell from `from` on that is empty or has a provisional flight that
/// doesn't precede `flight`.
#[inline]
pub(crate) fn first_later(cells: &[PackedCell], from: usize, flight: PackedCell) -> usize
    requires few { length cells.now < 2 ^ 16 }
    requires order { AllFollow (drop from cells.now) }
    requires room { has_empty (drop from cells.now) ≡ true }
    requires waits { waits flight ≡ true }
    ensures comes { ComesIn cells.now from (planned_in flight) result }
{
    // A day takes 2 % more instructions without chunks: a flight passes some 200 slots by.
    let mut chunk = from;
    while chunk + CHUNK <= cells.len() && are_passed(&cells[chunk..chunk + CHUNK], flight) {
        chunk += CHUNK;
    }
    let mut place = chunk;
    while cells[place].is_passed(flight) {
        place += 1;
    }
    place
}

/// Inserts `flight` at the cell come to, if no provisional flight up to the next empty cell
/// precedes it: each flight takes the cell of the next provisional one, the last one the empty
/// cell.
#[inline]
pub(crate) fn displace(row: &mut Counting<'_>, places: &mut [HeldSlot], flight: PackedCell)
    requires fresh { row.old.passed ≡ row.old.at }
    requires few { length row.old.cells.now < 2 ^ 16 }
    requires tied { IsTied places.old row.old.cells.now }
    requires some { 0 < flight_number flight }
    requires number { flight_number flight < length places.old }
    requires absent { place_at places.old (flight_number flight) ≡ None }
    requires follows { Follows (planned_in flight) (drop row.old.at row.old.cells.now) }
    requires room { has_empty (drop row.old.at row.old.cells.now) ≡ true }
    requires waits { waits flight ≡ true }
    ensures same_reference { row.new.cells.ghost_name ≡ row.old.cells.ghost_name }
    ensures tied { IsTied places.new row.new.cells.now }
    ensures cells { row.new.cells.now
        ≡ take row.old.at row.old.cells.now
        ++ displace (planned_in flight) (drop row.old.at row.old.cells.now) }
    ensures written { row.new.at ≡ row.new.passed + gained row.old.cells.now row.new.cells.now }
{
    let mut coming = flight;
    loop {
        let k = row.at();
        let cell = row.get(k);
        if cell.is_waiting() {
            row.put(coming);
            places[coming.flight() as usize] = HeldSlot::of(k as u32);
            coming = cell;
        } else if cell.is_empty() {
            break;
        } else {
            row.pass(1);
        }
    }
    let k = row.at();
    row.put(coming);
    places[coming.flight() as usize] = HeldSlot::of(k as u32);
}

/// A flight with its provisional slot.
#[derive(Clone, Copy, Debug)]
struct NextUp {
    slot: usize,
    held: PackedCell,
}

/// The flight that may move up into the cell come to, which is empty, with its slot. The row begins
/// with these cells, whose entries are counted from the start of the period; empty cells follow.
#[inline]
fn next_up(row: &Counting<'_>, shape: &FirstSlotsRef<'_>) -> Option<NextUp>
    requires few { length row.now.cells.now < 2 ^ 16 }
    requires hole { row.now.at < length row.now.cells.now }
    requires entries { EntriesWithin shape.now
        (map (from_start shape.now.start) row.now.cells.now) }
    ensures found { IfSome result
        (λ r. MovesUp shape.now (map (from_start shape.now.start) row.now.cells.now) row.now.at
        r.slot (flight_from shape.now.start (planned_in r.held))) }
    ensures within { IfSome result (λ r. r.slot < length row.now.cells.now) }
    ensures waits { IfSome result (λ r. waits r.held ≡ true) }
    ensures none { IfNone result
        (next_up (λ e. first_slot shape.now e) row.now.at
        (drop (row.now.at + 1) (map (from_start shape.now.start) row.now.cells.now))
        ≡ None) }
{
    let hole = row.at();
    for next in hole + 1..row.len() {
        let cell = row.get(next);
        if cell.is_waiting() {
            if hole < shape.at(cell.minutes()) as usize {
                return None;
            }
            return Some(NextUp {
                slot: next,
                held: cell,
            });
        }
        if cell.is_empty() {
            return None;
        }
    }
    None
}

/// The flight of the next cell, if it is provisional and may move up into the cell come to. An
/// empty or a frozen cell has the greatest entry, which isn't before the end.
#[inline]
fn follower(row: &Counting<'_>, shape: &FirstSlotsRef<'_>) -> Option<PackedCell>
    requires few { length row.now.cells.now < 2 ^ 16 }
    requires hole { row.now.at < length row.now.cells.now }
    requires regular { IsRegular shape.now }
    ensures found { IfSome result
        (λ held. MovesUp shape.now (map (from_start shape.now.start) row.now.cells.now) row.now.at
        (row.now.at + 1) (flight_from shape.now.start (planned_in held))) }
    ensures within { IfSome result (λ _. row.now.at + 1 < length row.now.cells.now) }
    ensures waits { IfSome result (λ held. waits held ≡ true) }
{
    let next = row.at() + 1;
    if next < row.len() {
        let cell = row.get(next);
        if shape.is_before(cell.minutes(), next) {
            return Some(cell);
        }
    }
    None
}

/// Removes `flight` from the cell come to: flights move up into the hole that it leaves. The row
/// begins with these cells, whose entries are counted from the start of the period; empty cells
/// follow.
#[inline]
pub(crate) fn vacate(
    row: &mut Counting<'_>,
    places: &mut [HeldSlot],
    shape: &FirstSlotsRef<'_>,
    flight: u32,
)
    requires fresh { row.old.passed ≡ row.old.at }
    requires few { length row.old.cells.now < 2 ^ 16 }
    requires tied { IsTied places.old row.old.cells.now }
    requires stands { flight_at row.old.cells.now row.old.at ≡ Some flight }
    requires regular { IsRegular shape.now }
    requires entries { EntriesWithin shape.now
        (map (from_start shape.now.start) row.old.cells.now) }
    ensures same_reference { row.new.cells.ghost_name ≡ row.old.cells.ghost_name }
    ensures tied { IsTied places.new row.new.cells.now }
    ensures cells { map (from_start shape.now.start) row.new.cells.now
        ≡ take row.old.at (map (from_start shape.now.start) row.old.cells.now)
        ++ close (λ e. first_slot shape.now e) row.old.at
        (drop (row.old.at + 1) (map (from_start shape.now.start) row.old.cells.now)) }
    ensures written { row.new.at
        ≡ row.new.passed + gained row.old.cells.now row.new.cells.now + 1 }
{
    places[flight as usize] = HeldSlot::none();
    while let Some(next) = next_up(row, shape) {
        let hole = row.at();
        row.put(next.held);
        row.pass(next.slot - hole - 1);
        places[next.held.flight() as usize] = HeldSlot::of(hole as u32);
        // Mostly no cell is frozen, and each flight moves up by one slot, which takes fewer
        // instructions than to look for it.
        while let Some(held) = follower(row, shape) {
            let hole = row.at();
            row.put(held);
            places[held.flight() as usize] = HeldSlot::of(hole as u32);
        }
    }
    row.put(PackedCell::empty());
}
