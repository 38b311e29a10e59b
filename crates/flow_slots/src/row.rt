//! The row of slots in memory: its cells, of one word each, the slot of each flight, and the row
//! while a chain changes it, with the number of writes.
//!
//! An entry is stored in minutes from a start, the period's, which the row has once. A period has
//! at most 1,440 minutes, and 17 bits are there for them; 15 bits are there for a flight's number,
//! which is at most 20,000.

ghost use Rattle.std.specs.Prelude.{◌≡◌, ◌+◌, ◌*◌, ◌/◌, ◌%◌, ◌^◌, ◌<◌, ◌≤◌, ◌↔◌, true, IsTrue};
ghost use Rattle.std.specs.Prelude.{◌-◌, length, slice_set, ℕ, None, Some, IsSome};
ghost use Rattle.std.specs.Prelude.{slice_index_or, vec_len, nat_lt, ◌||◌};
ghost use Rattle.std.specs.List.{All};
ghost use Rattle.flow_slots.specs.PackedCell.{IsStored, entry_number, flight_from};
ghost use Rattle.flow_slots.specs.PackedCell.{flight_number, from_start, planned_in};
ghost use Rattle.flow_slots.specs.Row.{IsFixedCell, cell_at, place_at};
ghost use Rattle.flow_slots.specs.Walk.{passes, waits};
ghost use Rattle.flow_slots.specs.declared.cell.Cell.TheVariants.{Waiting};

use crate::cell::{Cell, Planned};
use std::alloc::Allocator;
use std::marker::Model;

/// The number of flight numbers that fit, with 0.
const FLIGHTS: u32 = 32_768;

/// The entry of no flight: the greatest number that fits.
const NO_ENTRY: u32 = 131_071;

/// The content of a slot in one word, so that a chain reads and writes one word for each flight
/// that it moves. Contracts see an entry as minutes from the start.
#[derive(Clone, Copy, Debug)]
pub(crate) struct PackedCell {
    /// The rank of a provisional flight. For other cells the entry is the greatest number, and the
    /// flight that of the frozen slot, or 0 for an empty one.
    word: u32,
}

impl Model for PackedCell {
    ghost use Rattle.flow_slots.specs.declared.cell.Cell.{Cell};

    ghost Value = { Cell };

    ghost use Rattle.flow_slots.specs.PackedCell.{cell_of, word_of, word_back};

    ghost view = { λ p. cell_of p.word };

    ghost inverse = { λ cell. record { word = word_of cell } };

    ghost inverse_ok = { λ p h i. record { word = word_back p.word i } };
}

const _: () = prove!(size_of::<PackedCell>() <= 4);

#[inline]
fn word_of(entry: u32, flight: u32) -> u32
    requires entry { entry ≤ NO_ENTRY }
    requires flight { flight < FLIGHTS }
    ensures { result ≡ FLIGHTS * entry + flight }
{
    FLIGHTS * entry + flight
}

#[inline]
fn entry_in(word: u32) -> u32
    ensures { result ≡ word / FLIGHTS }
{
    word / FLIGHTS
}

#[inline]
fn flight_in(word: u32) -> u32
    ensures { result ≡ word % FLIGHTS }
{
    word % FLIGHTS
}

/// Whether a number is less than `low` or greater than `high`, by one comparison.
#[inline]
fn is_outside(number: u32, low: u32, high: u32) -> bool
    requires { low ≤ high }
    ensures { result ≡ (nat_lt number low || nat_lt high number) }
{
    number.wrapping_sub(low) > high - low
}

impl PackedCell {
    #[inline]
    pub(crate) fn empty() -> Self
        ensures { result ≡ Cell.Empty }
    {
        PackedCell {
            word: word_of(NO_ENTRY, 0),
        }
    }

    /// The content of a slot, its entry counted from `start`.
    #[inline(always)]
    pub(crate) fn of(start: u32, cell: Cell) -> Self
        requires { IsStored start cell }
        ensures { from_start start result ≡ cell }
    {
        let word = match cell {
            Cell::Empty => word_of(NO_ENTRY, 0),
            Cell::Waiting(planned) => word_of(planned.entry - start, planned.flight),
            Cell::Fixed(flight) => word_of(NO_ENTRY, flight),
        };
        PackedCell { word }
    }

    /// A provisional flight, its entry counted from `start`.
    #[inline]
    pub(crate) fn waiting(start: u32, planned: Planned) -> Self
        requires { IsStored start (Waiting planned) }
        ensures value { flight_from start (planned_in result) ≡ planned }
        ensures waits { waits result ≡ true }
    {
        PackedCell {
            word: word_of(planned.entry - start, planned.flight),
        }
    }

    /// The content, with the entry counted from 1970.
    #[inline]
    pub(crate) fn get(&self, start: u32) -> Cell
        requires { start < 2 ^ 31 }
        ensures value { result ≡ from_start start self.now }
        ensures kept { IsStored start result }
    {
        let word = self.word;
        let entry = entry_in(word);
        let flight = flight_in(word);
        if entry != NO_ENTRY {
            Cell::Waiting(Planned {
                entry: start + entry,
                flight,
            })
        } else if flight == 0 {
            Cell::Empty
        } else {
            Cell::Fixed(flight)
        }
    }

    /// Whether the slot is provisional. A chain moves such a cell as one word.
    #[inline]
    pub(crate) fn is_waiting(self) -> bool
        ensures { result ≡ waits self }
    {
        entry_in(self.word) != NO_ENTRY
    }

    /// The entry of the provisional flight, in minutes from the start.
    #[inline]
    pub(crate) fn minutes(self) -> u32
        ensures { result ≡ entry_number self }
    {
        entry_in(self.word)
    }

    /// The number of the flight, 0 if there is none.
    #[inline]
    pub(crate) fn flight(self) -> u32
        ensures { result ≡ flight_number self }
    {
        flight_in(self.word)
    }

    #[inline]
    pub(crate) fn is_empty(self) -> bool
        ensures { IsTrue result ↔ (self ≡ Cell.Empty) }
    {
        let word = self.word;
        entry_in(word) == NO_ENTRY && flight_in(word) == 0
    }

    /// Whether the slot is frozen. The word is then greater than that of an empty cell, so one
    /// comparison decides.
    #[inline]
    pub(crate) fn is_fixed(self) -> bool
        ensures { IsTrue result ↔ IsFixedCell self }
    {
        word_of(NO_ENTRY, 0) < self.word
    }

    /// Whether a flight that comes to this slot passes it by: the slot is frozen, or provisional
    /// and its flight precedes that one. The word is then greater than that of an empty cell, or
    /// less than that of the flight.
    #[inline]
    pub(crate) fn is_passed(self, flight: PackedCell) -> bool
        requires { waits flight ≡ true }
        ensures { result ≡ passes (planned_in flight) self }
    {
        is_outside(self.word, flight.word, word_of(NO_ENTRY, 0))
    }
}

/// Whether a flight passes all of these slots by. It reads all of them without a branch, so the
/// compiler compares several at once.
#[inline]
pub(crate) fn are_passed(cells: &[PackedCell], flight: PackedCell) -> bool
    requires { waits flight ≡ true }
    ensures { IsTrue result ↔ All (λ cell. passes (planned_in flight) cell ≡ true) cells.now }
{
    let mut open = false;
    for cell in cells {
        open |= !cell.is_passed(flight);
    }
    !open
}

/// Whether none of these slots is frozen. It reads all of them without a branch, so the compiler
/// compares several at once.
pub(crate) fn are_unfixed(cells: &[PackedCell]) -> bool
    ensures { IsTrue result ↔ All (λ cell. IsFixedCell cell → ⊥) cells.now }
{
    let mut kept = false;
    for cell in cells {
        kept |= cell.is_fixed();
    }
    !kept
}

/// Cells that are gone through in their order, each written once or passed by, so that those gone
/// through count the writes. It borrows them, so no other write is possible.
pub(crate) struct Counting<'a> {
    cells: &'a mut [PackedCell],
    /// The cell come to.
    at: usize,
    /// The number of cells before it that weren't written.
    passed: usize,
}

impl<'a> Counting<'a> {
    /// Begins at cell `from`.
    #[inline]
    pub(crate) fn new(cells: &'a mut [PackedCell], from: usize) -> Counting<'a>
        ensures same_reference { result.cells.ghost_name ≡ cells.entry.ghost_name }
        ensures cells { result.cells.now ≡ cells.old }
        ensures at { result.at ≡ from }
        ensures none { result.passed ≡ from }
    {
        Counting {
            cells,
            at: from,
            passed: from,
        }
    }

    #[inline]
    pub(crate) fn len(&self) -> usize
        ensures { result ≡ length self.now.cells.now }
    {
        self.cells.len()
    }

    /// The index of the cell come to.
    #[inline]
    pub(crate) fn at(&self) -> usize
        ensures { result ≡ self.now.at }
    {
        self.at
    }

    /// The content of cell `k`.
    #[inline]
    pub(crate) fn get(&self, k: usize) -> PackedCell
        requires { k < length self.now.cells.now }
        ensures { result ≡ cell_at self.now.cells.now k }
    {
        self.cells[k]
    }

    /// Writes the cell come to, counts it, and goes on to the next.
    #[inline]
    pub(crate) fn put(&mut self, cell: PackedCell)
        requires { self.old.at < length self.old.cells.now }
        ensures same_reference { self.new.cells.ghost_name ≡ self.old.cells.ghost_name }
        ensures cells { self.new.cells.now ≡ slice_set self.old.cells.now self.old.at cell }
        ensures at { self.new.at ≡ self.old.at + 1 }
        ensures passed { self.new.passed ≡ self.old.passed }
    {
        self.cells[self.at] = cell;
        self.at += 1;
    }

    /// Passes by `count` cells.
    #[inline]
    pub(crate) fn pass(&mut self, count: usize)
        requires bound { self.old.at + count ≤ length self.old.cells.now }
        requires passed { self.old.passed ≤ self.old.at }
        ensures same_reference { self.new.cells.ghost_name ≡ self.old.cells.ghost_name }
        ensures cells { self.new.cells.now ≡ self.old.cells.now }
        ensures at { self.new.at ≡ self.old.at + count }
        ensures passed { self.new.passed ≡ self.old.passed + count }
    {
        self.at += count;
        self.passed += count;
    }

    /// Returns the number of writes, and ends the borrow.
    #[inline]
    pub(crate) fn end(self) -> u64
        requires { self.passed ≤ self.at }
        ensures cells { self.exit.0.now ≡ self.entry.cells.now }
        ensures written { self.entry.passed + result ≡ self.entry.at }
    {
        let Counting {
            cells: _,
            at,
            passed,
        } = self;
        (at - passed) as u64
    }
}

/// The number of slots that a search compares at once.
pub(crate) const CHUNK: usize = 16;

/// The slot of a flight, or none. It takes two bytes, since a row has fewer than 65,536 slots: half
/// of what a `u32` would take.
#[derive(Clone, Copy, Debug)]
pub(crate) struct HeldSlot {
    /// The slot's number plus 1, or 0 for none.
    after: u16,
}

impl Model for HeldSlot {
    ghost use Rattle.std.specs.Prelude.{ℕ, ◌==◌, ◌+◌, ◌-◌, if◌then◌else◌, Option, None, Some};

    ghost Value = { Option ℕ };

    ghost view = { λ h. if h.after == 0 then None else Some (h.after - 1) };

    ghost use Rattle.std.specs.Option.{option_map_or};

    ghost inverse = { λ slot. record { after = option_map_or (λ k. k + 1) slot 0 } };
}

impl HeldSlot {
    #[inline]
    pub(crate) fn none() -> Self
        ensures { result ≡ None }
    {
        HeldSlot { after: 0 }
    }

    #[inline]
    pub(crate) fn of(slot: u32) -> Self
        requires { slot < 2 ^ 16 - 1 }
        ensures { result ≡ Some slot }
    {
        HeldSlot {
            after: (slot + 1) as u16,
        }
    }

    /// The number of the slot.
    #[inline]
    pub(crate) fn get(self) -> Option<u32>
        ensures { result ≡ self }
    {
        if self.after == 0 {
            None
        } else {
            Some(u32::from(self.after - 1))
        }
    }

    #[inline]
    pub(crate) fn is_none(self) -> bool
        ensures { IsTrue result ↔ (self ≡ None) }
    {
        self.after == 0
    }

    /// The stored number with the bits of another set.
    #[inline]
    fn or(self, other: u16) -> u16
        ensures { (result ≡ 0) ↔ (other ≡ 0) × (self ≡ None) }
    {
        other | self.after
    }
}

/// Whether none of these is a slot.
#[inline]
fn are_none(slots: &[HeldSlot]) -> bool
    ensures { IsTrue result ↔ All (λ slot. slot ≡ None) slots.now }
{
    let mut bits = 0;
    for slot in slots {
        bits = slot.or(bits);
    }
    bits == 0
}

/// The first index from `from` on that has a slot, or `slots.len()`.
#[inline(never)]
pub(crate) fn first_held(slots: &[HeldSlot], from: usize) -> usize
    requires { from ≤ length slots.now }
    ensures from { from ≤ result }
    ensures passed { (k : ℕ) → from ≤ k → k < result → slice_index_or slots.now k None ≡ None }
    ensures stops { result < length slots.now → IsSome (slice_index_or slots.now result None) }
    ensures end { result ≤ length slots.now }
{
    let mut chunk = from;
    while chunk + CHUNK <= slots.len() && are_none(&slots[chunk..chunk + CHUNK]) {
        chunk += CHUNK;
    }
    let mut next = chunk;
    while next < slots.len() && slots[next].is_none() {
        next += 1;
    }
    next
}

/// The slot of `flight`, or `None`.
#[inline]
pub(crate) fn place_of<A: Allocator + Copy>(places: &Vec<HeldSlot, A>, flight: u32) -> Option<u32>
    ensures { result ≡ place_at places.now.items flight }
{
    if (flight as usize) < places.len() {
        places[flight as usize].get()
    } else {
        None
    }
}

/// The first flight number from `from` on that has a slot. If none has, the first number after all,
/// or `from` if that is greater.
#[inline]
pub(crate) fn next_placed<A: Allocator + Copy>(places: &Vec<HeldSlot, A>, from: u32) -> u32
    requires { vec_len places.now < 2 ^ 32 }
    ensures from { from ≤ result }
    ensures passed { (f : ℕ) → from ≤ f → f < result → place_at places.now.items f ≡ None }
    ensures stops { result < vec_len places.now → IsSome (place_at places.now.items result) }
    ensures end { from ≤ vec_len places.now → result ≤ vec_len places.now }
    ensures late { vec_len places.now ≤ from → result ≡ from }
{
    if from as usize >= places.len() {
        return from;
    }
    if !places[from as usize].is_none() {
        return from;
    }
    first_held(places, from as usize) as u32
}
