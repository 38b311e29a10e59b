//! The row of slots as callers see it: the content of each slot, and how often slots were written.
ghost use Rattle.std.specs.Prelude.{◌≡◌, ℕ, ◌+◌, ◌-◌, ◌^◌, ◌<◌, ◌≤◌, ◌++◌};
ghost use Rattle.std.specs.Prelude.{true, ◌↔◌, IfOk, IsTrue, vec_capacity};
ghost use Rattle.std.specs.Prelude.{None, Some, [], drop, length, map, replicate, slice_set};
ghost use Rattle.std.specs.Prelude.{take, vec_len};
ghost use Rattle.flow_slots.specs.Cells.{CellsView, more_by, written};
ghost use Rattle.flow_slots.specs.Changed.{gained};
ghost use Rattle.flow_slots.specs.Lineup.{IsKept, MayFill};
ghost use Rattle.flow_slots.specs.MadeRow.{EndsEmpty, filled};
ghost use Rattle.flow_slots.specs.PackedCell.{IsStored, flight_number, from_start, planned_in};
ghost use Rattle.flow_slots.specs.Period.{first_slot, IsRegular};
ghost use Rattle.flow_slots.specs.Row.{cell_at, fixed_of, flight_at, place_at};
ghost use Rattle.flow_slots.specs.Row.{waiting_of, EntriesWithin, IsTied};
ghost use Rattle.flow_slots.specs.Walk.{close, displace, has_empty, push, waits, AllFollow};
ghost use Rattle.flow_slots.specs.declared.cell.Cell.TheVariants.{Empty, Fixed, Waiting};
ghost use Rattle.flow_slots.specs.declared.cell.Planned.{Planned};

use crate::cell::{Cell, Planned};
use crate::displacement::{displace, first_later, vacate};
use crate::row::{Counting, HeldSlot, PackedCell, are_unfixed};
use crate::shape::{FirstSlots, FirstSlotsRef};
use std::alloc::{AllocError, Allocator, Global};
use std::marker::Model;

/// The row of slots. Each write to a cell is counted.
///
/// The capacity for all cells is reserved when the row is created. Cells exist up to the last one
/// that was written or that a chain could reach; the others are empty.
#[derive(Drop)]
pub struct Cells<A: Allocator + Copy = Global> {
    row: Vec<PackedCell, A>,
    len: u32,
    /// The minute from which entries are counted in the cells: no entry is before it.
    start: u32,
    writes: u64,
}

impl<A: Allocator + Copy> Model for Cells<A> {
    ghost use Rattle.std.specs.Prelude.{map, vec_capacity};
    ghost use Rattle.flow_slots.specs.Cells.{CellsView};
    ghost use Rattle.flow_slots.specs.MadeRow.{HasRoom, filled};
    ghost use Rattle.flow_slots.specs.PackedCell.{from_start};

    ghost Value = { CellsView };

    ghost view = { λ c. record {
      row = map (from_start c.start) (filled c.row.items c.len);
      writes = c.writes;
      start = c.start;
    } };

    ghost invariant = { λ c. HasRoom c.row.items c.len (vec_capacity c.row) c.start };
}

/// Appends empty cells, until there are `count`.
fn make<A: Allocator + Copy>(row: &mut Vec<PackedCell, A>, count: u32)
    requires { count ≤ vec_capacity row.old }
    ensures items { row.new.items
        ≡ row.old.items ++ replicate (count - length row.old.items) Empty }
    ensures capacity { vec_capacity row.new ≡ vec_capacity row.old }
{
    while row.len() < count as usize {
        row.push_reserved(PackedCell::empty());
    }
}

/// Writes cell `k`. If it doesn't exist yet, it is appended, after empty ones.
#[inline(always)]
fn put_in<A: Allocator + Copy>(row: &mut Vec<PackedCell, A>, k: u32, cell: PackedCell)
    requires { k < vec_capacity row.old }
    ensures items { row.new.items
        ≡ slice_set (row.old.items ++ replicate (k + 1 - length row.old.items) Empty) k cell }
    ensures capacity { vec_capacity row.new ≡ vec_capacity row.old }
{
    if (k as usize) < row.len() {
        row[k as usize] = cell;
    } else {
        make(row, k);
        row.push_reserved(cell);
    }
}

/// Appends empty cells, so that the last one is empty and not before slot `k`, unless all `len`
/// cells exist.
fn make_to<A: Allocator + Copy>(row: &mut Vec<PackedCell, A>, len: u32, k: u32)
    requires slot { k < len }
    requires made { length row.old.items ≤ len }
    requires capacity { len ≤ vec_capacity row.old }
    ensures same { filled row.new.items len ≡ filled row.old.items len }
    ensures capacity { vec_capacity row.new ≡ vec_capacity row.old }
    ensures ends { EndsEmpty row.new.items len k }
{
    let made = row.len() as u32;
    if made <= k {
        make(row, k + 1);
    } else if made < len && !row[made as usize - 1].is_empty() {
        make(row, made + 1);
    }
}

/// Inserts `flight` from slot `from` on, and returns the number of cells written.
#[inline]
fn displace_in(
    cells: &mut [PackedCell],
    places: &mut [HeldSlot],
    from: usize,
    flight: PackedCell,
) -> u64
    requires few { length cells.old < 2 ^ 16 }
    requires tied { IsTied places.old cells.old }
    requires order { AllFollow (drop from cells.old) }
    requires some { 0 < flight_number flight }
    requires number { flight_number flight < length places.old }
    requires absent { place_at places.old (flight_number flight) ≡ None }
    requires room { has_empty (drop from cells.old) ≡ true }
    requires waits { waits flight ≡ true }
    ensures tied { IsTied places.new cells.new }
    ensures cells { cells.new ≡ take from cells.old
        ++ displace (planned_in flight) (drop from cells.old) }
    ensures written { result ≡ gained cells.old cells.new }
{
    let k = first_later(cells, from, flight);
    let mut row = Counting::new(cells, k);
    displace(&mut row, places, flight);
    row.end()
}

/// Removes `flight` from slot `k`, and returns the number of cells written.
#[inline]
fn vacate_in(
    cells: &mut [PackedCell],
    places: &mut [HeldSlot],
    shape: &FirstSlotsRef<'_>,
    flight: u32,
    k: usize,
) -> u64
    requires few { length cells.old < 2 ^ 16 }
    requires tied { IsTied places.old cells.old }
    requires stands { flight_at cells.old k ≡ Some flight }
    requires regular { IsRegular shape.now }
    requires entries { EntriesWithin shape.now (map (from_start shape.now.start) cells.old) }
    ensures tied { IsTied places.new cells.new }
    ensures cells { map (from_start shape.now.start) cells.new
        ≡ take k (map (from_start shape.now.start) cells.old)
        ++ close (λ e. first_slot shape.now e) k
        (drop (k + 1) (map (from_start shape.now.start) cells.old)) }
    ensures written { result ≡ gained cells.old cells.new + 1 }
{
    let mut row = Counting::new(cells, k);
    vacate(&mut row, places, shape, flight);
    row.end()
}

impl<A: Allocator + Copy> Cells<A> {
    /// Reserves all cells, and creates none. No entry may be before `start`.
    pub(crate) fn new(alloc: A, len: u32, start: u32) -> Result<Cells<A>, AllocError>
        requires len { len < 2 ^ 16 }
        requires start { start < 2 ^ 31 }
        ensures { IfOk result (λ c.
            c ≡ record { row = replicate len Empty; writes = 0; start = start }) }
    {
        Ok(Cells {
            row: Vec::with_capacity(alloc, len as usize)?,
            len,
            start,
            writes: 0,
        })
    }

    /// The number of slots.
    #[inline]
    pub(crate) fn len(&self) -> u32
        ensures { result ≡ length self.now.row }
    {
        self.len
    }

    /// Returns the flight in slot `k`, provisional or frozen; `None` if the slot is empty.
    pub fn at(&self, k: u32) -> Option<u32>
        requires { k < length self.now.row }
        ensures { result ≡ flight_at self.now.row k }
    {
        match self.cell(k) {
            Cell::Empty => None,
            Cell::Waiting(planned) => Some(planned.flight),
            Cell::Fixed(flight) => Some(flight),
        }
    }

    /// Whether both rows have the same content, however often it was written.
    pub(crate) fn same(&self, other: &Cells<A>) -> bool
        ensures { IsTrue result ↔ (self.now.row ≡ other.now.row) }
    {
        if self.len() != other.len() {
            return false;
        }
        for k in 0..self.len() {
            if self.cell(k) != other.cell(k) {
                return false;
            }
        }
        true
    }

    /// Returns how often a cell was written; the count stays at its maximum, 2^64 - 1.
    pub fn writes(&self) -> u64
        ensures { result ≡ self.now.writes }
    {
        self.writes
    }

    /// The content of slot `k`.
    #[inline]
    pub(crate) fn cell(&self, k: u32) -> Cell
        requires { k < length self.now.row }
        ensures value { result ≡ cell_at self.now.row k }
        ensures kept { IsStored self.now.start result }
    {
        if (k as usize) < self.row.len() {
            self.row[k as usize].get(self.start)
        } else {
            Cell::Empty
        }
    }

    /// Whether no slot is frozen.
    pub(crate) fn keeps_none(&self) -> bool
        ensures { IsTrue result ↔ (fixed_of 0 self.now.row ≡ []) }
    {
        are_unfixed(&self.row)
    }

    /// Inserts `flight` from slot `from` on: it gets the first slot that is empty or held by a
    /// later flight, which is inserted from the next slot on in the same way.
    #[inline]
    pub(crate) fn displace(&mut self, places: &mut Vec<HeldSlot, A>, from: u32, flight: Planned)
        requires tied { IsTied places.old.items self.old.row }
        requires order { AllFollow (drop from self.old.row) }
        requires some { 0 < flight.flight }
        requires number { flight.flight < vec_len places.old }
        requires absent { place_at places.old.items flight.flight ≡ None }
        requires room { has_empty (drop from self.old.row) ≡ true }
        requires stored { IsStored self.old.start (Waiting flight) }
        ensures tied { IsTied places.new.items self.new.row }
        ensures start { self.new.start ≡ self.old.start }
        ensures row { self.new.row ≡ take from self.old.row
            ++ displace flight (drop from self.old.row) }
        ensures len { vec_len places.new ≡ vec_len places.old }
        ensures writes { self.new.writes ≤ self.old.writes + gained self.old.row self.new.row }
        ensures more { self.old.writes ≤ self.new.writes }
    {
        make_to(&mut self.row, self.len, from);
        let coming = PackedCell::waiting(self.start, flight);
        let written = displace_in(&mut self.row, places, from as usize, coming);
        self.writes = self.writes.saturating_add(written);
    }

    /// Removes `flight` from slot `k`: flights move up into the hole that it leaves.
    #[inline]
    pub(crate) fn vacate(
        &mut self,
        places: &mut Vec<HeldSlot, A>,
        shape: &FirstSlots<A>,
        flight: u32,
        k: u32,
    )
        requires tied { IsTied places.old.items self.old.row }
        requires stands { flight_at self.old.row k ≡ Some flight }
        requires regular { IsRegular shape.now }
        requires entries { EntriesWithin shape.now self.old.row }
        requires start { self.old.start ≡ shape.now.start }
        ensures tied { IsTied places.new.items self.new.row }
        ensures start { self.new.start ≡ self.old.start }
        ensures row { self.new.row
            ≡ take k self.old.row
            ++ close (λ e. first_slot shape.now e) k (drop (k + 1) self.old.row) }
        ensures len { vec_len places.new ≡ vec_len places.old }
        ensures writes { self.new.writes ≤ self.old.writes + gained self.old.row self.new.row + 1 }
        ensures more { self.old.writes ≤ self.new.writes }
    {
        let moved = vacate_in(&mut self.row, places, &shape.by_ref(), flight, k as usize);
        self.writes = self.writes.saturating_add(moved);
    }

    #[inline]
    pub(crate) fn write(&mut self, k: u32, cell: Cell)
        requires slot { k < length self.old.row }
        requires kept { IsStored self.old.start cell }
        ensures cells { self.new ≡ written self.old k cell }
        ensures more { self.old.writes ≤ self.new.writes }
        ensures small { k < 2 ^ 16 - 1 }
    {
        put_in(&mut self.row, k, PackedCell::of(self.start, cell));
        self.writes = self.writes.saturating_add(1);
    }

    /// Writes slot `k`. The caller counts it.
    #[inline(always)]
    fn put(&mut self, k: u32, cell: Cell)
        requires slot { k < length self.old.row }
        requires kept { IsStored self.old.start cell }
        ensures row { self.new.row ≡ slice_set self.old.row k cell }
        ensures writes { self.new.writes ≡ self.old.writes }
        ensures start { self.new.start ≡ self.old.start }
        ensures small { k < 2 ^ 16 - 1 }
    {
        put_in(&mut self.row, k, PackedCell::of(self.start, cell));
    }

    #[inline(always)]
    fn count(&mut self, writes: u64)
        ensures row { self.new.row ≡ self.old.row }
        ensures start { self.new.start ≡ self.old.start }
        ensures writes { self.new.writes ≡ more_by writes self.old.writes }
        ensures more { self.old.writes ≤ self.new.writes }
    {
        self.writes = self.writes.saturating_add(writes);
    }

    /// Freezes slot `k` for a flight that has no slot; a flight that has it provisionally is
    /// displaced.
    pub(crate) fn put_fixed(&mut self, places: &mut Vec<HeldSlot, A>, flight: u32, k: u32)
        requires tied { IsTied places.old.items self.old.row }
        requires order { AllFollow self.old.row }
        requires some { 0 < flight }
        requires number { flight < vec_len places.old }
        requires absent { place_at places.old.items flight ≡ None }
        requires stored { IsStored self.old.start (Fixed flight) }
        requires slot { k < length self.old.row }
        requires open { (f : ℕ) → cell_at self.old.row k ≡ Cell.Fixed f → ⊥ }
        requires room { (held : Planned) → cell_at self.old.row k ≡ Cell.Waiting held
            → has_empty (drop (k + 1) self.old.row) ≡ true }
        ensures tied { IsTied places.new.items self.new.row }
        ensures start { self.new.start ≡ self.old.start }
        ensures row { self.new.row ≡ take k self.old.row ++ push flight (drop k self.old.row) }
        ensures len { vec_len places.new ≡ vec_len places.old }
        ensures writes { self.new.writes ≤ self.old.writes + gained self.old.row self.new.row + 1 }
        ensures more { self.old.writes ≤ self.new.writes }
    {
        let cell = self.cell(k);
        self.write(k, Cell::Fixed(flight));
        places[flight as usize] = HeldSlot::of(k);
        if let Cell::Waiting(held) = cell {
            places[held.flight as usize] = HeldSlot::none();
            self.displace(places, k + 1, held);
        }
    }

    /// Inserts flights, which are given in the order, into an empty row: each gets the later of the
    /// first slot of its entry and the slot after that of the flight before it.
    pub(crate) fn fill(
        &mut self,
        places: &mut Vec<HeldSlot, A>,
        shape: &FirstSlots<A>,
        flights: &[Planned],
    )
        requires kept { IsKept shape.now (length places.old.items - 1) self.old.row
            places.old.items }
        requires start { self.old.start ≡ shape.now.start }
        requires may { MayFill flights.now (record {
          period = shape.now;
          capacity = length places.old.items - 1;
          waiting = waiting_of self.old.row;
          fixed = fixed_of 0 self.old.row;
        }) }
        ensures kept { IsKept shape.now (length places.old.items - 1) self.new.row
            places.new.items }
        ensures start { self.new.start ≡ self.old.start }
        ensures waiting { waiting_of self.new.row ≡ flights.now }
        ensures fixed { fixed_of 0 self.new.row ≡ [] }
        ensures writes { self.new.writes ≡ more_by (length flights.now) self.old.writes }
        ensures more { self.old.writes ≤ self.new.writes }
    {
        let mut next = 0;
        for planned in flights {
            let k = shape.at(planned.entry).max(next);
            self.put(k, Cell::Waiting(*planned));
            places[planned.flight as usize] = HeldSlot::of(k);
            next = k + 1;
        }
        self.count(flights.len() as u64);
    }
}
