//! The slot list with its public calls. Their contracts say what each makes of the lineup that the
//! row represents.
ghost use Rattle.std.specs.Prelude.{◌≡◌, ℕ, ◌+◌, ◌<◌, ◌≤◌, length, [], None};
ghost use Rattle.std.specs.Prelude.{Some, ◌↔◌, IfOk, OnOk, IfSome, IsSome};
ghost use Rattle.std.specs.Prelude.{IsTrue};
ghost use Rattle.flow_slots.specs.Cells.{more_by};
ghost use Rattle.flow_slots.specs.Period.{IsWithin, IsRegular, most_flights, most_slots};
ghost use Rattle.flow_slots.specs.Changed.{moved_flights};
ghost use Rattle.flow_slots.specs.Delay.{HasLeastDelay, Rise, waiting_slots};
ghost use Rattle.flow_slots.specs.FirstServed.{IsFirstServed};
ghost use Rattle.flow_slots.specs.Row.{flight_at};
ghost use Rattle.flow_slots.specs.Lineup.{len_of, held_slot, held_flight};
ghost use Rattle.flow_slots.specs.Lineup.{fixed_slot, with_waiting, with_fixed};
ghost use Rattle.flow_slots.specs.Lineup.{without_flight, fixed_at, IsLineup};
ghost use Rattle.flow_slots.specs.Lineup.{waiting_entry, with_all_waiting, MayFill};
ghost use Rattle.flow_slots.specs.LineupLaws.{IsNumber, IsSound};

use crate::cell::{Cell, Planned};
use crate::cells::Cells;
use crate::row::{HeldSlot, next_placed, place_of};
use crate::shape::{FirstSlots, Shape};
use fpl_text::Minute;
use std::alloc::{AllocError, Allocator, Global};
use std::marker::Model;

/// The slot list of one regulation (ATFCM Users Manual, slot allocation). Flights are numbered from
/// 1 to `max_plans`, slots from 0. Some flights have provisional slots, each by its entry, and some
/// have frozen ones.
///
/// Contracts see the lineup: the period, the provisional flights in their order and the frozen ones
/// by slot. Each change says what it makes of the lineup, and the row, which is changed in place,
/// has the fresh allocation of the lineup after any list of changes: each provisional flight in its
/// order has the first slot not before its entry that isn't frozen and that no earlier flight has.
///
/// A change touches the cells from the flight's first slot to the end of its chain. No call but
/// `new` allocates.
#[derive(Drop)]
pub struct SlotList<A: Allocator + Copy = Global> {
    first_slots: FirstSlots<A>,
    capacity: u32,
    cells: Cells<A>,
    /// The slot of each flight, by its number.
    places: Vec<HeldSlot, A>,
}

impl<A: Allocator + Copy> Model for SlotList<A> {
    ghost use Rattle.flow_slots.specs.Lineup.{SlotListView, IsKeptFrom};
    ghost use Rattle.flow_slots.specs.Row.{waiting_of, fixed_of};

    ghost Value = { SlotListView };

    ghost view = { λ s. record {
      lineup = record {
        period = s.first_slots;
        capacity = s.capacity;
        waiting = waiting_of s.cells.row;
        fixed = fixed_of 0 s.cells.row;
      };
      writes = s.cells.writes;
    } };

    ghost invariant = { λ s.
        IsKeptFrom s.cells.start s.first_slots s.capacity s.cells.row s.places.items };
}

impl<A: Allocator + Copy> SlotList<A> {
    /// Creates a list with the slots before the end of the shape and `max_plans` more, all empty.
    /// `max_plans` is 1 to 20,000. Returns `Err` if an allocation fails.
    pub fn new(alloc: A, shape: Shape, max_plans: u32) -> Result<SlotList<A>, AllocError>
        requires some { 0 < max_plans }
        requires most { max_plans ≤ most_flights }
        ensures empty { IfOk result
            (λ s. s ≡ record {
              lineup = record { period = shape; capacity = max_plans; waiting = []; fixed = [] };
              writes = 0;
            }) }
        ensures regular { OnOk result (IsRegular shape) }
    {
        let slots = shape.slots_before_end() + max_plans;
        let cells = Cells::new(alloc, slots, shape.start_minutes())?;
        let places = vec![in alloc; HeldSlot::none(); max_plans as usize + 1]?;
        let first_slots = FirstSlots::new(alloc, shape)?;
        Ok(SlotList {
            first_slots,
            capacity: max_plans,
            cells,
            places,
        })
    }

    /// Returns the greatest flight number; flights are numbered from 1.
    pub fn max_plans(&self) -> u32
        ensures value { result ≡ self.now.lineup.capacity }
        ensures most { result ≤ most_flights }
        ensures held { (flight k : ℕ) → held_slot self.now.lineup flight ≡ Some k
            → (0 < flight) × (flight ≤ result) }
    {
        self.capacity
    }

    /// Returns the number of slots: those before the end, and `max_plans` more.
    pub fn len(&self) -> u32
        ensures value { result ≡ len_of self.now.lineup }
        ensures most { result ≤ most_slots }
    {
        self.cells.len()
    }

    /// Returns the period and its rates.
    pub fn shape(&self) -> &Shape
        ensures { result.now ≡ self.now.lineup.period }
    {
        self.first_slots.shape()
    }

    /// Returns the row. Its clauses say what the lineup is, whichever changes were made: each
    /// flight has one slot and each slot at most one flight, slots rise in the order, no other
    /// choice of slots around the frozen ones has a smaller sum of delays, and what `laws` ask of a
    /// lineup holds of it.
    pub fn cells(&self) -> &Cells<A>
        ensures row { (k : ℕ) → flight_at result.now.row k ≡ held_flight self.now.lineup k }
        ensures len { length result.now.row ≡ len_of self.now.lineup }
        ensures count { result.now.writes ≡ self.now.writes }
        ensures one_each { (flight k : ℕ) → (held_slot self.now.lineup flight ≡ Some k)
            ↔ (held_flight self.now.lineup k ≡ Some flight) }
        ensures sound { IsSound self.now.lineup }
        ensures rise { Rise (waiting_slots self.now.lineup) }
        ensures first_served { IsFirstServed self.now.lineup }
        ensures least_delay { HasLeastDelay self.now.lineup }
    {
        &self.cells
    }

    /// Returns the slot of a flight; `None` if it has none. No other flight has that slot, and no
    /// flight is twice in the list.
    #[inline]
    pub fn slot_of(&self, flight: u32) -> Option<u32>
        ensures slot { result ≡ held_slot self.now.lineup flight }
        ensures within { IfSome result (λ k. k < len_of self.now.lineup) }
        ensures most { IfSome result (λ k. k < most_slots) }
        ensures holder { IfSome result (λ k. held_flight self.now.lineup k ≡ Some flight) }
        ensures number { IfSome result (λ _. IsNumber self.now.lineup flight) }
        ensures lined { IsLineup self.now.lineup }
    {
        place_of(&self.places, flight)
    }

    /// Returns the first flight number from `from` on that has a slot. If none has, the first
    /// number after `max_plans`, or `from` if that is greater.
    #[inline]
    pub fn next_held(&self, from: u32) -> u32
        ensures from { from ≤ result }
        ensures passed { (f : ℕ) → from ≤ f → f < result → held_slot self.now.lineup f ≡ None }
        ensures stops { result ≤ self.now.lineup.capacity
            → IsSome (held_slot self.now.lineup result) }
        ensures end { from ≤ self.now.lineup.capacity → result ≤ self.now.lineup.capacity + 1 }
        ensures late { self.now.lineup.capacity < from → result ≡ from }
    {
        next_placed(&self.places, from)
    }

    /// Returns the entry of a provisional flight; `None` for any other. No flight is provisional
    /// twice, and none is both provisional and frozen.
    #[inline]
    pub fn entry_of(&self, flight: u32) -> Option<Minute>
        ensures entry { result ≡ waiting_entry self.now.lineup flight }
        ensures within { IfSome result (λ e. IsWithin self.now.lineup.period e) }
        ensures lined { IsLineup self.now.lineup }
    {
        match self.cells.cell(place_of(&self.places, flight)?) {
            Cell::Waiting(planned) => Some(Minute::from_minutes(planned.entry)),
            _ => None,
        }
    }

    /// Returns the flight in slot `k`; `None` if it is empty or not below `len()`. The flight has
    /// no other slot.
    pub fn holder(&self, k: u32) -> Option<u32>
        ensures flight { result ≡ held_flight self.now.lineup k }
        ensures slot { IfSome result (λ flight. held_slot self.now.lineup flight ≡ Some k) }
        ensures number { IfSome result (λ flight. IsNumber self.now.lineup flight) }
        ensures within { IfSome result (λ _. k < len_of self.now.lineup) }
        ensures most { IfSome result (λ _. k < most_slots) }
    {
        if k < self.cells.len() {
            self.cells.at(k)
        } else {
            None
        }
    }

    /// Whether both have the same lineup: the same period and rates, the same `max_plans`, and in
    /// each slot the same flight, provisional with the same entry or frozen in both. How often
    /// their cells were written makes no difference.
    pub fn same(&self, other: &SlotList<A>) -> bool
        ensures { IsTrue result ↔ (self.now.lineup ≡ other.now.lineup) }
    {
        self.max_plans() == other.max_plans()
            && self.shape().is(other.shape())
            && self.cells.same(&other.cells)
    }

    /// Inserts a flight in the order of its entry, ties by the lower number; later flights make
    /// way. The flight has no slot yet, and its entry is in the period.
    pub fn insert(&mut self, flight: u32, entry: Minute)
        requires absent { held_slot self.old.lineup flight ≡ None }
        requires first { 0 < flight }
        requires last { flight ≤ self.old.lineup.capacity }
        requires entry { IsWithin self.old.lineup.period entry }
        ensures lineup { self.new.lineup
            ≡ with_waiting (record { entry = entry; flight = flight }) self.old.lineup }
        ensures writes { self.new.writes
            ≤ self.old.writes + moved_flights self.old.lineup self.new.lineup + 1 }
        ensures more { self.old.writes ≤ self.new.writes }
    {
        let entry = entry.minutes();
        let from = self.first_slots.at(entry);
        self.cells
            .displace(&mut self.places, from, Planned { entry, flight });
    }

    /// Inserts flights into a list without any, in one pass. They are given in the order of their
    /// entries, ties by the lower number, none twice; their numbers are from 1 to `max_plans`, and
    /// their entries in the period. The result is that of inserting them one by one: each gets the
    /// later of the first slot not before its entry and the slot after that of the flight before
    /// it. A flight costs one write.
    pub fn fill(&mut self, flights: &[Planned])
        requires { MayFill flights.now self.old.lineup }
        ensures lineup { self.new.lineup ≡ with_all_waiting flights.now self.old.lineup }
        ensures counted { self.new.writes ≡ more_by (length flights.now) self.old.writes }
        ensures more { self.old.writes ≤ self.new.writes }
    {
        self.cells
            .fill(&mut self.places, &self.first_slots, flights);
    }

    /// Removes a flight that has a slot, frozen or not; later flights move up.
    pub fn remove(&mut self, flight: u32)
        requires { IsSome (held_slot self.old.lineup flight) }
        ensures lineup { self.new.lineup ≡ without_flight flight self.old.lineup }
        ensures number { (0 < flight) × (flight ≤ self.old.lineup.capacity) }
        ensures writes { self.new.writes
            ≤ self.old.writes + moved_flights self.old.lineup self.new.lineup + 1 }
        ensures more { self.old.writes ≤ self.new.writes }
    {
        if let Some(k) = place_of(&self.places, flight) {
            self.cells
                .vacate(&mut self.places, &self.first_slots, flight, k);
        }
    }

    /// Whether no slot is frozen.
    pub fn keeps_none(&self) -> bool
        ensures { IsTrue result ↔ (self.now.lineup.fixed ≡ []) }
    {
        self.cells.keeps_none()
    }

    /// Whether a flight's slot is frozen. No flight has two frozen slots, and none is both
    /// provisional and frozen.
    #[inline]
    pub fn is_fixed(&self, flight: u32) -> bool
        ensures fixed { IsTrue result ↔ IsSome (fixed_slot self.now.lineup flight) }
        ensures lined { IsLineup self.now.lineup }
    {
        match place_of(&self.places, flight) {
            Some(k) => matches!(self.cells.cell(k), Cell::Fixed(_)),
            None => false,
        }
    }

    /// Freezes the slot of a provisional flight; nobody moves.
    pub fn fix(&mut self, flight: u32)
        requires held { IsSome (held_slot self.old.lineup flight) }
        requires waits { fixed_slot self.old.lineup flight ≡ None }
        ensures lineup { IfSome (held_slot self.old.lineup flight)
            (λ k. self.new.lineup
            ≡ fixed_at (record { flight = flight; slot = k }) self.old.lineup) }
        ensures nobody_moves { (other : ℕ)
            → held_slot self.new.lineup other ≡ held_slot self.old.lineup other }
        ensures writes { self.new.writes
            ≤ self.old.writes + moved_flights self.old.lineup self.new.lineup + 1 }
        ensures more { self.old.writes ≤ self.new.writes }
    {
        if let Some(k) = place_of(&self.places, flight) {
            self.cells.write(k, Cell::Fixed(flight));
        }
    }

    /// Makes a frozen flight provisional again, with an entry in the period.
    pub fn release(&mut self, flight: u32, entry: Minute)
        requires fixed { IsSome (fixed_slot self.old.lineup flight) }
        requires entry { IsWithin self.old.lineup.period entry }
        ensures lineup { self.new.lineup
            ≡ with_waiting (record { entry = entry; flight = flight })
            (without_flight flight self.old.lineup) }
        ensures writes { let between = without_flight flight self.old.lineup in
            self.new.writes
            ≤ self.old.writes + (moved_flights self.old.lineup between + 1)
            + (moved_flights between self.new.lineup + 1) }
        ensures more { self.old.writes ≤ self.new.writes }
    {
        self.remove(flight);
        self.insert(flight, entry);
    }

    /// Freezes slot `k`, which isn't frozen, for a flight that has no slot; provisional flights
    /// make way.
    pub fn put_fixed(&mut self, flight: u32, k: u32)
        requires absent { held_slot self.old.lineup flight ≡ None }
        requires first { 0 < flight }
        requires last { flight ≤ self.old.lineup.capacity }
        requires slot { k < len_of self.old.lineup }
        requires open { IfSome (held_flight self.old.lineup k)
            (λ holder. fixed_slot self.old.lineup holder ≡ None) }
        ensures lineup { self.new.lineup
            ≡ with_fixed (record { flight = flight; slot = k }) self.old.lineup }
        ensures writes { self.new.writes
            ≤ self.old.writes + moved_flights self.old.lineup self.new.lineup + 1 }
        ensures more { self.old.writes ≤ self.new.writes }
    {
        self.cells.put_fixed(&mut self.places, flight, k);
    }
}
