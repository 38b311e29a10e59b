//! An open regulation.
ghost use Rattle.std.specs.Prelude.{◌≡◌, ◌<◌, ◌≤◌, ℕ, List, None, Some};
ghost use Rattle.std.specs.Prelude.{true, false, IfSome, IsSome, IfOk, OnOk};
ghost use Rattle.std.specs.Prelude.{IsTrue, ◌+◌, ◌↔◌, length};
ghost use Rattle.flow_plans.specs.Plans.{PlanView, plan_at, is_departed};
ghost use Rattle.flow_plans.specs.Near.{table_row};
ghost use Rattle.flow_plans.specs.Entries.{NoneEarlier};
ghost use Rattle.flow_slots.specs.Lineup.{held_slot, fixed_slot, without_flight};
ghost use Rattle.flow_slots.specs.Lineup.{waiting_entry, len_of};
ghost use Rattle.flow_slots.specs.Lineup.{with_all_waiting, MayFill, IsLineup};
ghost use Rattle.flow_slots.specs.Period.{IsWithin, IsRegular};
ghost use Rattle.flow_regulations.specs.SlotStates.{IsPlaceOf, MayStand, stood};
ghost use Rattle.flow_regulations.specs.Marks.{IsOut, IsInOrder};
ghost use Rattle.flow_regulations.specs.Regulations.{subject_to, coming_from};
ghost use Rattle.flow_regulations.specs.Settling.{is_due, pairs_of, is_due_flight};
ghost use Rattle.flow_regulations.specs.Listing.{RegulationView, regulation_of, with_lineup};
ghost use Rattle.flow_regulations.specs.Listing.{without_in, released_in};
ghost use Rattle.flow_regulations.specs.Listing.{keeps_slot, placed, with_no_flights};
ghost use Rattle.flow_regulations.specs.Listing.{is_named, fixed_waiting};
ghost use Rattle.flow_regulations.specs.Listing.{IsListedIn, IsSettledBut, AreSameBut};
ghost use Rattle.flow_regulations.specs.Listing.{IsRenewed, IsFixedWaiting};
ghost use Rattle.flow_regulations.specs.Listing.{IsLookedAgain};
ghost use Rattle.flow_plans.specs.declared.setup.TheConstants.{MAX_PLANS};
ghost use Rattle.flow_slots.specs.Period.{most_slots};

use crate::due_queue::is_due;
use crate::slot_state::Place;
use flow_plans::{PlanState, PlanStore, row_of};
use flow_slots::{Planned, Shape, SlotList};
use fpl_message::Spot;
use fpl_text::{Minute, Text};
use std::alloc::{AllocError, Allocator, Global};
use std::marker::Model;

/// An open regulation with its slot list.
#[derive(Drop)]
pub struct Regulation<A: Allocator + Copy = Global> {
    pub(crate) id: Text<8>,
    pub(crate) spot: Spot,
    pub(crate) list: SlotList<A>,
}

impl<A: Allocator + Copy> Model for Regulation<A> {
    ghost use Rattle.std.specs.Prelude.{◌≤◌};
    ghost use Rattle.flow_slots.specs.Period.{IsRegular};
    ghost use Rattle.flow_regulations.specs.Listing.{RegulationView};
    ghost use Rattle.flow_plans.specs.declared.setup.TheConstants.{MAX_PLANS};

    ghost Value = { RegulationView };

    ghost view = { λ r. record { id = r.id; spot = r.spot; lineup = r.list.lineup } };

    ghost invariant = { λ r. IsRegular r.list.lineup.period
        × (r.list.lineup.capacity ≤ MAX_PLANS) };
}

impl<A: Allocator + Copy> Regulation<A> {
    /// A regulation without flights. Returns `Err` if allocation fails.
    pub(crate) fn new(
        alloc: A,
        id: Text<8>,
        spot: Spot,
        shape: Shape,
        max_plans: u32,
    ) -> Result<Self, AllocError>
        requires some { 0 < max_plans }
        requires most { max_plans ≤ MAX_PLANS }
        ensures empty { IfOk result (λ r. r ≡ with_no_flights id spot shape max_plans) }
        ensures regular { OnOk result (IsRegular shape) }
    {
        let list = SlotList::new(alloc, shape, max_plans)?;
        Ok(Regulation { id, spot, list })
    }

    /// Whether it has this name.
    pub(crate) fn is_named(&self, id: &Text<8>) -> bool
        ensures { result ≡ is_named id.now self.now }
    {
        self.id.is(id)
    }

    /// Whether both are the same regulation: of the same name and point, with the same slot list.
    pub(crate) fn is(&self, other: &Regulation<A>) -> bool
        ensures { IsTrue result ↔ (self.now ≡ other.now) }
    {
        self.is_named(&other.id) && self.spot == other.spot && self.list.same(&other.list)
    }

    /// The row of its point in a table of masks by points.
    pub(crate) fn row(&self) -> usize
        ensures { result ≡ table_row self.now.spot }
    {
        row_of(&self.spot)
    }

    /// The name of the regulation.
    pub fn id(&self) -> &Text<8>
        ensures { result.now ≡ self.now.id }
    {
        &self.id
    }

    /// The aerodrome or route point whose flow is regulated.
    pub fn spot(&self) -> &Spot
        ensures { result.now ≡ self.now.spot }
    {
        &self.spot
    }

    /// The slot list, which has the period and the rates.
    pub fn list(&self) -> &SlotList<A>
        ensures { result.now.lineup ≡ self.now.lineup }
    {
        &self.list
    }

    /// The greatest number of a flight that it may hold.
    pub(crate) fn last(&self) -> u32
        ensures most { result ≤ MAX_PLANS }
        ensures others { (f : ℕ) → result < f → IsOut f self.now }
    {
        self.list.max_plans()
    }

    /// The first number from `from` on of a flight that it holds, or one past the last, after which
    /// it holds none. The flights before it aren't held.
    #[inline(always)]
    pub(crate) fn next_held(&self, from: u32) -> u32
        ensures from { from ≤ result }
        ensures passed { (f : ℕ) → from ≤ f → f < result → IsOut f self.now }
        ensures stops { result ≤ self.now.lineup.capacity
            → IsSome (held_slot self.now.lineup result) }
    {
        self.list.next_held(from)
    }

    /// Collects the flights to which the regulation applies, by number, and returns the earliest of
    /// their off-block times, in minutes from 1970-01-01 00:00 UTC.
    pub(crate) fn note_coming(
        &self,
        plans: &PlanStore<A>,
        coming: &mut Vec<Planned, A>,
    ) -> Result<u32, AllocError>
        ensures coming { OnOk result (coming.new.items
            ≡ coming_from 1 plans.now.taxi (regulation_of self.now) plans.now.plans) }
        ensures first { IfOk result (λ first.
            NoneEarlier first plans.now.plans coming.new.items) }
    {
        let (start, end) = self.list.shape().period();
        plans.coming_into(&self.spot, start, end, coming)
    }

    /// Inserts flights into the slot list, which has none yet.
    pub(crate) fn fill(&mut self, flights: &[Planned])
        requires { MayFill flights.now self.old.lineup }
        ensures { self.new ≡ with_lineup (with_all_waiting flights.now self.old.lineup) self.old }
    {
        self.list.fill(flights);
    }

    /// The entry of the flight of plan `number`, if the regulation applies to it.
    #[inline(always)]
    pub(crate) fn subject(&self, plans: &PlanStore<A>, number: u32) -> Option<Minute>
        requires some { 0 < number }
        requires within { number ≤ length plans.now.plans }
        ensures { (p : PlanView) → plan_at plans.now.plans number ≡ Some p
            → result ≡ subject_to plans.now.taxi (regulation_of self.now) p }
    {
        let (start, end) = self.list.shape().period();
        plans.subject(number, &self.spot, start, end)
    }

    /// The flight's frozen slot. `None` if it has none. No flight is in the list twice.
    #[inline(always)]
    fn fixed_slot(&self, number: u32) -> Option<u32>
        ensures slot { result ≡ fixed_slot self.now.lineup number }
        ensures below { IfSome result (λ k. k < len_of self.now.lineup) }
        ensures most { IfSome result (λ k. k < most_slots) }
        ensures order { IsInOrder self.now }
    {
        if self.list.is_fixed(number) {
            self.list.slot_of(number)
        } else {
            None
        }
    }

    /// Whether a frozen flight keeps its slot: it has departed, or it is subject and due and its
    /// slot is not before its entry.
    #[inline(always)]
    fn keeps(&self, plans: &PlanStore<A>, number: u32, now: Minute, entry: &Option<Minute>) -> bool
        requires some { 0 < number }
        requires within { number ≤ length plans.now.plans }
        requires entry { (p : PlanView) → plan_at plans.now.plans number ≡ Some p
            → entry.now ≡ subject_to plans.now.taxi (regulation_of self.now) p }
        ensures kept { (p : PlanView) → plan_at plans.now.plans number ≡ Some p
            → result ≡ keeps_slot plans.now.taxi now
            (regulation_of self.now) number p self.now.lineup }
        ensures order { IsInOrder self.now }
    {
        let Some(slot) = self.fixed_slot(number) else {
            return false;
        };
        if has_departed(plans, number) {
            return true;
        }
        let Some(entry) = entry else {
            return false;
        };
        is_due(plans, number, now) && *entry <= self.list.shape().slot_time(slot)
    }

    /// Removes a flight, if it is held.
    #[inline(always)]
    fn take_out(&mut self, number: u32)
        ensures { self.new ≡ with_lineup (without_flight number self.old.lineup) self.old }
    {
        if self.list.slot_of(number).is_some() {
            self.list.remove(number);
        }
    }

    /// Inserts a flight with this entry, and freezes its slot if it is due.
    pub(crate) fn place(&mut self, number: u32, entry: Minute, due: bool)
        requires absent { held_slot self.old.lineup number ≡ None }
        requires first { 0 < number }
        requires last { number ≤ self.old.lineup.capacity }
        requires entry { IsWithin self.old.lineup.period entry }
        ensures { self.new ≡ with_lineup (placed (Some entry) due number self.old.lineup) self.old }
    {
        self.list.insert(number, entry);
        if due {
            self.list.fix(number);
        }
    }

    /// Gives a flight a slot by this entry, whatever it had before, and freezes it if it is due.
    /// Nothing moves if it has a provisional slot by that entry already.
    fn stand(&mut self, number: u32, entry: Minute, due: bool)
        requires first { 0 < number }
        requires last { number ≤ self.old.lineup.capacity }
        requires entry { IsWithin self.old.lineup.period entry }
        ensures { self.new ≡ with_lineup (placed (Some entry) due number
            (without_flight number self.old.lineup)) self.old }
    {
        if !self.waits_from(number, entry) {
            self.take_out(number);
            self.place(number, entry, due);
            return;
        }
        if due {
            self.fix_waiting(number);
        }
    }

    /// Whether a flight has a provisional slot by this entry.
    fn waits_from(&self, number: u32, entry: Minute) -> bool
        ensures lined { IsLineup self.now.lineup }
        ensures yes { result ≡ true → waiting_entry self.now.lineup number ≡ Some entry }
        ensures no { waiting_entry self.now.lineup number ≡ Some entry → result ≡ true }
    {
        match self.list.entry_of(number) {
            Some(held) => held == entry,
            None => false,
        }
    }

    /// The state of a flight in the slot list.
    pub(crate) fn place_of(&self, number: u32) -> Place
        ensures { IsPlaceOf number result self.now }
    {
        if let Some(slot) = self.fixed_slot(number) {
            return Place::Fixed { slot };
        }
        match self.list.entry_of(number) {
            Some(entry) => Place::Waiting { entry },
            None => Place::Absent,
        }
    }

    /// Gives a flight that isn't held this state in the slot list.
    fn stand_in(&mut self, number: u32, place: Place)
        requires absent { held_slot self.old.lineup number ≡ None }
        requires first { 0 < number }
        requires last { number ≤ self.old.lineup.capacity }
        requires may { MayStand place self.old.lineup }
        ensures { self.new ≡ with_lineup (stood place number self.old.lineup) self.old }
    {
        match place {
            Place::Absent => {}
            Place::Waiting { entry } => self.list.insert(number, entry),
            Place::Fixed { slot } => self.list.put_fixed(number, slot),
        }
    }

    /// Restores the state of a flight in the slot list. The list is then as it was: the other
    /// flights have their former states already.
    pub(crate) fn put_back(&mut self, number: u32, place: Place)
        requires first { 0 < number }
        requires last { number ≤ self.old.lineup.capacity }
        requires before { (before : RegulationView) × IsPlaceOf number place before
            × (without_in number self.old ≡ without_in number before) }
        ensures { (before : RegulationView) → IsPlaceOf number place before
            → without_in number self.old ≡ without_in number before → self.new ≡ before }
    {
        if self.place_of(number).is(&place) {
            return;
        }
        self.take_out(number);
        self.stand_in(number, place);
    }

    /// Freezes a flight's provisional slot, if it has one.
    pub(crate) fn fix_waiting(&mut self, number: u32)
        ensures fixed { self.new ≡ with_lineup (fixed_waiting number self.old.lineup) self.old }
        ensures capacity { self.new.lineup.capacity ≡ self.old.lineup.capacity }
        ensures lined { IsLineup self.old.lineup }
        ensures regular { IsRegular self.old.lineup.period }
    {
        if self.list.is_fixed(number) {
            return;
        }
        if self.list.slot_of(number).is_some() {
            self.list.fix(number);
        }
    }

    /// Freezes a flight's provisional slot, if it has one and is due.
    pub(crate) fn fix_due(&mut self, plans: &PlanStore<A>, number: u32, now: Minute)
        requires some { 0 < number }
        requires within { number ≤ length plans.now.plans }
        ensures due { is_due_flight now plans.now.plans number ≡ true
            → IsFixedWaiting number self.old self.new }
        ensures other { is_due_flight now plans.now.plans number ≡ false → self.new ≡ self.old }
    {
        if is_due(plans, number, now) {
            self.fix_waiting(number);
        }
    }

    /// Makes a flight's frozen slot provisional again, by the entry of its plan, if the regulation
    /// applies to it.
    pub(crate) fn release(&mut self, plans: &PlanStore<A>, number: u32)
        requires some { 0 < number }
        requires within { number ≤ length plans.now.plans }
        ensures released { (p : PlanView) → plan_at plans.now.plans number ≡ Some p
            → self.new ≡ released_in plans.now.taxi p number self.old }
        ensures id { self.new.id ≡ self.old.id }
        ensures capacity { self.new.lineup.capacity ≡ self.old.lineup.capacity }
    {
        if !self.list.is_fixed(number) {
            return;
        }
        if let Some(entry) = self.subject(plans, number) {
            self.list.release(number, entry);
        }
    }

    /// Settles the regulation after a message about one flight, which changes that flight alone,
    /// and returns whether the flight may be held then. A flight that may not be held before is
    /// inserted if the regulation applies to it.
    #[inline(always)]
    pub(crate) fn look_where(
        &mut self,
        plans: &PlanStore<A>,
        number: u32,
        now: Minute,
        may_stand: bool,
    ) -> bool
        requires some { 0 < number }
        requires within { number ≤ length plans.now.plans }
        requires room { number ≤ self.old.lineup.capacity }
        requires out { may_stand ≡ false → IsOut number self.old }
        ensures looked { IsLookedAgain number plans.now.taxi now plans.now.plans self.old self.new }
        ensures out { result ≡ false → IsOut number self.new }
    {
        let entry = self.subject(plans, number);
        if may_stand {
            self.reallocate(plans, number, now, &entry);
            return true;
        }
        if entry.is_none() {
            return false;
        }
        self.reallocate(plans, number, now, &entry);
        true
    }

    /// Settles the regulation after a message about one flight, which changes that flight alone.
    fn reallocate(&mut self, plans: &PlanStore<A>, number: u32, now: Minute, entry: &Option<Minute>)
        requires some { 0 < number }
        requires within { number ≤ length plans.now.plans }
        requires entry { (p : PlanView) → plan_at plans.now.plans number ≡ Some p
            → entry.now ≡ subject_to plans.now.taxi (regulation_of self.old) p }
        requires room { number ≤ self.old.lineup.capacity }
        ensures same { self.new ≡ with_lineup self.new.lineup self.old }
        ensures capacity { self.new.lineup.capacity ≡ self.old.lineup.capacity }
        ensures others { (f : ℕ) → (f ≡ number → ⊥)
            → pairs_of f self.new.lineup.fixed ≡ pairs_of f self.old.lineup.fixed }
        ensures alone { without_in number self.new ≡ without_in number self.old }
        ensures renewed { (max : ℕ) (before : List PlanView)
            → IsListedIn plans.now.taxi max before self.old
            → IsSettledBut number plans.now.taxi now before self.old
            → AreSameBut number before plans.now.plans
            → IsRenewed plans.now.taxi max now plans.now.plans self.old self.new.lineup }
    {
        if self.keeps(plans, number, now, entry) {
            return;
        }
        match entry {
            Some(entry) => self.stand(number, *entry, is_due(plans, number, now)),
            None => self.take_out(number),
        }
    }
}

/// Whether the flight of plan `number` has departed. Doesn't read a plan that is filed.
pub(crate) fn has_departed<A: Allocator + Copy>(plans: &PlanStore<A>, number: u32) -> bool
    requires { 0 < number }
    ensures { (p : PlanView) → plan_at plans.now.plans number ≡ Some p → result
        ≡ is_departed p.state }
{
    if plans.filed_off_block(number).is_some() {
        return false;
    }
    match plans.plan(number) {
        Some(plan) => matches!(plan.state(), PlanState::Departed),
        None => false,
    }
}
