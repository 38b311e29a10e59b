//! The open regulations.
ghost use Rattle.std.specs.Prelude.{◌≡◌, ◌<◌, ◌≤◌, ◌+◌, ◌-◌, ◌++◌, ℕ, List};
ghost use Rattle.std.specs.Prelude.{[], false, true, ◌∷◌, None, Some, IfSome};
ghost use Rattle.std.specs.Prelude.{IfNone, IfOk, IsTrue, ◌↔◌, MatchOption};
ghost use Rattle.std.specs.Prelude.{OnOk, OnErr, length, map};
ghost use Rattle.std.specs.Prelude.{vec_capacity};
ghost use Rattle.std.specs.List.{All, AllByRecursion, insert, list_any};
ghost use Rattle.std.specs.List.Sorted.{IsNonDecreasing, IsStrictlyIncreasing};
ghost use Rattle.flow_plans.specs.Plans.{PlanView, plan_at};
ghost use Rattle.flow_slots.specs.Assignment.{is_in};
ghost use Rattle.flow_regulations.specs.Advice.{advice};
ghost use Rattle.flow_regulations.specs.Awaiting.{HaveBecomeDue};
ghost use Rattle.flow_regulations.specs.Listing.{RegulationView, Walked, without_in};
ghost use Rattle.flow_regulations.specs.Listing.{IsLookedAgain, IsListed, AreSettledBut};
ghost use Rattle.flow_regulations.specs.Listing.{AreSameBut, AreRenewed, IsFixedWaiting};
ghost use Rattle.flow_regulations.specs.Listing.{AreFrozen, IsSettled};
ghost use Rattle.flow_regulations.specs.Listing.{IsAdvancing, is_below, is_among};
ghost use Rattle.flow_regulations.specs.Listing.{with_fixed_waiting, AreDue};
ghost use Rattle.flow_regulations.specs.Listing.{NoneDue};
ghost use Rattle.flow_regulations.specs.Listing.{HoldNewlyDue, HaveCapacity, names_in};
ghost use Rattle.flow_regulations.specs.Listing.{IsReleased, IsOpened, opened};
ghost use Rattle.flow_regulations.specs.Listing.{is_named, without_named, lineup_named};
ghost use Rattle.flow_regulations.specs.Listing.{is_frozen_in, IsNamedAt};
ghost use Rattle.flow_regulations.specs.Listing.{MayReopen, pairs_in, regulation_of};
ghost use Rattle.flow_regulations.specs.Marks.{IsMarked, AreMarked, AreInRows, MarksNear};
ghost use Rattle.flow_regulations.specs.Settling.{pairs_of};
ghost use Rattle.flow_regulations.specs.Notices.{notices_from, told_from};
ghost use Rattle.flow_regulations.specs.SlotStates.{ArePlaces, place_at};
ghost use Rattle.flow_regulations.specs.Quiet.{AreQuietBut, AllQuiet};
ghost use Rattle.flow_plans.specs.declared.setup.TheConstants.{MAX_PLANS};

use crate::closed::Closed;
use crate::due_queue::is_due_from;
use crate::fixed_flights::note_fixed;
use crate::held_marks::{HeldMarks, mark_where, may_stand, next_marked};
use crate::in_order::put_in_order;
use crate::notice::{Notice, Told};
use crate::place_table::PlaceTable;
use crate::regulation::Regulation;
use crate::slot_state::{NotedPlace, Place};
use crate::telling::{advice_of, tell};
use flow_plans::PlanStore;
use flow_slots::{Planned, Shape, SlotList};
use fpl_message::Spot;
use fpl_text::{Minute, Text};
use std::alloc::{AllocError, Allocator, Global};
use std::marker::Model;

/// The open regulations in order of opening, each with its slot list (ATFCM Users Manual, slot
/// allocation).
#[derive(Drop)]
pub struct Regulations<A: Allocator + Copy = Global> {
    max_plans: u32,
    regulations: Vec<Regulation<A>, A>,
    /// Which regulations may hold each flight.
    marks: HeldMarks<A>,
    /// Which regulations are at which points.
    table: PlaceTable<A>,
    /// The flights that enter a regulation when it is opened, in a buffer that is reused.
    coming: Vec<Planned, A>,
    /// The same flights in order, in a buffer that is reused.
    ordered: Vec<Planned, A>,
}

impl<A: Allocator + Copy> Model for Regulations<A> {
    ghost use Rattle.std.specs.Prelude.{◌<◌, ◌≤◌, vec_capacity};
    ghost use Rattle.flow_regulations.specs.Listing.{RegulationsView, HaveCapacity, AreApart};
    ghost use Rattle.flow_regulations.specs.Listing.{names_in};
    ghost use Rattle.flow_regulations.specs.Marks.{AreMarked, AreInRows};
    ghost use Rattle.flow_plans.specs.declared.setup.TheConstants.{MAX_PLANS};

    ghost Value = { RegulationsView };

    ghost view = { λ r. record {
      max_plans = r.max_plans;
      lists = r.regulations.items;
      room = vec_capacity r.regulations;
    } };

    ghost invariant = { λ r. (0 < r.max_plans) × (r.max_plans ≤ MAX_PLANS)
        × HaveCapacity r.max_plans r.regulations.items
        × AreApart (names_in r.regulations.items) × AreMarked r.marks r.regulations.items
        × AreInRows r.table 0 r.regulations.items };
}

impl<A: Allocator + Copy> Regulations<A> {
    /// No regulations, for flights numbered from 1 to `max_plans`, which is 1 to 20,000.
    pub fn new(alloc: A, max_plans: u32) -> Self
        requires some { 0 < max_plans }
        requires most { max_plans ≤ MAX_PLANS }
        ensures limit { result.max_plans ≡ max_plans }
        ensures lists { result.lists ≡ [] }
    {
        Regulations {
            max_plans,
            regulations: Vec::new(alloc),
            marks: HeldMarks::new(alloc),
            table: PlaceTable::new(alloc),
            coming: Vec::new(alloc),
            ordered: Vec::new(alloc),
        }
    }

    /// The number of open regulations.
    pub fn count(&self) -> usize
        ensures { result ≡ length self.now.lists }
    {
        self.regulations.len()
    }

    /// The open regulations, in order of opening.
    pub fn all(&self) -> &[Regulation<A>]
        ensures { result.now ≡ self.now.lists }
    {
        self.regulations.as_slice()
    }

    /// Whether the same regulations are open, of the same names and points and with the same slot
    /// lists, in the same order. Allocates nothing.
    pub fn same(&self, other: &Regulations<A>) -> bool
        ensures { IsTrue result ↔ (self.now.lists ≡ other.now.lists) }
    {
        are_same(&self.regulations, &other.regulations)
    }

    /// Opens one more regulation, the last in order, of a name that isn't open: the flights to
    /// which it applies get provisional slots in it, and those that are due are frozen. Returns
    /// `Err`, with nothing changed, if allocation fails.
    pub fn open(
        &mut self,
        alloc: A,
        id: Text<8>,
        spot: Spot,
        shape: Shape,
        plans: &PlanStore<A>,
        now: Minute,
    ) -> Result<(), AllocError>
        requires plans { length plans.now.plans ≤ self.old.max_plans }
        requires name { list_any (is_named id) self.old.lists ≡ false }
        ensures limit { self.new.max_plans ≡ self.old.max_plans }
        ensures opened { OnOk result (IsOpened plans.now.taxi self.old.max_plans now plans.now.plans
            (record { id = id; spot = spot; period = shape; fixed = [] })
            self.old.lists self.new.lists) }
        ensures err { OnErr result (self.new.lists ≡ self.old.lists) }
    {
        let mut regulation = Regulation::new(alloc, id, spot, shape, self.max_plans)?;
        self.regulations.reserve(1)?;
        self.marks.make(alloc, self.max_plans)?;
        self.table.make(alloc)?;
        let (coming, ordered) = (&mut self.coming, &mut self.ordered);
        let due = let_all_in(&mut regulation, plans, now, coming, ordered)?;
        settle(&mut regulation, plans, now, due);
        self.marks.open(&self.regulations, &regulation);
        self.table.open(&self.regulations, &regulation);
        self.regulations.push_reserved(regulation);
        Ok(())
    }

    /// Whether a regulation of this name is open.
    pub fn is_open(&self, id: &Text<8>) -> bool
        ensures { result ≡ list_any (is_named id.now) self.now.lists }
    {
        any_named(&self.regulations, id)
    }

    /// The slot list of the open regulation of this name.
    pub fn slots(&self, id: &Text<8>) -> Option<&SlotList<A>>
        ensures { MatchOption result (lineup_named id.now self.now.lists ≡ None)
            (λ list. lineup_named id.now self.now.lists ≡ Some list.now.lineup) }
    {
        list_named(&self.regulations, id)
    }

    /// Replaces what `flights` holds by the flights with frozen slots in the open regulation `id`,
    /// by rising number; none if no regulation of this name is open. The regulation makes no
    /// difference to the advice of any other flight. Returns `Err` if allocation fails.
    pub fn note_fixed(&self, id: &Text<8>, flights: &mut Vec<u32, A>) -> Result<(), AllocError>
        ensures rising { OnOk result (IsStrictlyIncreasing flights.new.items) }
        ensures each { OnOk result
            (All (λ n. is_frozen_in id.now self.now.lists n ≡ true) flights.new.items) }
        ensures numbers { OnOk result
            ((taxi now : ℕ) (plans : List PlanView) → IsSettled taxi now plans self.now.lists
            → All (λ n. (0 < n) × (n ≤ length plans)) flights.new.items) }
        ensures others { OnOk result ((f : ℕ) → is_in f flights.new.items ≡ false
            → AllByRecursion
            (λ l. is_named id.now l ≡ true → pairs_of f l.lineup.fixed ≡ []) self.now.lists) }
    {
        match list_named(&self.regulations, id) {
            Some(list) => note_fixed(list, flights),
            None => {
                flights.clear();
                Ok(())
            }
        }
    }

    /// Closes the regulation `id` and returns it, with its slot list. The others are unchanged.
    /// `None` if no regulation of this name is open. Allocates nothing.
    pub fn shut(&mut self, id: &Text<8>) -> Option<Closed<A>>
        ensures limit { self.new.max_plans ≡ self.old.max_plans }
        ensures lists { self.new.lists ≡ without_named id.now self.old.lists }
        ensures none { IfNone result (list_any (is_named id.now) self.old.lists ≡ false) }
        ensures named { IfSome result (λ c. is_named id.now c.listed ≡ true) }
        ensures closed { IfSome result
            (λ c. self.old.lists ≡ insert self.new.lists c.index c.listed) }
        ensures may { IfSome result (λ c. MayReopen c self.new) }
    {
        let index = index_named(&self.regulations, id)?;
        let regulation = self.regulations.remove(index);
        self.marks.close(index);
        self.table.close(index);
        Some(Closed { index, regulation })
    }

    /// Opens a closed regulation again at its former index, as it was. Allocates nothing, since its
    /// capacity is still there. The masks are discarded: from then on each of these regulations is
    /// asked about each flight.
    pub fn reopen(&mut self, closed: Closed<A>)
        requires { MayReopen closed self.old }
        ensures limit { self.new.max_plans ≡ self.old.max_plans }
        ensures lists { self.new.lists ≡ insert self.old.lists closed.index closed.listed }
    {
        let Closed { index, regulation } = closed;
        self.regulations.insert(index, regulation).unwrap();
        self.marks.clear();
        self.table.clear();
    }

    /// Removes the regulation that was opened last, if there is one.
    pub fn take_last(&mut self)
        ensures limit { self.new.max_plans ≡ self.old.max_plans }
        ensures lists { (before : List RegulationView) (l : RegulationView) → self.old.lists
            ≡ before ++ l ∷ []
            → self.new.lists ≡ before }
        ensures none { self.old.lists ≡ [] → self.new.lists ≡ [] }
    {
        let _last = self.regulations.pop();
    }

    /// Settles the regulations after a message about plan `number`, which changed it or added it as
    /// the last. If the flight's frozen slot may not stay, or its entry has changed, it is removed
    /// and inserted again, and it is frozen if it is due. Each slot list changes for this one
    /// flight.
    pub fn reallocate(&mut self, plans: &PlanStore<A>, number: u32, now: Minute)
        requires some { 0 < number }
        requires within { number ≤ length plans.now.plans }
        requires room { number ≤ self.old.max_plans }
        ensures limit { self.new.max_plans ≡ self.old.max_plans }
        ensures others { (f : ℕ) → (f ≡ number → ⊥)
            → pairs_in f self.new.lists ≡ pairs_in f self.old.lists }
        ensures alone { map (without_in number) self.new.lists
            ≡ map (without_in number) self.old.lists }
        ensures renewed { (before : List PlanView)
            → IsListed plans.now.taxi self.old.max_plans before self.old.lists
            → AreSettledBut number plans.now.taxi now before self.old.lists
            → AreSameBut number before plans.now.plans
            → AreRenewed plans.now.taxi self.old.max_plans now plans.now.plans
            self.old.lists self.new.lists }
    {
        let word = self.marks.of(number);
        let near = self.table.near(plans, number);
        let word = reallocate_in(&mut self.regulations, plans, number, now, word, near);
        self.marks.set(number, word);
    }

    /// Settles the regulations when the desk's time has advanced: these flights, which are due now,
    /// are frozen in their provisional slots, and no other flight changes. If each flight that has
    /// become due is among them, the regulations are settled.
    pub fn advance_due(&mut self, due: &[u32])
        ensures limit { self.new.max_plans ≡ self.old.max_plans }
        ensures lists { self.new.lists ≡ map (with_fixed_waiting due.now) self.old.lists }
        ensures others { (f : ℕ) → is_in f due.now ≡ false
            → pairs_in f self.new.lists ≡ pairs_in f self.old.lists }
        ensures renewed { (taxi earlier now : ℕ) (plans : List PlanView) → earlier ≤ now
            → AreDue now plans due.now
            → HoldNewlyDue earlier now plans due.now
            → IsListed taxi self.old.max_plans plans self.old.lists
            → IsSettled taxi earlier plans self.old.lists
            → AreRenewed taxi self.old.max_plans now plans self.old.lists self.new.lists }
    {
        advance_in(&mut self.regulations, &self.marks, due);
    }

    /// Undoes `advance_due`: makes the slots of these flights provisional again, each by the entry
    /// of its plan. Allocates nothing.
    pub fn release_all(&mut self, plans: &PlanStore<A>, due: &[u32])
        requires { All (λ n. (0 < n) × (n ≤ length plans.now.plans)) due.now }
        ensures limit { self.new.max_plans ≡ self.old.max_plans }
        ensures lists { (max earlier now : ℕ) (before : List RegulationView)
            → HaveBecomeDue plans.now.taxi max earlier now plans.now.plans due.now before
            → self.old.lists ≡ map (with_fixed_waiting due.now) before → self.new.lists ≡ before }
    {
        release_all_in(&mut self.regulations, plans, due);
    }

    /// Freezes the slots that a departing flight holds, frozen before or not: nobody moves. The
    /// plans are those before the departure.
    pub fn freeze_departing(&mut self, number: u32)
        requires { 0 < number }
        ensures limit { self.new.max_plans ≡ self.old.max_plans }
        ensures others { (f : ℕ) → (f ≡ number → ⊥)
            → pairs_in f self.new.lists ≡ pairs_in f self.old.lists }
        ensures alone { map (without_in number) self.new.lists
            ≡ map (without_in number) self.old.lists }
        ensures frozen { (taxi : ℕ) (before : List PlanView)
            → IsListed taxi self.old.max_plans before self.old.lists
            → AreFrozen taxi self.old.max_plans number before self.old.lists self.new.lists }
    {
        let word = self.marks.of(number);
        fix_waiting_in(&mut self.regulations, number, word);
    }

    /// Records the state of a flight in each regulation that may hold it, for `put_back`, in place
    /// of those recorded before. The caller has reserved capacity for one state a regulation.
    pub fn note_places(&self, number: u32, places: &mut Vec<NotedPlace, A>)
        requires { length self.now.lists ≤ vec_capacity places.old }
        ensures places { ArePlaces number places.new.items self.now.lists }
        ensures capacity { vec_capacity places.new ≡ vec_capacity places.old }
    {
        let word = self.marks.of(number);
        note_places_in(&self.regulations, number, word, places);
    }

    /// Undoes `reallocate` and `freeze_departing` for a flight: restores its state in each
    /// regulation, as it was recorded then. The regulations are those of that time. Allocates
    /// nothing.
    pub fn put_back(&mut self, number: u32, places: &[NotedPlace])
        requires some { 0 < number }
        requires room { number ≤ self.old.max_plans }
        requires before { (before : List RegulationView) × ArePlaces number places.now before
            × (map (without_in number) self.old.lists ≡ map (without_in number) before) }
        ensures limit { self.new.max_plans ≡ self.old.max_plans }
        ensures lists { (before : List RegulationView) → ArePlaces number places.now before
            → map (without_in number) self.old.lists ≡ map (without_in number) before
            → self.new.lists ≡ before }
    {
        put_back_in(&mut self.regulations, number, places);
        self.marks.set(number, u64::MAX);
    }

    /// The slot that the flight of plan `number` is to be issued: its take-off delayed by the most
    /// penalising of the regulations in which it has a frozen slot, of equal ones by the one opened
    /// first, and the name of that one (ATFCM Users Manual, slot allocation). `None` if it has no
    /// frozen slot.
    pub fn advice(&self, plans: &PlanStore<A>, number: u32) -> Option<Told>
        requires some { 0 < number }
        requires within { number ≤ length plans.now.plans }
        ensures { IfSome (plan_at plans.now.plans number)
            (λ p. result ≡ advice plans.now.taxi number p (map regulation_of self.now.lists)) }
    {
        let word = self.marks.of(number);
        advice_of(&self.regulations, plans, number, word)
    }

    /// Compares the advice of these plans with the CTOT last issued to each, by plan number, and
    /// appends a notice if the time is another: a slot allocation message (SAM), its revision (SRM)
    /// or its cancellation (SLC). The advice is then the CTOT last issued.
    ///
    /// The numbers of the plans rise, and include each plan whose advice may have another CTOT than
    /// was last issued to it; the caller has reserved capacity for as many notices. No notice is
    /// pending afterwards.
    pub fn tell(
        &self,
        plans: &PlanStore<A>,
        changed: &[u32],
        told: &mut Vec<Option<Told>, A>,
        notices: &mut Vec<Notice, A>,
    )
        requires each { length told.old.items ≡ length plans.now.plans }
        requires rising { IsNonDecreasing changed.now }
        requires numbers { All (λ n. (0 < n) × (n ≤ length plans.now.plans)) changed.now }
        requires room { length notices.old.items + length changed.now ≤ vec_capacity notices.old }
        requires quiet { AreQuietBut changed.now plans.now.taxi
            (map regulation_of self.now.lists) plans.now.plans told.old.items }
        ensures told { told.new.items
            ≡ told_from 1 plans.now.taxi
            (map regulation_of self.now.lists) plans.now.plans told.old.items }
        ensures notices { notices.new.items
            ≡ notices.old.items ++ notices_from 1 plans.now.taxi
            (map regulation_of self.now.lists) plans.now.plans told.old.items }
        ensures quiet { AllQuiet plans.now.taxi
            (map regulation_of self.now.lists) plans.now.plans told.new.items }
        ensures each { length told.new.items ≡ length plans.now.plans }
        ensures few { length notices.new.items ≤ length notices.old.items + length changed.now }
        ensures capacity { vec_capacity notices.new ≡ vec_capacity notices.old }
    {
        let marks = &self.marks;
        tell(&self.regulations, marks, plans, changed, told, notices);
    }
}

/// Whether these are the same regulations, in the same order.
fn are_same<A: Allocator + Copy>(regulations: &[Regulation<A>], others: &[Regulation<A>]) -> bool
    ensures { IsTrue result ↔ (regulations.now ≡ others.now) }
{
    if regulations.len() != others.len() {
        return false;
    }
    for (index, regulation) in regulations.iter().enumerate() {
        if !regulation.is(&others[index]) {
            return false;
        }
    }
    true
}

/// Each regulation that is in the mask `word` or `near` reallocates one flight. Returns the mask of
/// those that may hold it then. No other regulation than those in `near` applies to the flight.
fn reallocate_in<A: Allocator + Copy>(
    regulations: &mut [Regulation<A>],
    plans: &PlanStore<A>,
    number: u32,
    now: Minute,
    word: u64,
    near: u64,
) -> u64
    requires some { 0 < number }
    requires within { number ≤ length plans.now.plans }
    requires room { AllByRecursion (λ l. number ≤ l.lineup.capacity) regulations.old }
    requires covers { IsMarked word number 0 regulations.old }
    requires near { (p : PlanView) → plan_at plans.now.plans number ≡ Some p
        → MarksNear near plans.now.taxi p regulations.old }
    ensures walked { Walked (IsLookedAgain number plans.now.taxi now plans.now.plans)
        (length regulations.new) regulations.old regulations.new }
    ensures covers { IsMarked result number 0 regulations.new }
{
    let concerned = word | near;
    let mut marked = word;
    let mut index = next_marked(concerned, 0);
    while index < regulations.len() {
        let stand = may_stand(marked, index);
        let stands = regulations[index].look_where(plans, number, now, stand);
        marked = mark_where(marked, index, stands);
        index = next_marked(concerned, index + 1);
    }
    marked
}

/// Records the state of a flight in each regulation of the mask `word`. No other one holds it.
fn note_places_in<A: Allocator + Copy>(
    regulations: &[Regulation<A>],
    number: u32,
    word: u64,
    places: &mut Vec<NotedPlace, A>,
)
    requires room { length regulations.now ≤ vec_capacity places.old }
    requires covers { IsMarked word number 0 regulations.now }
    ensures places { ArePlaces number places.new.items regulations.now }
    ensures capacity { vec_capacity places.new ≡ vec_capacity places.old }
{
    places.clear();
    let mut index = next_marked(word, 0);
    while index < regulations.len() {
        let place = regulations[index].place_of(number);
        places.push_reserved(NotedPlace { index, place });
        index = next_marked(word, index + 1);
    }
}

/// The state recorded for the regulation at an index: absent, if none is.
fn place_at(places: &[NotedPlace], index: usize) -> Place
    ensures { result ≡ place_at places.now index }
{
    for noted in places {
        if noted.index == index {
            return noted.place;
        }
    }
    Place::Absent
}

/// Each regulation restores the state of one flight.
fn put_back_in<A: Allocator + Copy>(
    regulations: &mut [Regulation<A>],
    number: u32,
    places: &[NotedPlace],
)
    requires some { 0 < number }
    requires room { AllByRecursion (λ l. number ≤ l.lineup.capacity) regulations.old }
    requires before { (before : List RegulationView) × ArePlaces number places.now before
        × (map (without_in number) regulations.old ≡ map (without_in number) before) }
    ensures { (before : List RegulationView) → ArePlaces number places.now before
        → map (without_in number) regulations.old ≡ map (without_in number) before
        → regulations.new ≡ before }
{
    for (index, regulation) in regulations.iter_mut().enumerate() {
        regulation.put_back(number, place_at(places, index));
    }
}

/// Each regulation freezes the provisional slot of one flight. `word` is the mask of those that may
/// hold it.
fn fix_waiting_in<A: Allocator + Copy>(regulations: &mut [Regulation<A>], number: u32, word: u64)
    requires { IsMarked word number 0 regulations.old }
    ensures { Walked (IsFixedWaiting number)
        (length regulations.new) regulations.old regulations.new }
{
    let mut index = next_marked(word, 0);
    while index < regulations.len() {
        regulations[index].fix_waiting(number);
        index = next_marked(word, index + 1);
    }
}

/// Each regulation freezes the provisional slots of these flights. `marks` say which regulations
/// may hold them.
fn advance_in<A: Allocator + Copy>(
    regulations: &mut [Regulation<A>],
    marks: &HeldMarks<A>,
    due: &[u32],
)
    requires { AreMarked marks.now regulations.old }
    ensures lists { regulations.new ≡ map (with_fixed_waiting due.now) regulations.old }
    ensures marked { AreMarked marks.now regulations.new }
    ensures walked { (taxi now : ℕ) (plans : List PlanView) → AreDue now plans due.now
        → Walked (IsAdvancing (is_among due.now) taxi now plans)
        (length regulations.new) regulations.old regulations.new }
{
    for number in due {
        fix_waiting_in(regulations, *number, marks.of(*number));
    }
}

/// Each regulation makes the slots of these flights provisional again, the last one first.
fn release_all_in<A: Allocator + Copy>(
    regulations: &mut [Regulation<A>],
    plans: &PlanStore<A>,
    due: &[u32],
)
    requires { All (λ n. (0 < n) × (n ≤ length plans.now.plans)) due.now }
    ensures capacity { (max : ℕ) → HaveCapacity max regulations.old
        → HaveCapacity max regulations.new }
    ensures names { names_in regulations.new ≡ names_in regulations.old }
    ensures marked { (words : List ℕ) → AreMarked words regulations.old
        → AreMarked words regulations.new }
    ensures rows { (table : List ℕ) → AreInRows table 0 regulations.old
        → AreInRows table 0 regulations.new }
    ensures lists { (max earlier now : ℕ) (before : List RegulationView)
        → HaveBecomeDue plans.now.taxi max earlier now plans.now.plans due.now before
        → regulations.old ≡ map (with_fixed_waiting due.now) before → regulations.new ≡ before }
{
    let mut left = due.len();
    while left > 0 {
        left -= 1;
        release_in(regulations, plans, due[left]);
    }
}

/// Each regulation makes the slot of one flight provisional again.
fn release_in<A: Allocator + Copy>(
    regulations: &mut [Regulation<A>],
    plans: &PlanStore<A>,
    number: u32,
)
    requires some { 0 < number }
    requires within { number ≤ length plans.now.plans }
    ensures { Walked (IsReleased number plans.now.taxi plans.now.plans)
        (length regulations.new) regulations.old regulations.new }
{
    for regulation in regulations.iter_mut() {
        regulation.release(plans, number);
    }
}

/// Gives the flights to which a new regulation applies provisional slots in it: they are collected
/// in a reused buffer, sorted, and inserted at once. Returns whether one of them is due, or `Err`
/// if allocation fails.
fn let_all_in<A: Allocator + Copy>(
    regulation: &mut Regulation<A>,
    plans: &PlanStore<A>,
    now: Minute,
    coming: &mut Vec<Planned, A>,
    ordered: &mut Vec<Planned, A>,
) -> Result<bool, AllocError>
    requires room { length plans.now.plans ≤ regulation.old.lineup.capacity }
    requires empty { regulation.old ≡ opened plans.now.taxi [] regulation.old }
    ensures opened { OnOk result
        (regulation.new ≡ opened plans.now.taxi plans.now.plans regulation.old) }
    ensures due { IfOk result (λ due. due ≡ false → NoneDue now plans.now.plans regulation.new) }
{
    let first = regulation.note_coming(plans, coming)?;
    ordered.reserve((plans.count() as usize).saturating_sub(ordered.len()))?;
    let (start, _end) = regulation.list().shape().period();
    put_in_order(coming, start, ordered);
    regulation.fill(coming);
    let due = is_due_from(first, now);
    Ok(due)
}

/// Freezes the provisional slots of the flights that are due. Reads none if the caller knows that
/// none is due, which is worth 4 % of the instructions of 128 OPEN of 5,000 departures.
fn settle<A: Allocator + Copy>(
    regulation: &mut Regulation<A>,
    plans: &PlanStore<A>,
    now: Minute,
    due: bool,
)
    requires { due ≡ false → NoneDue now plans.now.plans regulation.old }
    ensures { IsAdvancing
        (is_below (length plans.now.plans + 1))
        plans.now.taxi now plans.now.plans regulation.old regulation.new }
{
    if !due {
        return;
    }
    let count = plans.count();
    let mut number = regulation.next_held(1);
    while number <= count {
        regulation.fix_due(plans, number, now);
        number = regulation.next_held(number + 1);
    }
}

/// Whether one of the regulations has this name.
fn any_named<A: Allocator + Copy>(regulations: &[Regulation<A>], id: &Text<8>) -> bool
    ensures { result ≡ list_any (is_named id.now) regulations.now }
{
    regulations.iter().any(|regulation| regulation.is_named(id))
}

/// The slot list of the first regulation of this name.
fn list_named<'a, A: Allocator + Copy>(
    regulations: &'a [Regulation<A>],
    id: &Text<8>,
) -> Option<&'a SlotList<A>>
    ensures { MatchOption result (lineup_named id.now regulations.now ≡ None)
        (λ list. lineup_named id.now regulations.now ≡ Some list.now.lineup) }
{
    for regulation in regulations {
        if regulation.is_named(id) {
            return Some(regulation.list());
        }
    }
    None
}

/// The index of the first regulation of this name.
fn index_named<A: Allocator + Copy>(regulations: &[Regulation<A>], id: &Text<8>) -> Option<usize>
    ensures found { IfSome result (λ index. IsNamedAt id.now index regulations.now) }
    ensures none { IfNone result (list_any (is_named id.now) regulations.now ≡ false) }
{
    for (index, regulation) in regulations.iter().enumerate() {
        if regulation.is_named(id) {
            return Some(index);
        }
    }
    None
}
