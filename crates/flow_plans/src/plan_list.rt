//! Plans, each with its outline.
//!
//! The outlines are in an array of their own, so that a scan for flights that may enter a point
//! reads little memory.
ghost use Rattle.std.specs.Prelude.{◌≡◌, ◌+◌, ◌≤◌, ◌<◌, ◌-◌, ◌++◌, ◌∷◌, ℕ, []};
ghost use Rattle.std.specs.Prelude.{None, true, false, length, take, OnOk};
ghost use Rattle.std.specs.Prelude.{OnErr, IfSome, IfNone, IsSome, List, vec_capacity};
ghost use Rattle.flow_plans.specs.Chains.{AreChained, StayChained};
ghost use Rattle.flow_plans.specs.Entries.{subject, coming_into, entering, NoneEarlier};
ghost use Rattle.fpl_message.specs.declared.order.Spot.{Spot};
ghost use Rattle.flow_plans.specs.Letters.{IsDepartureOf};
ghost use Rattle.flow_plans.specs.Outlines.{AreOutlines};
ghost use Rattle.flow_plans.specs.Plans.{PlanView};
ghost use Rattle.flow_plans.specs.Plans.{is_held, plan_at, filed_off_block, changed_at, with_state};
ghost use Rattle.flow_plans.specs.Plans.{with_off_block, with_former, texts_or};
ghost use Rattle.flow_plans.specs.Changes.{amended_plan, texts_after};
ghost use Rattle.flow_plans.specs.declared.setup.TheConstants.{MAX_PLANS, MAX_TAXI};
ghost use Rattle.flow_plans.specs.Times.{off_blocks_end};

use crate::chains::Chains;
use crate::first_letters::letters_of;
use crate::outline::PlanIndexEntry;
use crate::plan::{Plan, PlanState, PreviousValues};
use crate::texts::Texts;
use flow_slots::Planned;
use fpl_message::{Chg, Spot};
use fpl_text::Minute;
use std::alloc::{AllocError, Allocator, Global};
use std::marker::Model;

/// Plans by number, from 1, and their outlines. Contracts see the plans.
#[derive(Drop)]
pub(crate) struct PlanList<A: Allocator + Copy = Global> {
    plans: Vec<Plan<A>, A>,
    outlines: Vec<PlanIndexEntry, A>,
}

impl<A: Allocator + Copy> Model for PlanList<A> {
    ghost use Rattle.std.specs.Prelude.{List};
    ghost use Rattle.flow_plans.specs.Plans.{PlanView};
    ghost use Rattle.flow_plans.specs.Outlines.{AreOutlines};

    ghost Value = { List PlanView };

    ghost view = { λ l. l.plans.items };

    ghost invariant = { λ l. AreOutlines l.outlines.items l.plans.items };
}

impl<A: Allocator + Copy> PlanList<A> {
    pub(crate) fn new(alloc: A) -> Self
        ensures { result ≡ [] }
    {
        PlanList {
            plans: Vec::new(alloc),
            outlines: Vec::new(alloc),
        }
    }

    #[inline(always)]
    pub(crate) fn as_slice(&self) -> &[Plan<A>]
        ensures { result.now ≡ self.now }
    {
        self.plans.as_slice()
    }

    pub(crate) fn len(&self) -> usize
        ensures { result ≡ length self.now }
    {
        self.plans.len()
    }

    /// The off-block date and time of plan `number`, if it is filed.
    #[inline(always)]
    pub(crate) fn filed_off_block(&self, number: u32) -> Option<Minute>
        requires { 0 < number }
        ensures { result ≡ filed_off_block self.now number }
    {
        match self.outlines.get((number - 1) as usize) {
            Some(outline) => outline.filed_off_block(),
            None => None,
        }
    }

    /// The off-block date and time of plan `number`, in minutes from 1970-01-01 00:00 UTC.
    #[inline(always)]
    fn off_block(&self, number: u32) -> u32
        requires { (0 < number) × (number ≤ length self.now) }
        ensures { IfSome (plan_at self.now number) (λ plan. result ≡ plan.off_block) }
    {
        self.plans[(number - 1) as usize].off_block().minutes()
    }

    /// Whether the flight of plan `number` may enter a point in a period. If it may not, no
    /// regulation of that point and period applies to it.
    #[inline(always)]
    fn may_come(&self, number: u32, taxi: u32, spot: &Spot, start: Minute, end: Minute) -> bool
        requires { (0 < number) × (number ≤ length self.now) }
        ensures { result ≡ false → IfSome (plan_at self.now number)
            (λ plan. subject taxi spot.now start end plan ≡ None) }
    {
        let outline = &self.outlines[(number - 1) as usize];
        outline.may_come(spot) && outline.may_fly(taxi, start, end)
    }

    /// The entry of plan `number` at its departure, if a regulation of an aerodrome of these
    /// letters and that period applies to its flight.
    #[inline(always)]
    fn departure(
        &self,
        number: u32,
        taxi: u32,
        letters: u32,
        start: Minute,
        end: Minute,
    ) -> Option<Minute>
        requires number { (0 < number) × (number ≤ length self.now) }
        requires taxi { taxi ≤ MAX_TAXI }
        ensures { (spot : Spot) → IsDepartureOf letters spot
            → IfSome (plan_at self.now number) (λ plan. result ≡ subject taxi spot start end plan) }
    {
        self.outlines[(number - 1) as usize].departure(taxi, letters, start, end)
    }

    /// The entry of plan `number`, if a regulation of that point and period applies to its flight.
    /// At a departure of four letters it is read from the outline.
    #[inline(always)]
    pub(crate) fn subject(
        &self,
        number: u32,
        taxi: u32,
        spot: &Spot,
        start: Minute,
        end: Minute,
    ) -> Option<Minute>
        requires number { (0 < number) × (number ≤ length self.now) }
        requires taxi { taxi ≤ MAX_TAXI }
        ensures { IfSome (plan_at self.now number) (λ plan.
            result ≡ subject taxi spot.now start end plan) }
    {
        if let Spot::Dep(place) = spot {
            let letters = letters_of(place.as_bytes());
            if letters != 0 {
                return self.departure(number, taxi, letters, start, end);
            }
        }
        self.plans[(number - 1) as usize].subject(taxi, spot, start, end)
    }

    /// The first number from `from` on of a plan whose flight may enter a point in a period. To the
    /// flights of the plans before it no regulation of that point and period applies, and to none
    /// from there on if it is `None`.
    #[inline(always)]
    fn next_coming(
        &self,
        from: u32,
        taxi: u32,
        spot: &Spot,
        start: Minute,
        end: Minute,
    ) -> Option<u32>
        requires some { 0 < from }
        requires few { length self.now ≤ MAX_PLANS }
        ensures within { IfSome result (λ m. (from ≤ m) × (m ≤ length self.now)) }
        ensures passed { IfSome result (λ m. (n : ℕ) → from ≤ n → n < m
            → IfSome (plan_at self.now n) (λ plan. subject taxi spot.now start end plan ≡ None)) }
        ensures none { IfNone result ((n : ℕ) → from ≤ n → n < length self.now + 1
            → IfSome (plan_at self.now n) (λ plan. subject taxi spot.now start end plan ≡ None)) }
    {
        let count = self.plans.len() as u32;
        let mut number = from;
        while number <= count {
            if self.may_come(number, taxi, spot, start, end) {
                return Some(number);
            }
            number += 1;
        }
        None
    }

    /// Collects the flights to which a regulation of that point and period applies, by number, and
    /// returns a time that none of their off-block times is before. At a departure of four letters
    /// it reads the outlines alone.
    pub(crate) fn note_coming(
        &self,
        taxi: u32,
        spot: &Spot,
        start: Minute,
        end: Minute,
        coming: &mut Vec<Planned, A>,
    ) -> u32
        requires few { length self.now ≤ MAX_PLANS }
        requires taxi { taxi ≤ MAX_TAXI }
        requires none { coming.old.items ≡ [] }
        requires room { length self.now ≤ vec_capacity coming.old }
        ensures coming { coming.new.items ≡ coming_into taxi spot.now start end self.now }
        ensures first { NoneEarlier result self.now coming.new.items }
    {
        if let Spot::Dep(place) = spot {
            let letters = letters_of(place.as_bytes());
            if letters != 0 {
                return note_departing(&self.outlines, taxi, letters, start, end, coming);
            }
        }
        let mut first = u32::MAX;
        let mut from = 1;
        while let Some(number) = self.next_coming(from, taxi, spot, start, end) {
            let entry = self.subject(number, taxi, spot, start, end);
            first = note_flight(coming, number, entry, self.off_block(number), first);
            from = number + 1;
        }
        first
    }

    /// Appends a plan, also to the chain of its flight. After an `Err` the plans and all chains are
    /// unchanged.
    pub(crate) fn append(&mut self, chains: &mut Chains<A>, plan: Plan<A>) -> Result<(), AllocError>
        requires few { length self.old ≤ MAX_PLANS }
        requires held { is_held plan.state ≡ true }
        requires chained { AreChained chains.old self.old }
        ensures ok { OnOk result (self.new ≡ self.old ++ plan ∷ []) }
        ensures err { OnErr result (self.new ≡ self.old) }
        ensures chained { AreChained chains.new self.new }
        ensures kept { OnErr result (StayChained chains.old chains.new) }
    {
        self.plans.reserve(1)?;
        self.outlines.reserve(1)?;
        chains.append(self.plans.as_slice(), &plan)?;
        self.outlines.push_reserved(PlanIndexEntry::of(&plan));
        self.plans.push_reserved(plan);
        Ok(())
    }

    /// Removes the last plan.
    pub(crate) fn pop(&mut self)
        ensures { self.new ≡ take (length self.old - 1) self.old }
    {
        self.outlines.pop();
        self.plans.pop();
    }

    #[tactic(auto, unfolding(crate::specs::Plans::changed_at))]
    pub(crate) fn set_state(&mut self, number: u32, state: PlanState)
        requires { (0 < number) × (number ≤ length self.old) }
        ensures { self.new ≡ changed_at (with_state state) number self.old }
    {
        let place = (number - 1) as usize;
        let plan = &mut self.plans[place];
        plan.set_state(state);
        self.outlines[place] = PlanIndexEntry::of(plan);
    }

    #[tactic(auto, unfolding(crate::specs::Plans::changed_at))]
    pub(crate) fn set_off_block(&mut self, number: u32, moment: Minute)
        requires number { (0 < number) × (number ≤ length self.old) }
        requires bound { moment < off_blocks_end }
        ensures { self.new ≡ changed_at (with_off_block moment) number self.old }
    {
        let place = (number - 1) as usize;
        let plan = &mut self.plans[place];
        plan.set_off_block(moment);
        self.outlines[place] = PlanIndexEntry::of(plan);
    }

    /// Makes the amendments of a message to plan `number`, with its off-block date and time and its
    /// texts, and returns the former values.
    #[tactic(auto, unfolding(crate::specs::Plans::changed_at))]
    pub(crate) fn amend(
        &mut self,
        number: u32,
        message: &Chg<A>,
        off_block: Minute,
        texts: Option<Box<Texts<A>, A>>,
    ) -> PreviousValues<A>
        requires number { (0 < number) × (number ≤ length self.old) }
        requires off_block { off_block < off_blocks_end }
        requires texts { IfSome (plan_at self.old number)
            (λ plan. texts_or texts plan.texts ≡ texts_after plan.texts message.now) }
        ensures changed { self.new ≡ changed_at (amended_plan off_block message.now)
            number self.old }
        ensures back { changed_at (with_former result) number self.new ≡ self.old }
        ensures count { length self.new ≡ length self.old }
    {
        let place = (number - 1) as usize;
        let plan = &mut self.plans[place];
        let former = plan.amend(message, off_block, texts);
        self.outlines[place] = PlanIndexEntry::of(plan);
        former
    }

    /// Sets the former values of plan `number` again.
    #[tactic(auto, unfolding(crate::specs::Plans::changed_at))]
    pub(crate) fn restore(&mut self, number: u32, former: PreviousValues<A>)
        requires { (0 < number) × (number ≤ length self.old) }
        ensures { self.new ≡ changed_at (with_former former) number self.old }
    {
        let place = (number - 1) as usize;
        let plan = &mut self.plans[place];
        plan.restore(former);
        self.outlines[place] = PlanIndexEntry::of(plan);
    }
}

/// Collects the flights to which a regulation of that period applies at a departure aerodrome of
/// these letters, by number, and returns a time that none of their off-block times is before. To
/// read the plans takes over 40 % more instructions in 128 OPEN of 5,000 departures.
#[inline(never)]
fn note_departing<A: Allocator + Copy>(
    outlines: &[PlanIndexEntry],
    taxi: u32,
    letters: u32,
    start: Minute,
    end: Minute,
    coming: &mut Vec<Planned, A>,
) -> u32
    requires few { length outlines.now ≤ MAX_PLANS }
    requires taxi { taxi ≤ MAX_TAXI }
    requires none { coming.old.items ≡ [] }
    requires room { length outlines.now ≤ vec_capacity coming.old }
    ensures coming { (plans : List PlanView) (spot : Spot) → AreOutlines outlines.now plans
        → IsDepartureOf letters spot
        → coming.new.items ≡ coming_into taxi spot start end plans }
    ensures first { (plans : List PlanView) → AreOutlines outlines.now plans
        → NoneEarlier result plans coming.new.items }
{
    let mut first = u32::MAX;
    for (index, outline) in outlines.iter().enumerate() {
        let entry = outline.departure(taxi, letters, start, end);
        let off_block = outline.off_block().minutes();
        first = note_flight(coming, index as u32 + 1, entry, off_block, first);
    }
    first
}

/// Appends a flight with its entry, if it has one, and returns the earlier of its off-block time
/// and of those before.
#[inline(always)]
fn note_flight<A: Allocator + Copy>(
    coming: &mut Vec<Planned, A>,
    flight: u32,
    entry: Option<Minute>,
    off_block: u32,
    first: u32,
) -> u32
    requires { length coming.old.items < vec_capacity coming.old }
    ensures items { coming.new.items ≡ coming.old.items ++ entering entry flight [] }
    ensures few { length coming.new.items ≤ length coming.old.items + 1 }
    ensures capacity { vec_capacity coming.new ≡ vec_capacity coming.old }
    ensures first { result ≤ first }
    ensures own { IsSome entry → result ≤ off_block }
{
    let Some(entry) = entry else {
        return first;
    };
    let entry = entry.minutes();
    coming.push_reserved(Planned { entry, flight });
    first.min(off_block)
}
