//! The plans of a desk, by number.
ghost use Rattle.std.specs.Prelude.{◌≡◌, ◌≢◌, ◌≤◌, ◌<◌, ◌+◌, ◌-◌, ◌++◌, ◌∷◌};
ghost use Rattle.std.specs.Prelude.{ℕ, [], Ok, Err, Some, None, IfOk};
ghost use Rattle.std.specs.Prelude.{IfErr, IsOk, OnOk, OnErr, IfSome};
ghost use Rattle.std.specs.Prelude.{IsSome, IsTrue, ◌↔◌, true, length};
ghost use Rattle.std.specs.Prelude.{slice_get, option_copied};
ghost use Rattle.flow_plans.specs.Settings.{IsDeskTime};
ghost use Rattle.flow_plans.specs.Entries.{take_off, entry_at, subject, coming_into, NoneEarlier};
ghost use Rattle.flow_plans.specs.Undoing.{undone};
ghost use Rattle.flow_plans.specs.Chains.{flight_of_key, AreChained, HasRoomFor};
ghost use Rattle.flow_plans.specs.Plans.{plan_at, filed_off_block, status_at};
ghost use Rattle.flow_plans.specs.Plans.{changed_at, with_state, with_off_block};
ghost use Rattle.fpl_message.specs.declared.order.Spot.{Spot};
ghost use Rattle.flow_plans.specs.Near.{table_row, word_at, HasBitsOf};
ghost use Rattle.flow_plans.specs.Matching.{matching};
ghost use Rattle.flow_plans.specs.Stores.{ChangesPlan};
ghost use Rattle.flow_plans.specs.Times.{delayed_to, off_blocks_end};
ghost use Rattle.flow_plans.specs.Changes.{plan_of, asked_off_block, filed, cancelled};
ghost use Rattle.flow_plans.specs.Changes.{departed, delayed, amended, IsRefusal};
ghost use Rattle.flow_plans.specs.Changes.{IsJustRefusal, Returns};
ghost use Rattle.flow_plans.specs.declared.setup.TheConstants.{MAX_PLANS};

use crate::amending::amend_plan;
use crate::chains::{Chains, FlightName};
use crate::fault::PlanFault;
use crate::matching::{holds_key, matching};
use crate::plan::{Plan, PlanState, Status, key_of};
use crate::plan_list::PlanList;
use crate::setup::Setup;
use crate::times::{FURTHEST_AHEAD, delayed_to, moment_of};
use crate::undo::{LastChange, previous, undo};
use flow_slots::Planned;
use fpl_message::{Chg, Cnl, Dep, Dla, Fpl, Parts, Spot};
use fpl_text::Minute;
use std::alloc::{AllocError, Allocator, Global};
use std::marker::Model;
use std::mem;

/// Flight plans by number, from 1. Contracts see the limit of accepted plans, the taxi time, the
/// plans, and those before the last accepted change.
#[derive(Drop)]
pub struct PlanStore<A: Allocator + Copy = Global> {
    alloc: A,
    max_plans: u32,
    taxi: u32,
    plans: PlanList<A>,
    chains: Chains<A>,
    last: LastChange<A>,
}

impl<A: Allocator + Copy> Model for PlanStore<A> {
    ghost use Rattle.std.specs.Prelude.{◌≤◌, length};
    ghost use Rattle.flow_plans.specs.Stores.{PlanStoreView};
    ghost use Rattle.flow_plans.specs.Undoing.{undone, IsKeptStore};

    ghost Value = { PlanStoreView };

    ghost view = { λ s. record {
      max_plans = s.max_plans;
      taxi = s.taxi;
      plans = s.plans;
      before = undone s.plans s.last;
    } };

    ghost invariant = { λ s. IsKeptStore s.max_plans s.taxi s.plans s.chains s.last };
}

impl<A: Allocator + Copy> PlanStore<A> {
    /// Creates a store without plans, with the limit and the taxi time of a setup.
    pub fn new(alloc: A, setup: &Setup) -> Self
        ensures limit { result.max_plans ≡ setup.now.max_plans }
        ensures taxi { result.taxi ≡ setup.now.taxi }
        ensures plans { result.plans ≡ [] }
        ensures before { result.before ≡ None }
    {
        PlanStore {
            alloc,
            max_plans: setup.max_plans(),
            taxi: setup.taxi(),
            plans: PlanList::new(alloc),
            chains: Chains::new(alloc),
            last: LastChange::Nothing,
        }
    }

    /// Returns the number of accepted plans, cancelled ones counted.
    pub fn count(&self) -> u32
        ensures count { result ≡ length self.now.plans }
        ensures limit { result ≤ self.now.max_plans }
        ensures bound { result ≤ MAX_PLANS }
    {
        self.plans.len() as u32
    }

    /// Returns plan `number`, counted from 1; `None` if there is no such plan.
    pub fn plan(&self, number: u32) -> Option<&Plan<A>>
        ensures plan { 0 < number → option_copied result ≡ slice_get self.now.plans (number - 1) }
        ensures zero { number ≡ 0 → result ≡ None }
    {
        if number == 0 {
            return None;
        }
        self.plans.as_slice().get((number - 1) as usize)
    }

    /// Files a flight plan, and returns its number, the next one. With a DOF item its off-block
    /// date is that day, without one the time is the first not before the desk's time.
    ///
    /// # Errors
    ///
    /// The store is unchanged.
    /// - `Past` if the off-block date and time is before the desk's time, `TooEarly` if it is more
    ///   than 120 hours after it.
    /// - `AlreadyHeld` if a held plan has the same key.
    /// - `PlansFull` if the limit of accepted plans is reached.
    /// - `OutOfMemory` if an allocation fails.
    pub fn file(&mut self, message: &Fpl<A>, now: Minute) -> Result<u32, PlanFault>
        requires { IsDeskTime now }
        ensures ok { IfOk result (λ n.
            (filed self.old.max_plans now self.old.plans message.now ≡ Ok self.new.plans)
            × (n ≡ length self.new.plans)) }
        ensures next { IfOk result (λ n. n ≡ length self.old.plans + 1) }
        ensures refused { IfErr result (λ e.
            IsRefusal e (filed self.old.max_plans now self.old.plans message.now)) }
        ensures memory { IfErr result (λ e. e ≡ PlanFault.OutOfMemory
            → IsOk (filed self.old.max_plans now self.old.plans message.now)) }
        ensures before { OnOk result (self.new.before ≡ Some self.old.plans) }
        ensures err { OnErr result (self.new.plans ≡ self.old.plans) }
        ensures kept { OnErr result (self.new.before ≡ self.old.before) }
        ensures limit { self.new.max_plans ≡ self.old.max_plans }
        ensures taxi { self.new.taxi ≡ self.old.taxi }
    {
        let off_block = match why_refused(
            self.plans.as_slice(),
            &self.chains,
            self.max_plans,
            message,
            now,
        ) {
            Ok(off_block) => off_block,
            Err(fault) => return Err(fault),
        };
        let Ok(plan) = Plan::new(self.alloc, message, off_block) else {
            return Err(PlanFault::OutOfMemory);
        };
        let Ok(()) = self.plans.append(&mut self.chains, plan) else {
            return Err(PlanFault::OutOfMemory);
        };
        self.last = LastChange::Filed;
        Ok(self.plans.len() as u32)
    }

    /// Returns the number of the plan that a message with these parts is about: the one filed plan
    /// with that identification, departure and destination, and with that day if the message has
    /// one.
    ///
    /// # Errors
    ///
    /// - `Ambiguous` if several such plans are filed.
    /// - `AlreadyDeparted` if none is filed and a departed plan matches, else `NoPlan`.
    pub fn find(&self, parts: &Parts) -> Result<u32, PlanFault>
        ensures value { Returns result (matching self.now.plans parts.now) }
        ensures within { IfOk result (λ n. (0 < n) × (n ≤ length self.now.plans)) }
    {
        matching(self.plans.as_slice(), &self.chains, parts)
    }

    /// Cancels the plan that a message is about, which frees its key, and returns its number.
    /// Doesn't allocate. After an `Err`, as of `find`, the store is unchanged.
    #[tactic(auto, unfolding(crate::specs::Changes::cancelled))]
    pub fn cancel(&mut self, message: &Cnl) -> Result<u32, PlanFault>
        ensures change { ChangesPlan result (cancelled self.old.plans message.now)
            self.old self.new }
        ensures memory { IfErr result (λ e. e ≢ PlanFault.OutOfMemory) }
    {
        let number = end_plan(
            &mut self.plans,
            &mut self.chains,
            &message.parts,
            PlanState::Cancelled,
        )?;
        self.last = LastChange::Ended { number };
        Ok(number)
    }

    /// Records the departure of the plan that a message is about, and returns its number. Doesn't
    /// allocate. After an `Err`, as of `find`, the store is unchanged.
    #[tactic(auto, unfolding(crate::specs::Changes::departed))]
    pub fn depart(&mut self, message: &Dep) -> Result<u32, PlanFault>
        ensures change { ChangesPlan result (departed self.old.plans message.now)
            self.old self.new }
        ensures memory { IfErr result (λ e. e ≢ PlanFault.OutOfMemory) }
    {
        let number = end_plan(
            &mut self.plans,
            &mut self.chains,
            &message.parts,
            PlanState::Departed,
        )?;
        self.last = LastChange::Ended { number };
        Ok(number)
    }

    /// Delays the plan that a message is about to the first time at its time of day after the
    /// off-block date and time held, and returns its number. Doesn't allocate.
    ///
    /// # Errors
    ///
    /// The store is unchanged. Of these the first that applies, after those of `find`:
    /// - `NotLater` for the same time of day.
    /// - `DelayTooLong` for more than 720 minutes.
    /// - `Past` for a time before the desk's, `TooEarly` for one more than 120 hours after it.
    pub fn delay(&mut self, message: &Dla, now: Minute) -> Result<u32, PlanFault>
        requires { IsDeskTime now }
        ensures change { ChangesPlan result (delayed now self.old.plans message.now)
            self.old self.new }
        ensures memory { IfErr result (λ e. e ≢ PlanFault.OutOfMemory) }
    {
        let (number, off_block) = delay_plan(&mut self.plans, &self.chains, message, now)?;
        self.last = LastChange::Delayed { number, off_block };
        Ok(number)
    }

    /// Amends the plan that a message is about, and returns its number: each amended field replaces
    /// the one held, all of them or none. An amended field 16 without a time keeps the elapsed time
    /// and the alternates. An amended field 13 moves the off-block date and time as a delay does.
    ///
    /// # Errors
    ///
    /// The store is unchanged. Of these the first that applies, after those of `find`:
    /// - `KeyChange` if field 13 has another departure, or field 18 a DOF item of another day.
    /// - The faults of a delay.
    /// - `AlreadyHeld` if another held plan has the new key.
    /// - `OutOfMemory` if an allocation fails.
    pub fn amend(&mut self, message: &Chg<A>, now: Minute) -> Result<u32, PlanFault>
        requires { IsDeskTime now }
        ensures change { ChangesPlan result (amended now self.old.plans message.now)
            self.old self.new }
        ensures memory { IfErr result (λ e. e ≡ PlanFault.OutOfMemory
            → IsOk (amended now self.old.plans message.now)) }
    {
        amend_plan(
            self.alloc,
            &mut self.plans,
            &mut self.chains,
            &mut self.last,
            message,
            now,
        )
    }

    /// Whether the last change can be undone: from an accepted change until the next one or until
    /// it is undone.
    pub fn can_take_back(&self) -> bool
        ensures { IsTrue result ↔ IsSome self.now.before }
    {
        match self.last {
            LastChange::Nothing => false,
            _ => true,
        }
    }

    /// Returns the state of plan `number` before the last change, and its off-block date and time
    /// then. `None` if it wasn't filed yet.
    pub fn previous(&self, number: u32) -> Option<Status>
        requires some { 0 < number }
        requires change { IsSome self.now.before }
        ensures { IfSome self.now.before (λ plans. result ≡ status_at plans number) }
    {
        previous(self.plans.as_slice(), &self.last, number)
    }

    /// Undoes the last change: the plans are as before it. Doesn't allocate.
    pub fn take_back(&mut self)
        requires { IsSome self.old.before }
        ensures plans { self.old.before ≡ Some self.new.plans }
        ensures before { self.new.before ≡ None }
        ensures limit { self.new.max_plans ≡ self.old.max_plans }
        ensures taxi { self.new.taxi ≡ self.old.taxi }
    {
        let last = mem::replace(&mut self.last, LastChange::Nothing);
        undo(&mut self.plans, &mut self.chains, last);
    }

    /// Returns the time of take-off of plan `number`: its off-block date and time plus the taxi
    /// time.
    pub fn take_off(&self, number: u32) -> Minute
        requires some { 0 < number }
        requires within { number ≤ length self.now.plans }
        ensures { IfSome (plan_at self.now.plans number) (λ plan.
            result ≡ take_off self.now.taxi plan) }
    {
        self.plans.as_slice()[(number - 1) as usize].take_off(self.taxi)
    }

    /// Returns the off-block date and time of plan `number`, if it is filed. Reads only its
    /// outline.
    #[inline(always)]
    pub fn filed_off_block(&self, number: u32) -> Option<Minute>
        requires { 0 < number }
        ensures { result ≡ filed_off_block self.now.plans number }
    {
        self.plans.filed_off_block(number)
    }

    /// Returns the time at which plan `number` enters a point: its take-off at the departure, and
    /// later by the elapsed times of fields 16 and 18 at the destination and at route points.
    /// `None` if the flight doesn't enter it.
    pub fn entry(&self, number: u32, spot: &Spot) -> Option<Minute>
        requires some { 0 < number }
        requires within { number ≤ length self.now.plans }
        ensures { IfSome (plan_at self.now.plans number) (λ plan.
            result ≡ entry_at self.now.taxi spot.now plan) }
    {
        self.plans.as_slice()[(number - 1) as usize].entry_at(self.taxi, spot)
    }

    /// Returns the entry of plan `number`, if a regulation of that point applies to it: one from
    /// `start` to before `end`, of a filed plan that is not flown by visual rules throughout, does
    /// not depart in the air (AFIL) and is not exempt.
    #[inline(always)]
    pub fn subject(&self, number: u32, spot: &Spot, start: Minute, end: Minute) -> Option<Minute>
        requires some { 0 < number }
        requires within { number ≤ length self.now.plans }
        ensures { IfSome (plan_at self.now.plans number)
            (λ plan. result ≡ subject self.now.taxi spot.now start end plan) }
    {
        self.plans.subject(number, self.taxi, spot, start, end)
    }

    /// Collects the flights to which a regulation of that point and period applies, by number, with
    /// their entries, and returns a time that none of their off-block times is before, in minutes
    /// from 1970-01-01 00:00 UTC. It mostly reads 24 bytes of each other plan. If allocation fails
    /// it collects none.
    pub fn coming_into(
        &self,
        spot: &Spot,
        start: Minute,
        end: Minute,
        coming: &mut Vec<Planned, A>,
    ) -> Result<u32, AllocError>
        ensures coming { OnOk result (coming.new.items
            ≡ coming_into self.now.taxi spot.now start end self.now.plans) }
        ensures first { IfOk result (λ first.
            NoneEarlier first self.now.plans coming.new.items) }
        ensures err { OnErr result (coming.new.items ≡ []) }
    {
        coming.clear();
        coming.reserve(self.plans.len())?;
        Ok(self.plans.note_coming(self.taxi, spot, start, end, coming))
    }

    /// Returns the bits in the table's rows of the points that the flight of plan `number` enters:
    /// wherever a regulation applies to it, at any time, the bits of that row are among them.
    pub fn near(&self, number: u32, table: &[u64]) -> u64
        requires some { 0 < number }
        requires within { number ≤ length self.now.plans }
        ensures { (start end : ℕ) (spot : Spot) → IfSome (plan_at self.now.plans number)
            (λ plan. IsSome (subject self.now.taxi spot start end plan)
            → HasBitsOf result (word_at table.now (table_row spot))) }
    {
        self.plans.as_slice()[(number - 1) as usize].near(table)
    }
}

/// Sets the state of the filed plan that a message is about. A cancelled plan is removed from the
/// chain of its flight.
#[tactic(auto, unfolding(crate::specs::Plans::changed_at))]
fn end_plan<A: Allocator + Copy>(
    plans: &mut PlanList<A>,
    chains: &mut Chains<A>,
    parts: &Parts,
    state: PlanState,
) -> Result<u32, PlanFault>
    requires few { length plans.old ≤ MAX_PLANS }
    requires chained { AreChained chains.old plans.old }
    ensures found { Returns result (matching plans.old parts.now) }
    ensures changed { IfOk result (λ n. plans.new ≡ changed_at (with_state state) n plans.old) }
    ensures within { IfOk result (λ n. (0 < n) × (n ≤ length plans.new)) }
    ensures back { IfOk result (λ n. changed_at (with_state PlanState.Filed) n plans.new
        ≡ plans.old) }
    ensures count { length plans.new ≡ length plans.old }
    ensures err { OnErr result (plans.new ≡ plans.old) }
    ensures chained { AreChained chains.new plans.new }
    ensures room { IfOk result (λ n.
        IfSome (plan_at plans.new n) (λ p. HasRoomFor chains.new (flight_of_key p.key))) }
    ensures kept { OnErr result (chains.new ≡ chains.old) }
{
    let number = matching(plans.as_slice(), chains, parts)?;
    if let PlanState::Cancelled = state {
        let name = FlightName::of_key(plans.as_slice()[(number - 1) as usize].key());
        chains.leave(&name, number);
    }
    plans.set_state(number, state);
    Ok(number)
}

/// Sets the off-block date and time of the plan that a delay is about, and returns its number and
/// the former one.
#[tactic(auto, unfolding(crate::specs::Changes::delayed, crate::specs::Plans::changed_at))]
fn delay_plan<A: Allocator + Copy>(
    plans: &mut PlanList<A>,
    chains: &Chains<A>,
    message: &Dla,
    now: Minute,
) -> Result<(u32, Minute), PlanFault>
    requires now { IsDeskTime now }
    requires few { length plans.old ≤ MAX_PLANS }
    requires chained { AreChained chains.now plans.old }
    ensures ok { IfOk result (λ r. delayed now plans.old message.now
        ≡ Ok (record { plans = plans.new; number = r.0 })) }
    ensures within { IfOk result (λ r. (0 < r.0) × (r.0 ≤ length plans.new)
        × (r.1 < off_blocks_end)) }
    ensures back { IfOk result (λ r. changed_at (with_off_block r.1) r.0 plans.new ≡ plans.old) }
    ensures refused { IfErr result (λ e. IsJustRefusal e (delayed now plans.old message.now)) }
    ensures count { length plans.new ≡ length plans.old }
    ensures err { OnErr result (plans.new ≡ plans.old) }
{
    let number = matching(plans.as_slice(), chains, &message.parts)?;
    let held = plans.as_slice()[(number - 1) as usize].off_block();
    let moment = delayed_to(now, held, message.time)?;
    plans.set_off_block(number, moment);
    Ok((number, held))
}

/// The off-block date and time of the plan that a message files, or why it is refused.
#[tactic(auto, unfolding(crate::specs::Changes::filed, crate::specs::Changes::plan_of))]
fn why_refused<A: Allocator + Copy>(
    plans: &[Plan<A>],
    chains: &Chains<A>,
    max_plans: u32,
    message: &Fpl<A>,
    now: Minute,
) -> Result<Minute, PlanFault>
    requires now { IsDeskTime now }
    requires chained { AreChained chains.now plans.now }
    ensures ok { IfOk result (λ moment. filed max_plans now plans.now message.now
        ≡ Ok (plans.now ++ plan_of moment message.now ∷ [])) }
    ensures room { OnOk result (length plans.now < max_plans) }
    ensures bound { IfOk result (λ moment. moment < off_blocks_end) }
    ensures refused { IfErr result (λ e.
        IsJustRefusal e (filed max_plans now plans.now message.now)) }
{
    let Some(off_block) = moment_of(message, now) else {
        return Err(PlanFault::TooEarly);
    };
    if off_block < now {
        return Err(PlanFault::Past);
    }
    if off_block.minutes() > now.minutes() + FURTHEST_AHEAD {
        return Err(PlanFault::TooEarly);
    }
    if holds_key(plans, chains, &key_of(message, off_block)) {
        return Err(PlanFault::AlreadyHeld);
    }
    if plans.len() >= max_plans as usize {
        return Err(PlanFault::PlansFull);
    }
    Ok(off_block)
}
