//! What messages change.
ghost use Rattle.std.specs.Prelude.{◌≡◌, ◌≤◌, ◌<◌, ◌+◌, List, Ok, Some};
ghost use Rattle.std.specs.Prelude.{None, IfOk, IsErr, OnOk, OnErr, IfErr};
ghost use Rattle.std.specs.Prelude.{MatchOption, length, map, slice_get};
ghost use Rattle.std.specs.Prelude.{option_copied, vec_len, vec_capacity, ◌-◌};
ghost use Rattle.std.specs.Prelude.{◌&&◌, nat_lt, true, IfSome, IsSome};
ghost use Rattle.fpl_message.specs.Said.{said_message};
ghost use Rattle.fpl_message.specs.Reads.{msg};
ghost use Rattle.flow_plans.specs.Settings.{IsDeskTime};
ghost use Rattle.std.specs.List.{Contains};
ghost use Rattle.flow_plans.specs.Plans.{PlanView, is_filed, status_at};
ghost use Rattle.flow_plans.specs.Changes.{refusal_of, IsRefusal};
ghost use Rattle.flow_regulations.specs.Notices.{window_of};
ghost use Rattle.flow_regulations.specs.Awaiting.{Covers};
ghost use Rattle.flow_regulations.specs.declared.due_queue.PendingFlight.{PendingFlight};
ghost use Rattle.flow_regulations.specs.Listing.{IsListed, IsSettled, AreSameBut, without_in};
ghost use Rattle.flow_traffic.specs.Traffic.{told_of};
ghost use Rattle.flow_traffic.specs.State.{TrafficState};
ghost use Rattle.flow_traffic.specs.Asked.{plans_changed_by, verdict_on, is_departure};
ghost use Rattle.flow_traffic.specs.Answering.{AnswersReading};
ghost use Rattle.flow_traffic.specs.Answers.{told_to};
ghost use Rattle.flow_traffic.specs.Kept.{IsSettledFor};
ghost use Rattle.flow_regulations.specs.declared.due_queue.TheConstants.{ISSUE_LEAD};

use crate::notified::Notified;
use crate::traffic::Traffic;
use crate::undo::{Last, Undoing};
use crate::verdict::{Kind, Verdict};
use flow_plans::{Plan, PlanFault, PlanState, PlanStore};
use flow_regulations::{DueQueue, Regulations, Told, Window, is_due_by, window_of};
use fpl_message::{Message, Refusal};
use fpl_text::{Minute, TimeOfDay};
use std::alloc::{AllocError, Allocator};

impl<A: Allocator + Copy> Traffic<A> {
    /// Carries out a message, and returns the verdict on it. Returns `Err` if allocation fails.
    pub(crate) fn answer_message(&mut self, message: &Message<A>) -> Result<Verdict, AllocError>
        ensures { AnswersReading (msg (said_message message.now)) self.old self.new result }
    {
        self.undoing.begin();
        let Ok(()) = make_room(
            self.regulations.count(),
            &mut self.undoing,
            &mut self.queue,
            &mut self.notified,
        ) else {
            return Err(AllocError);
        };
        let now = self.time;
        let number = match change_plans(&mut self.plans, now, message) {
            Ok(number) => number,
            Err(fault) => {
                let verdict = refused(fault)?;
                self.undoing.finish(Last::Refused);
                return Ok(verdict);
            }
        };
        let count = self.plans.count();
        let verdict = verdict_on(&self.notified.told, message, number);
        let departs = is_departure(message);
        self.undoing.note(number, &self.regulations);
        settle_for(&mut self.regulations, &self.plans, number, departs, now);
        note_flight(&mut self.queue, &self.plans, number, now);
        make_place(count, &mut self.notified.told);
        self.undoing
            .tell(&self.regulations, &self.plans, &mut self.notified);
        self.undoing.finish(Last::Message { number });
        Ok(verdict)
    }
}

/// Reserves capacity for what a message adds: to the CTOTs issued, to the notices and to the queue,
/// and to what undoes the message with `regulations` open regulations.
fn make_room<A: Allocator + Copy>(
    regulations: usize,
    undoing: &mut Undoing<A>,
    queue: &mut DueQueue<A>,
    notified: &mut Notified<A>,
) -> Result<(), AllocError>
    ensures undoing { undoing.new ≡ record undoing.old { room = undoing.new.room } }
    ensures told { notified.new.told.items ≡ notified.old.told.items }
    ensures notices { notified.new.notices.items ≡ notified.old.notices.items }
    ensures flights { queue.new.flights ≡ queue.old.flights }
    ensures told_room { OnOk result (vec_len notified.new.told < vec_capacity notified.new.told) }
    ensures notices_room { OnOk result
        (vec_len notified.new.notices < vec_capacity notified.new.notices) }
    ensures queue_room { OnOk result (length queue.new.flights < queue.new.room) }
    ensures places_room { OnOk result (regulations ≤ undoing.new.room.places) }
    ensures changed_room { OnOk result (1 ≤ undoing.new.room.numbers) }
    ensures noted_room { OnOk result (1 ≤ undoing.new.room.told) }
{
    notified.told.reserve(1)?;
    queue.reserve()?;
    undoing.make_room(regulations, 1)?;
    undoing.make_room_to_tell(1, &mut notified.notices)
}

/// Changes the plans as a message asks, and returns the number of the plan that it is about.
#[tactic(auto, unfolding(crate::specs::Asked::plans_changed_by))]
fn change_plans<A: Allocator + Copy>(
    plans: &mut PlanStore<A>,
    now: Minute,
    message: &Message<A>,
) -> Result<u32, PlanFault>
    requires { IsDeskTime now }
    ensures ok { IfOk result (λ n.
        plans_changed_by plans.old.max_plans now plans.old.plans (said_message message.now)
        ≡ Ok (record { plans = plans.new.plans; number = n })) }
    ensures some { IfOk result (λ n. 0 < n) }
    ensures within { IfOk result (λ n. n ≤ length plans.new.plans) }
    ensures same { IfOk result (λ n. AreSameBut n plans.old.plans plans.new.plans) }
    ensures one { length plans.old.plans ≤ length plans.new.plans }
    ensures more { length plans.new.plans ≤ length plans.old.plans + 1 }
    ensures last { IfOk result
        (λ n. length plans.old.plans < length plans.new.plans → n ≡ length plans.new.plans) }
    ensures before { OnOk result (plans.new.before ≡ Some plans.old.plans) }
    ensures refused { IfErr result (λ e.
        IsRefusal e (plans_changed_by plans.old.max_plans now plans.old.plans
        (said_message message.now))) }
    ensures err { OnErr result (plans.new.plans ≡ plans.old.plans) }
    ensures limit { plans.new.max_plans ≡ plans.old.max_plans }
    ensures taxi { plans.new.taxi ≡ plans.old.taxi }
{
    match message {
        Message::Fpl(flight_plan) => plans.file(flight_plan, now),
        Message::Dla(delay) => plans.delay(delay, now),
        Message::Chg(modification) => plans.amend(modification, now),
        Message::Cnl(cancellation) => plans.cancel(cancellation),
        Message::Dep(departure) => plans.depart(departure),
    }
}

/// The verdict on an accepted message about plan `number`. A departure is compared with the CTOT
/// last issued to the plan.
#[tactic(auto, unfolding(crate::specs::Asked::verdict_on))]
fn verdict_on<A: Allocator + Copy>(
    told: &[Option<Told>],
    message: &Message<A>,
    number: u32,
) -> Verdict
    requires { 0 < number }
    ensures { result ≡ verdict_on told.now (said_message message.now) number }
{
    let kind = match message {
        Message::Fpl(_) => Kind::Fpl,
        Message::Dla(_) => Kind::Dla,
        Message::Chg(_) => Kind::Chg,
        Message::Cnl(_) => Kind::Cnl,
        Message::Dep(departure) => {
            return Verdict::Departed {
                plan: number,
                window: departure_window(told, number, departure.time),
            };
        }
    };
    Verdict::Accepted { kind, plan: number }
}

/// The slot tolerance window in which a departure of plan `number` is, by the CTOT last issued to
/// it.
fn departure_window(told: &[Option<Told>], number: u32, time: TimeOfDay) -> Window
    requires { 0 < number }
    ensures { result ≡ window_of (told_of told.now number) time }
{
    match told_at(told, number) {
        Some(told) => window_of(told.as_ref(), time),
        None => Window::None,
    }
}

/// The CTOT last issued to plan `number`. `None` if there is no such plan.
fn told_at(told: &[Option<Told>], number: u32) -> Option<&Option<Told>>
    requires { 0 < number }
    ensures { option_copied result ≡ slice_get told.now (number - 1) }
{
    told.get((number - 1) as usize)
}

#[tactic(auto, unfolding(crate::specs::Asked::is_departure))]
fn is_departure<A: Allocator + Copy>(message: &Message<A>) -> bool
    ensures { result ≡ is_departure (said_message message.now) }
{
    matches!(message, Message::Dep(_))
}

/// Allocates the regulations by the rules after a message about plan `number`, which departs if
/// `departs`.
fn settle_for<A: Allocator + Copy>(
    regulations: &mut Regulations<A>,
    plans: &PlanStore<A>,
    number: u32,
    departs: bool,
    now: Minute,
)
    requires some { 0 < number }
    requires within { number ≤ length plans.now.plans }
    requires room { number ≤ regulations.old.max_plans }
    ensures limit { regulations.new.max_plans ≡ regulations.old.max_plans }
    ensures alone { map (without_in number) regulations.new.lists
        ≡ map (without_in number) regulations.old.lists }
    ensures settled { (s : TrafficState) → s.time ≡ now → s.store.taxi ≡ plans.now.taxi
        → s.listing ≡ regulations.old
        → IsListed s.store.taxi s.listing.max_plans s.store.plans s.listing.lists
        → IsSettled s.store.taxi s.time s.store.plans s.listing.lists
        → AreSameBut number s.store.plans plans.now.plans
        → IsSettledFor departs number s plans.now.plans regulations.new.lists }
{
    if departs {
        regulations.freeze_departing(number);
    }
    regulations.reallocate(plans, number, now);
}

/// Whether a plan is filed and its flight isn't due.
fn awaits<A: Allocator + Copy>(plan: &Plan<A>, now: Minute) -> bool
    ensures { result ≡ (is_filed plan.now.state && nat_lt (now + ISSUE_LEAD) plan.now.off_block) }
{
    matches!(plan.state(), PlanState::Filed) && !is_due_by(plan.off_block(), now)
}

/// Whether plan `number` was filed before the last message, too, with this off-block time.
fn was_filed<A: Allocator + Copy>(plans: &PlanStore<A>, number: u32, off_block: Minute) -> bool
    requires some { 0 < number }
    requires change { IsSome plans.now.before }
    ensures { result ≡ true → IfSome plans.now.before (λ before.
        status_at before number
        ≡ Some (record { state = PlanState.Filed; off_block = off_block })) }
{
    match plans.previous(number) {
        Some(before) => {
            matches!(before.state, PlanState::Filed) && before.off_block == off_block
        }
        None => false,
    }
}

/// Puts the flight of plan `number` in the queue if it is filed and isn't due. If the last message
/// left its off-block time unchanged, it is there already.
fn note_flight<A: Allocator + Copy>(
    queue: &mut DueQueue<A>,
    plans: &PlanStore<A>,
    number: u32,
    now: Minute,
)
    requires some { 0 < number }
    requires change { IsSome plans.now.before }
    requires room { length queue.old.flights < queue.old.room }
    ensures covers { (before : List PlanView) → plans.now.before ≡ Some before
        → AreSameBut number before plans.now.plans
        → Covers now before queue.old.flights → Covers now plans.now.plans queue.new.flights }
    ensures kept { (a : PendingFlight) → Contains queue.old.flights a
        → Contains queue.new.flights a }
{
    let Some(plan) = plans.plan(number) else {
        return;
    };
    let off_block = plan.off_block();
    if !awaits(plan, now) || was_filed(plans, number, off_block) {
        return;
    }
    queue.note(number, off_block);
}

/// Appends an entry for a new plan, to which no CTOT was issued yet.
fn make_place<A: Allocator>(count: u32, told: &mut Vec<Option<Told>, A>)
    requires one { count ≤ length told.old.items + 1 }
    requires all { length told.old.items ≤ count }
    requires room { vec_len told.old < vec_capacity told.old }
    ensures told { (plans : List PlanView) → length plans ≡ count
        → told.new.items ≡ told_to plans told.old.items }
    ensures each { length told.new.items ≡ count }
{
    if told.len() < count as usize {
        told.push_reserved(None);
    }
}

/// The verdict on a message that the plans refuse. An allocation failure is an `Err`.
fn refused(fault: PlanFault) -> Result<Verdict, AllocError>
    ensures { MatchOption (refusal_of fault) (IsErr result) (λ r. result ≡ Ok (Verdict.Refused r)) }
{
    let refusal = match fault {
        PlanFault::AlreadyHeld => Refusal::AlreadyHeld,
        PlanFault::NoPlan => Refusal::NoPlan,
        PlanFault::Ambiguous => Refusal::Ambiguous,
        PlanFault::AlreadyDeparted => Refusal::AlreadyDeparted,
        PlanFault::KeyChange => Refusal::KeyChange,
        PlanFault::NotLater => Refusal::NotLater,
        PlanFault::DelayTooLong => Refusal::DelayTooLong,
        PlanFault::Past => Refusal::Past,
        PlanFault::TooEarly => Refusal::TooEarly,
        PlanFault::PlansFull => Refusal::PlansFull,
        PlanFault::OutOfMemory => return Err(AllocError),
    };
    Ok(Verdict::Refused(refusal))
}
