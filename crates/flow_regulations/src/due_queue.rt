//! The flights that aren't due yet, by off-block time. A flight is due two hours before it: its
//! slot is issued then, and kept from then on (ATFCM Users Manual, slot issue).

ghost use Rattle.std.specs.Prelude.{◌≡◌, ◌∷◌, [], ◌+◌, ◌<◌, ◌≤◌, ℕ, true, false, Some, OnOk};
ghost use Rattle.std.specs.Prelude.{IfSome, IfNone, map, length, vec_capacity, nat_le};
ghost use Rattle.std.specs.List.{All, AllByRecursion, Contains};
ghost use Rattle.std.specs.List.Sorted.{IsPermutation, IsStrictlyIncreasing};
ghost use Rattle.std.specs.BinaryHeap.{IsHeap, heap_items, heap_len, heap_capacity};
ghost use Rattle.std.specs.declared.cmp.Reverse.{Reverse};
ghost use Rattle.flow_plans.specs.Plans.{PlanView, plan_at};
ghost use Rattle.flow_regulations.specs.Awaiting.{Covers, awaits, BecameDue, AreHeld};
ghost use Rattle.flow_regulations.specs.Awaiting.{earlier_first};
ghost use Rattle.flow_regulations.specs.Listing.{HoldNewlyDue};
ghost use Rattle.flow_regulations.specs.declared.due_queue.TheConstants.{ISSUE_LEAD};
ghost use Rattle.flow_regulations.specs.Settling.{is_due};

use flow_plans::PlanStore;
use fpl_text::Minute;
use std::alloc::{AllocError, Allocator, Global};
use std::cmp::Reverse;
use std::collections::BinaryHeap;
use std::marker::Model;

/// A flight that isn't due yet, with the off-block time that its plan had when it was put in the
/// queue, in minutes since 1970-01-01 00:00 UTC.
#[derive(Clone, Copy, Debug, PartialEq, Eq, PartialOrd, Ord)]
pub struct PendingFlight {
    pub off_block: u32,
    pub number: u32,
}

/// The flights that aren't due yet, from which those that become due are taken (ATFCM Users Manual,
/// slot issue). It may hold flights whose plans have moved or ended since: these are dropped when
/// their turn comes.
#[derive(Drop)]
pub struct DueQueue<A: Allocator + Copy = Global> {
    heap: BinaryHeap<Reverse<PendingFlight>, A>,
}

impl<A: Allocator + Copy> Model for DueQueue<A> {
    ghost use Rattle.std.specs.Prelude.{◌<◌, map};
    ghost use Rattle.std.specs.List.{All};
    ghost use Rattle.std.specs.BinaryHeap.{IsHeap, heap_items, heap_capacity};
    ghost use Rattle.flow_regulations.specs.Awaiting.{DueQueueView, earlier_first};

    ghost Value = { DueQueueView };

    ghost view = { λ q. record {
      flights = map (λ x. x.0) (heap_items q.heap);
      room = heap_capacity q.heap;
    } };

    ghost invariant = { λ q. IsHeap earlier_first (heap_items q.heap)
        × All (λ x. 0 < x.0.number) (heap_items q.heap) };
}

impl<A: Allocator + Copy> DueQueue<A> {
    /// No flights.
    pub fn new(alloc: A) -> Self
        ensures { result.flights ≡ [] }
    {
        DueQueue {
            heap: BinaryHeap::new(alloc),
        }
    }

    /// The number of flights that were put in and not yet taken or dropped.
    pub fn count(&self) -> usize
        ensures value { result ≡ length self.now.flights }
        ensures fits { result ≤ self.now.room }
    {
        self.heap.len()
    }

    /// Reserves capacity for one more flight. Returns `Err` if allocation fails; the flights are
    /// unchanged.
    pub fn reserve(&mut self) -> Result<(), AllocError>
        ensures flights { self.new.flights ≡ self.old.flights }
        ensures room { self.old.room ≤ self.new.room }
        ensures ok { OnOk result (length self.new.flights < self.new.room) }
    {
        self.heap.reserve(1)
    }

    /// Puts in a flight with the off-block time of its plan, within the capacity.
    pub fn note(&mut self, number: u32, off_block: Minute)
        requires some { 0 < number }
        requires room { length self.old.flights < self.old.room }
        ensures flights { IsPermutation (record {
          off_block = off_block;
          number = number;
        } ∷ self.old.flights) self.new.flights }
        ensures room { self.old.room ≤ self.new.room }
    {
        let off_block = off_block.minutes();
        push_reserved(&mut self.heap, PendingFlight { off_block, number });
    }

    /// Takes out the flights that have become due from `earlier` to `now`, by rising number and
    /// none twice, into `due`, in place of what it holds. Drops those whose plan has moved or
    /// ended.
    pub fn take_due(
        &mut self,
        plans: &PlanStore<A>,
        earlier: Minute,
        now: Minute,
        due: &mut Vec<u32, A>,
    )
        requires { length self.old.flights ≤ vec_capacity due.old }
        ensures became { All (BecameDue earlier now plans.now.plans) due.new.items }
        ensures rising { IsStrictlyIncreasing due.new.items }
        ensures each { Covers earlier plans.now.plans self.old.flights
            → HoldNewlyDue earlier now plans.now.plans due.new.items }
        ensures covers { earlier ≤ now → Covers earlier plans.now.plans self.old.flights
            → Covers now plans.now.plans self.new.flights }
        ensures remaining { length self.new.flights + length due.new.items ≤ length
            self.old.flights }
        ensures fits { length self.new.flights + length due.new.items ≤ self.new.room }
        ensures room { self.new.room ≡ self.old.room }
        ensures capacity { vec_capacity due.new ≡ vec_capacity due.old }
    {
        due.clear();
        take_from(&mut self.heap, plans, earlier, now, due);
        due.sort_unstable();
        due.dedup();
    }

    /// Puts back the flights that were taken when they became due, for the time before that.
    /// Allocates nothing, since their capacity is still there.
    pub fn put_back(&mut self, plans: &PlanStore<A>, due: &[u32])
        requires some { All (λ n. 0 < n) due.now }
        requires room { length self.old.flights + length due.now ≤ self.old.room }
        ensures covers { (earlier now : ℕ) → HoldNewlyDue earlier now plans.now.plans due.now
            → Covers now plans.now.plans self.old.flights
            → Covers earlier plans.now.plans self.new.flights }
        ensures kept { (a : PendingFlight) → Contains self.old.flights a
            → Contains self.new.flights a }
        ensures few { length self.new.flights ≤ length self.old.flights + length due.now }
        ensures room { self.old.room ≤ self.new.room }
    {
        put_all(&mut self.heap, plans, due);
    }
}

/// Puts in a flight, within the capacity.
fn push_reserved<A: Allocator + Copy>(
    heap: &mut BinaryHeap<Reverse<PendingFlight>, A>,
    flight: PendingFlight,
)
    requires room { heap_len heap.old < heap_capacity heap.old }
    requires order { IsHeap earlier_first (heap_items heap.old) }
    requires some { 0 < flight.number }
    requires numbers { All (λ x. 0 < x.0.number) (heap_items heap.old) }
    ensures order { IsHeap earlier_first (heap_items heap.new) }
    ensures numbers { All (λ x. 0 < x.0.number) (heap_items heap.new) }
    ensures items { IsPermutation (record { 0 = flight } ∷ heap_items heap.old)
        (heap_items heap.new) }
    ensures len { heap_len heap.new ≡ heap_len heap.old + 1 }
    ensures capacity { heap_capacity heap.old ≤ heap_capacity heap.new }
{
    heap.push(Reverse(flight)).unwrap();
}

/// Takes out the flight of the earliest off-block time, if that is at most `limit`.
fn pop_until<A: Allocator + Copy>(
    heap: &mut BinaryHeap<Reverse<PendingFlight>, A>,
    limit: u32,
) -> Option<PendingFlight>
    requires { IsHeap earlier_first (heap_items heap.old) }
    ensures order { IsHeap earlier_first (heap_items heap.new) }
    ensures first { IfSome result
        (λ a. IsPermutation (heap_items heap.old) (record { 0 = a } ∷ heap_items heap.new)) }
    ensures within { IfSome result (λ a. a.off_block ≤ limit) }
    ensures len { IfSome result (λ a. heap_len heap.new + 1 ≡ heap_len heap.old) }
    ensures same { IfNone result (heap_items heap.new ≡ heap_items heap.old) }
    ensures same_len { IfNone result (heap_len heap.new ≡ heap_len heap.old) }
    ensures later { IfNone result
        (AllByRecursion (λ x. limit < x.0.off_block) (heap_items heap.new)) }
    ensures capacity { heap_capacity heap.new ≡ heap_capacity heap.old }
{
    let Reverse(first) = heap.peek()?;
    if first.off_block > limit {
        return None;
    }
    let Reverse(first) = heap.pop()?;
    Some(first)
}

/// Whether the plan of this flight is filed, still has this off-block time, and wasn't due earlier.
fn awaits<A: Allocator + Copy>(
    plans: &PlanStore<A>,
    flight: &PendingFlight,
    earlier: Minute,
) -> bool
    requires { 0 < flight.now.number }
    ensures { result ≡ awaits earlier plans.now.plans flight.now }
{
    let Some(moment) = plans.filed_off_block(flight.number) else {
        return false;
    };
    moment.minutes() == flight.off_block && !is_due_by(moment, earlier)
}

/// Takes out all flights whose off-block time is at most two hours after `now`, and appends those
/// that have become due.
fn take_from<A: Allocator + Copy>(
    heap: &mut BinaryHeap<Reverse<PendingFlight>, A>,
    plans: &PlanStore<A>,
    earlier: Minute,
    now: Minute,
    due: &mut Vec<u32, A>,
)
    requires order { IsHeap earlier_first (heap_items heap.old) }
    requires numbers { All (λ x. 0 < x.0.number) (heap_items heap.old) }
    requires empty { due.old.items ≡ [] }
    requires room { heap_len heap.old ≤ vec_capacity due.old }
    ensures order { IsHeap earlier_first (heap_items heap.new) }
    ensures numbers { All (λ x. 0 < x.0.number) (heap_items heap.new) }
    ensures became { All (BecameDue earlier now plans.now.plans) due.new.items }
    ensures taken { (x : Reverse PendingFlight) → Contains (heap_items heap.old) x
        → x.0.off_block ≤ now + ISSUE_LEAD
        → awaits earlier plans.now.plans x.0 ≡ true → Contains due.new.items x.0.number }
    ensures remaining { (x : Reverse PendingFlight) → Contains (heap_items heap.old) x
        → now + ISSUE_LEAD < x.0.off_block
        → Contains (heap_items heap.new) x }
    ensures fewer { heap_len heap.new + length due.new.items ≤ heap_len heap.old }
    ensures room { heap_capacity heap.new ≡ heap_capacity heap.old }
    ensures capacity { vec_capacity due.new ≡ vec_capacity due.old }
{
    let limit = due_until(now);
    while let Some(flight) = pop_until(heap, limit) {
        if awaits(plans, &flight, earlier) {
            due.push_reserved(flight.number);
        }
    }
}

/// Puts in flights with the off-block times of their plans, within the capacity.
fn put_all<A: Allocator + Copy>(
    heap: &mut BinaryHeap<Reverse<PendingFlight>, A>,
    plans: &PlanStore<A>,
    due: &[u32],
)
    requires order { IsHeap earlier_first (heap_items heap.old) }
    requires numbers { All (λ x. 0 < x.0.number) (heap_items heap.old) }
    requires some { All (λ n. 0 < n) due.now }
    requires room { heap_len heap.old + length due.now ≤ heap_capacity heap.old }
    ensures order { IsHeap earlier_first (heap_items heap.new) }
    ensures numbers { All (λ x. 0 < x.0.number) (heap_items heap.new) }
    ensures held { AreHeld plans.now.plans (length due.now) due.now (heap_items heap.new) }
    ensures kept { (x : Reverse PendingFlight) → Contains (heap_items heap.old) x
        → Contains (heap_items heap.new) x }
    ensures len { heap_len heap.new ≤ heap_len heap.old + length due.now }
    ensures capacity { heap_capacity heap.old ≤ heap_capacity heap.new }
{
    for number in due {
        put_plan(heap, plans, *number);
    }
}

/// Puts in a flight with the off-block time of its plan, within the capacity.
fn put_plan<A: Allocator + Copy>(
    heap: &mut BinaryHeap<Reverse<PendingFlight>, A>,
    plans: &PlanStore<A>,
    number: u32,
)
    requires order { IsHeap earlier_first (heap_items heap.old) }
    requires numbers { All (λ x. 0 < x.0.number) (heap_items heap.old) }
    requires some { 0 < number }
    requires room { heap_len heap.old < heap_capacity heap.old }
    ensures order { IsHeap earlier_first (heap_items heap.new) }
    ensures numbers { All (λ x. 0 < x.0.number) (heap_items heap.new) }
    ensures held { (p : PlanView) → plan_at plans.now.plans number ≡ Some p
        → Contains (heap_items heap.new)
        (record { 0 = record { off_block = p.off_block; number = number } }) }
    ensures kept { (x : Reverse PendingFlight) → Contains (heap_items heap.old) x
        → Contains (heap_items heap.new) x }
    ensures len { heap_len heap.new ≤ heap_len heap.old + 1 }
    ensures capacity { heap_capacity heap.old ≤ heap_capacity heap.new }
{
    let Some(plan) = plans.plan(number) else {
        return;
    };
    let off_block = plan.off_block().minutes();
    push_reserved(heap, PendingFlight { off_block, number });
}

/// How long before its off-block time a flight is due, in minutes.
pub const ISSUE_LEAD: u32 = 120;

/// The last off-block time of the flights that are due now, in minutes since 1970-01-01 00:00 UTC.
#[inline(always)]
pub(crate) fn due_until(now: Minute) -> u32
    ensures { result ≡ now + ISSUE_LEAD }
{
    now.minutes() + ISSUE_LEAD
}

/// Whether a flight of this off-block date and time is due: at most two hours before it.
#[inline(always)]
pub fn is_due_by(off_block: Minute, now: Minute) -> bool
    ensures { result ≡ nat_le off_block (now + ISSUE_LEAD) }
{
    is_due_from(off_block.minutes(), now)
}

/// The same of a time in minutes since 1970-01-01 00:00 UTC.
#[inline(always)]
pub(crate) fn is_due_from(off_block: u32, now: Minute) -> bool
    ensures { result ≡ nat_le off_block (now + ISSUE_LEAD) }
{
    off_block <= due_until(now)
}

/// Whether the flight of plan `number` is due: filed, and at most two hours before its off-block
/// time.
#[inline(always)]
pub(crate) fn is_due<A: Allocator + Copy>(plans: &PlanStore<A>, number: u32, now: Minute) -> bool
    requires { 0 < number }
    ensures { (p : PlanView) → plan_at plans.now.plans number ≡ Some p → result ≡ is_due now p }
{
    match plans.filed_off_block(number) {
        Some(off_block) => is_due_by(off_block, now),
        None => false,
    }
}
