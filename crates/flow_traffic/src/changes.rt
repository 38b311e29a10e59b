//! Which plans the last reading changed.
ghost use Rattle.std.specs.Prelude.{◌≡◌, ◌≤◌, ◌<◌, IfSome, IsSome, false, length, map};
ghost use Rattle.std.specs.List.{All};
ghost use Rattle.std.specs.List.Sorted.{IsStrictlyIncreasing};
ghost use Rattle.flow_plans.specs.Plans.{status_at};
ghost use Rattle.flow_traffic.specs.Traffic.{told_of};
ghost use Rattle.flow_traffic.specs.Changes.{ChangeAtMost};

use crate::traffic::Traffic;
use crate::undo::Last;
use flow_plans::{PlanStore, Status};
use flow_regulations::Told;
use std::alloc::Allocator;

impl<A: Allocator + Copy> Traffic<A> {
    /// The numbers of the plans that the last reading may have changed, rising, and the CTOT issued
    /// to each of them before. All other plans have the same state, off-block time and CTOT last
    /// issued.
    pub fn changed(&self) -> (&[u32], &[Option<Told>])
        requires { IsSome self.now.before }
        ensures rising { IsStrictlyIncreasing result.0.now }
        ensures numbers { All (λ n. (0 < n) × (n ≤ length self.now.traffic.plans)) result.0.now }
        ensures others { IfSome self.now.before
            (λ before. ChangeAtMost result.0.now before self.now.traffic) }
        ensures each { length self.now.traffic.told ≡ length self.now.traffic.plans }
        ensures each_before { IfSome self.now.before
            (λ before. length before.told ≡ length before.plans) }
        ensures told { IfSome self.now.before
            (λ before. result.1.now ≡ map (told_of before.told) result.0.now) }
    {
        if !self.undoing.has_changed() {
            return (&[], &[]);
        }
        (self.undoing.changed(), self.undoing.noted())
    }

    /// The state and the off-block time of plan `number` before the last reading. `None` if it
    /// wasn't filed yet.
    pub fn previous(&self, number: u32) -> Option<Status>
        requires some { 0 < number }
        requires change { IsSome self.now.before }
        ensures { IfSome self.now.before (λ before. result ≡ status_at before.plans number) }
    {
        match self.undoing.which() {
            Last::Message { .. } => self.plans.previous(number),
            _ => status_at(&self.plans, number),
        }
    }

    /// Whether the last reading may have changed the state or the off-block time of a plan. Only a
    /// message may; after any other reading the plans are unchanged.
    pub fn may_have_moved_plans(&self) -> bool
        ensures { result ≡ false
            → IfSome self.now.before (λ before. before.plans ≡ self.now.traffic.plans) }
    {
        match self.undoing.which() {
            Last::Message { .. } => true,
            _ => false,
        }
    }
}

/// The state and the off-block time of plan `number`.
fn status_at<A: Allocator + Copy>(plans: &PlanStore<A>, number: u32) -> Option<Status>
    requires { 0 < number }
    ensures { result ≡ status_at plans.now.plans number }
{
    match plans.plan(number) {
        Some(plan) => Some(plan.status()),
        None => None,
    }
}
