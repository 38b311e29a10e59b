//! Whether two desks have allocated the same.
ghost use Rattle.std.specs.Prelude.{◌≡◌, ◌↔◌, IsTrue, option_copied};
ghost use Rattle.std.specs.Option.{option_map};
ghost use Rattle.flow_traffic.specs.Same.{standing_of, standings, IsSame};

use crate::traffic::Traffic;
use flow_plans::{Plan, PlanStore};
use std::alloc::Allocator;

impl<A: Allocator + Copy> Traffic<A> {
    /// Whether both have allocated the same: the same notices were issued, the plans have the same
    /// states, off-block times and CTOTs by number, and the same regulations are open with the same
    /// slot lists, in the same order. Times, and what else the plans say, make a difference only if
    /// they do to these. Allocates nothing.
    pub fn same(&self, other: &Traffic<A>) -> bool
        ensures { IsTrue result ↔ IsSame self.now.traffic other.now.traffic }
    {
        self.notified.notices.as_slice() == other.notified.notices.as_slice()
            && self.notified.told.as_slice() == other.notified.told.as_slice()
            && stand_alike(&self.plans, &other.plans)
            && self.regulations.same(&other.regulations)
    }
}

/// Whether there are as many plans in both, and those of each number have the same state and
/// off-block time.
fn stand_alike<A: Allocator + Copy>(plans: &PlanStore<A>, others: &PlanStore<A>) -> bool
    ensures { IsTrue result ↔ (standings plans.now.plans ≡ standings others.now.plans) }
{
    if plans.count() != others.count() {
        return false;
    }
    for index in 0..plans.count() {
        if !stands_as(plans.plan(index + 1), others.plan(index + 1)) {
            return false;
        }
    }
    true
}

/// Whether two plans have the same state and off-block time.
fn stands_as<A: Allocator + Copy>(plan: Option<&Plan<A>>, other: Option<&Plan<A>>) -> bool
    ensures { IsTrue result
        ↔ (option_map standing_of (option_copied plan.entry)
        ≡ option_map standing_of (option_copied other.entry)) }
{
    match (plan, other) {
        (Some(plan), Some(other)) => {
            plan.state() == other.state() && plan.off_block() == other.off_block()
        }
        (None, None) => true,
        _ => false,
    }
}
