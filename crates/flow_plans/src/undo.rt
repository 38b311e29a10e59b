//! Undoes the last change of a store.
ghost use Rattle.std.specs.Prelude.{◌≡◌, ◌≤◌, ◌<◌, ◌+◌, ◌-◌, Some, None, IfSome, IsSome, length};
ghost use Rattle.flow_plans.specs.Undoing.{undone, IsOf, CanReturn};
ghost use Rattle.flow_plans.specs.Chains.{flight_of_key, AreChained, HasRoomFor};
ghost use Rattle.flow_plans.specs.Plans.{is_held, plan_at, status_at, changed_at, with_state};
ghost use Rattle.flow_plans.specs.declared.setup.TheConstants.{MAX_PLANS};

use crate::chains::{Chains, FlightName};
use crate::plan::{Plan, PlanState, PreviousValues, Status};
use crate::plan_list::PlanList;
use fpl_text::Minute;
use std::alloc::{Allocator, Global};

/// The last accepted change, with what it replaced.
#[derive(Drop)]
pub(crate) enum LastChange<A: Allocator + Copy = Global> {
    /// None, or it was undone.
    Nothing,
    /// The last plan was filed.
    Filed,
    /// The off-block date and time of plan `number` was this.
    Delayed {
        number: u32,
        off_block: Minute,
    },
    /// Plan `number` was filed, and is now cancelled or departed.
    Ended {
        number: u32,
    },
    /// Plan `number` had these values before.
    Amended {
        number: u32,
        former: PreviousValues<A>,
    },
}

/// Undoes the last change of these plans. Doesn't allocate.
#[tactic(auto, unfolding(crate::specs::Plans::changed_at))]
pub(crate) fn undo<A: Allocator + Copy>(
    plans: &mut PlanList<A>,
    chains: &mut Chains<A>,
    last: LastChange<A>,
)
    requires change { IsSome (undone plans.old last) }
    requires number { IsOf last plans.old }
    requires few { length plans.old ≤ MAX_PLANS }
    requires chained { AreChained chains.old plans.old }
    requires room { CanReturn chains.old last plans.old }
    ensures undone { undone plans.old last ≡ Some plans.new }
    ensures count { length plans.new ≤ length plans.old }
    ensures chained { AreChained chains.new plans.new }
{
    match last {
        LastChange::Nothing => {}
        LastChange::Filed => {
            chains.pop(plans.as_slice());
            plans.pop();
        }
        LastChange::Delayed { number, off_block } => {
            plans.set_off_block(number, off_block);
        }
        LastChange::Ended { number } => {
            file_again(plans, chains, number);
        }
        LastChange::Amended { number, former } => {
            let name = FlightName::of_key(former.key());
            chains.rename(plans.as_slice(), number, name);
            plans.restore(number, former);
        }
    }
}

/// Makes plan `number` filed again, and inserts it into the chain of its flight if it is in none.
/// Doesn't allocate.
fn file_again<A: Allocator + Copy>(plans: &mut PlanList<A>, chains: &mut Chains<A>, number: u32)
    requires number { (0 < number) × (number ≤ length plans.old) }
    requires room { IfSome (plan_at plans.old number) (λ p.
        HasRoomFor chains.old (flight_of_key p.key)) }
    requires chained { AreChained chains.old plans.old }
    ensures changed { plans.new ≡ changed_at (with_state PlanState.Filed) number plans.old }
    ensures chained { AreChained chains.new plans.new }
{
    let held = plans.as_slice()[(number - 1) as usize].is_held();
    let name = FlightName::of_key(plans.as_slice()[(number - 1) as usize].key());
    plans.set_state(number, PlanState::Filed);
    if !held {
        chains.join(name, number);
    }
}

/// The state of plan `number`; `None` if there is no such plan.
fn status_at<A: Allocator + Copy>(plans: &[Plan<A>], number: u32) -> Option<Status>
    requires { 0 < number }
    ensures { result ≡ status_at plans.now number }
{
    match plans.get((number - 1) as usize) {
        Some(plan) => Some(plan.status()),
        None => None,
    }
}

/// The state of plan `number` before the last change of these plans.
pub(crate) fn previous<A: Allocator + Copy>(
    plans: &[Plan<A>],
    last: &LastChange<A>,
    number: u32,
) -> Option<Status>
    requires some { 0 < number }
    requires within { IsOf last.now plans.now }
    ensures { IfSome (undone plans.now last.now) (λ before. result ≡ status_at before number) }
{
    let place = (number - 1) as usize;
    match last {
        LastChange::Nothing => None,
        LastChange::Filed if place + 1 >= plans.len() => None,
        LastChange::Delayed {
            number: delayed,
            off_block,
        } if number == *delayed => Some(Status {
            state: plans[place].state(),
            off_block: *off_block,
        }),
        LastChange::Ended { number: ended } if number == *ended => Some(Status {
            state: PlanState::Filed,
            off_block: plans[place].off_block(),
        }),
        LastChange::Amended {
            number: amended,
            former,
        } if number == *amended => Some(Status {
            state: plans[place].state(),
            off_block: former.off_block(),
        }),
        _ => status_at(plans, number),
    }
}
