//! What readers of a desk see of a plan.
ghost use Rattle.std.specs.Prelude.{◌≡◌, ◌<◌, ◌-◌, slice_get};
ghost use Rattle.flow_core.specs.State.{row_of, rows_of};

use flow_plans::{Plan, PlanState};
use flow_regulations::Told;
use flow_traffic::Traffic;
use fpl_text::Minute;
use std::alloc::Allocator;

/// A plan's state, its off-block date and time, and the CTOT last issued.
#[derive(Clone, Copy, Debug, PartialEq, Eq)]
pub struct Row {
    pub state: PlanState,
    pub off_block: Minute,
    pub told: Option<Told>,
}

fn row_of<A: Allocator + Copy>(plan: &Plan<A>, told: &Option<Told>) -> Row
    ensures { result ≡ row_of plan.now told.now }
{
    Row {
        state: plan.state(),
        off_block: plan.off_block(),
        told: *told,
    }
}

/// The row of plan `number`; `None` if there is no such plan.
pub(crate) fn row_at<A: Allocator + Copy>(traffic: &Traffic<A>, number: u32) -> Option<Row>
    requires { 0 < number }
    ensures { result ≡ slice_get (rows_of traffic.now.traffic.plans traffic.now.traffic.told)
        (number - 1) }
{
    let Some(plan) = traffic.plan(number) else {
        return None;
    };
    let Some(told) = traffic.told(number) else {
        return None;
    };
    Some(row_of(plan, told))
}
