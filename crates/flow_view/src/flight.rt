//! A flight as it enters a point.
ghost use Rattle.std.specs.Prelude.{◌≡◌, ◌≤◌, ◌<◌, ◌-◌, slice_get};
ghost use Rattle.std.specs.Option.{option_map_or};
ghost use Rattle.flow_core.specs.Changes.{rows_at};
ghost use Rattle.flow_core.specs.History.{state_of};
ghost use Rattle.flow_view.specs.Shown.{shown_flight, shown_flight_at};
ghost use Rattle.flow_plans.specs.declared.setup.TheConstants.{MAX_TAXI};

use flow_core::{Core, Told};
use flow_plans::{Plan, PlanState};
use fpl_message::Spot;
use fpl_text::{Minute, Text};
use std::alloc::Allocator;

/// A flight as it enters an aerodrome or route point, by its plan.
#[derive(Clone, Copy)]
pub struct Flight {
    pub ident: Text<7>,
    pub dep: Text<4>,
    pub dest: Text<4>,
    pub off_block: Minute,
    pub state: PlanState,
    /// The planned time of entry at the point. `None` if the flight isn't planned over it.
    pub entry: Option<Minute>,
    /// The CTOT last issued to the plan, with the regulation that causes it.
    pub told: Option<Told>,
}

/// The flight of a plan, with the CTOT last issued to it.
fn flight_of<A: Allocator + Copy>(
    plan: &Plan<A>,
    taxi: u32,
    spot: &Spot,
    told: Option<Told>,
) -> Flight
    requires { taxi ≤ MAX_TAXI }
    ensures { result ≡ shown_flight taxi spot.now plan.now told }
{
    let key = plan.key();
    Flight {
        ident: key.ident,
        dep: key.dep,
        dest: key.dest,
        off_block: plan.off_block(),
        state: plan.state(),
        entry: plan.entry_at(taxi, spot),
        told,
    }
}

/// The CTOT last issued to plan `number`.
fn told_of<A: Allocator + Copy>(core: &Core<A>, number: u32) -> Option<Told>
    requires { 0 < number }
    ensures { result ≡ option_map_or (λ r. r.told)
        (slice_get (rows_at core.now) (number - 1)) None }
{
    match core.row(number) {
        Some(row) => row.told,
        None => None,
    }
}

/// The flight of plan `number`, counted from 1. `None` if there is no such plan.
pub(crate) fn flight_at<A: Allocator + Copy>(
    core: &Core<A>,
    spot: &Spot,
    number: u32,
) -> Option<Flight>
    requires { 0 < number }
    ensures { result ≡ shown_flight_at core.now.setup.taxi (state_of core.now).traffic spot.now
        number }
{
    let Some(plan) = core.plan(number) else {
        return None;
    };
    Some(flight_of(plan, core.setup().taxi(), spot, told_of(core, number)))
}
