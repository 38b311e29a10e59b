//! The amendments that a CHG makes to a plan.
ghost use Rattle.std.specs.Prelude.{◌≡◌, ◌≤◌, ◌<◌, Ok, true, IfOk, IfErr};
ghost use Rattle.std.specs.Prelude.{IfSome, length, option_copied, ◌+◌, ◌-◌};
ghost use Rattle.std.specs.Prelude.{Err, Some, None, IsOk, OnOk, OnErr};
ghost use Rattle.flow_plans.specs.Settings.{IsDeskTime};
ghost use Rattle.flow_plans.specs.Plans.{is_held, plan_at, changed_at};
ghost use Rattle.flow_plans.specs.Chains.{AreChained, flight_of_key, StayChained};
ghost use Rattle.flow_plans.specs.Changes.{moved_to, key_after, amended_plan};
ghost use Rattle.flow_plans.specs.Changes.{amended, Returns, IsRefusal};
ghost use Rattle.flow_plans.specs.Changes.{IsJustRefusal};
ghost use Rattle.flow_plans.specs.Matching.{matching};
ghost use Rattle.flow_plans.specs.Undoing.{undone, IsOf, CanReturn};
ghost use Rattle.flow_plans.specs.Times.{delayed_to, off_blocks_end};
ghost use Rattle.flow_plans.specs.declared.setup.TheConstants.{MAX_PLANS};

use crate::chains::{Chains, FlightName};
use crate::fault::PlanFault;
use crate::matching::{matching, others_hold_key};
use crate::plan::Plan;
use crate::plan_list::PlanList;
use crate::times::delayed_to;
use crate::undo::LastChange;
use fpl_message::Chg;
use fpl_text::{Departure, Minute};
use std::alloc::Allocator;

/// The off-block date and time, which an amended field 13 moves as a delay does.
fn moved_to(now: Minute, held: Minute, departure: Option<&Departure>) -> Result<Minute, PlanFault>
    requires now { IsDeskTime now }
    requires held { held < off_blocks_end }
    ensures answer { Returns result (moved_to now held (option_copied departure.entry)) }
    ensures bound { IfOk result (λ moment. moment < off_blocks_end) }
{
    match departure {
        Some(departure) => delayed_to(now, held, departure.time),
        None => Ok(held),
    }
}

/// The number of the plan that a message is about, with the name of its flight and the off-block
/// date and time after all amendments; or why the message is refused.
#[tactic(auto, unfolding(crate::specs::Changes::amended))]
fn checked<A: Allocator + Copy>(
    plans: &[Plan<A>],
    chains: &Chains<A>,
    message: &Chg<A>,
    now: Minute,
) -> Result<(u32, FlightName, Minute), PlanFault>
    requires now { IsDeskTime now }
    requires few { length plans.now ≤ MAX_PLANS }
    requires chained { AreChained chains.now plans.now }
    ensures ok { IfOk result (λ r. amended now plans.now message.now ≡ Ok (
        record { plans = changed_at (amended_plan r.2 message.now) r.0 plans.now; number = r.0 })) }
    ensures within { IfOk result (λ r. (0 < r.0) × (r.0 ≤ length plans.now)
        × (r.2 < off_blocks_end)) }
    ensures held { IfOk result (λ r. IfSome (plan_at plans.now r.0) (λ p. is_held p.state ≡ true)) }
    ensures named { IfOk result (λ r. IfSome (plan_at plans.now r.0)
        (λ p. flight_of_key (key_after p.key message.now) ≡ r.1)) }
    ensures refused { IfErr result (λ e. IsJustRefusal e (amended now plans.now message.now)) }
{
    let number = matching(plans, chains, message.parts())?;
    let plan = &plans[(number - 1) as usize];
    if plan.key().is_changed_by(message) {
        return Err(PlanFault::KeyChange);
    }
    let off_block = moved_to(now, plan.off_block(), message.departure())?;
    let key = plan.key().amended(message);
    let name = FlightName::of_key(&key);
    if others_hold_key(plans, chains, number, &name, &key) {
        return Err(PlanFault::AlreadyHeld);
    }
    Ok((number, name, off_block))
}

/// Amends the plan that a message is about, and returns its number. The amendment is the last
/// change then.
#[tactic(auto, unfolding(crate::specs::Changes::amended))]
pub(crate) fn amend_plan<A: Allocator + Copy>(
    alloc: A,
    plans: &mut PlanList<A>,
    chains: &mut Chains<A>,
    last: &mut LastChange<A>,
    message: &Chg<A>,
    now: Minute,
) -> Result<u32, PlanFault>
    requires now { IsDeskTime now }
    requires few { length plans.old ≤ MAX_PLANS }
    requires chained { AreChained chains.old plans.old }
    ensures ok { IfOk result (λ n. amended now plans.old message.now
        ≡ Ok (record { plans = plans.new; number = n })) }
    ensures within { IfOk result (λ n. (0 < n) × (n ≤ length plans.new)) }
    ensures before { OnOk result (undone plans.new last.new ≡ Some plans.old) }
    ensures change { OnOk result (IsOf last.new plans.new) }
    ensures room { OnOk result (CanReturn chains.new last.new plans.new) }
    ensures refused { IfErr result (λ e. IsRefusal e (amended now plans.old message.now)) }
    ensures memory { IfErr result (λ e. e ≡ PlanFault.OutOfMemory
        → IsOk (amended now plans.old message.now)) }
    ensures count { length plans.new ≡ length plans.old }
    ensures err { OnErr result (plans.new ≡ plans.old) }
    ensures last { OnErr result (last.new ≡ last.old) }
    ensures chained { AreChained chains.new plans.new }
    ensures kept { OnErr result (StayChained chains.old chains.new) }
{
    let (number, name, off_block) = checked(plans.as_slice(), chains, message, now)?;
    let Ok(texts) = plans.as_slice()[(number - 1) as usize].amended_texts(alloc, message) else {
        return Err(PlanFault::OutOfMemory);
    };
    // For the new name of the flight, and for its former one if the change is undone.
    let Ok(()) = chains.reserve(2) else {
        return Err(PlanFault::OutOfMemory);
    };
    chains.rename(plans.as_slice(), number, name);
    let former = plans.amend(number, message, off_block, texts);
    *last = LastChange::Amended { number, former };
    Ok(number)
}
