//! Issues slots to plans, each by the most penalising regulation of its flight.

ghost use Rattle.std.specs.Prelude.{◌≡◌, ◌+◌, ◌++◌, ◌<◌, ◌≤◌, length, map, vec_capacity};
ghost use Rattle.std.specs.Prelude.{IfSome, ◌-◌};
ghost use Rattle.std.specs.List.{All};
ghost use Rattle.std.specs.List.Sorted.{IsNonDecreasing};
ghost use Rattle.flow_plans.specs.Plans.{plan_at};
ghost use Rattle.flow_regulations.specs.Advice.{advice, delay_in, caused_by, worse};
ghost use Rattle.flow_regulations.specs.Listing.{regulation_of};
ghost use Rattle.flow_regulations.specs.Marks.{AreMarked, IsMarked};
ghost use Rattle.flow_regulations.specs.Notices.{says, notice_of, notices_to, notices_from};
ghost use Rattle.flow_regulations.specs.Notices.{told_then, told_to_plan, told_from};
ghost use Rattle.flow_regulations.specs.Quiet.{AreQuietBut, AllQuiet};
ghost use Rattle.std.specs.Option.{option_map};
ghost use Rattle.flow_plans.specs.Entries.{take_off};
ghost use Rattle.flow_slots.specs.Period.{slot_time};
ghost use Rattle.flow_slots.specs.Lineup.{fixed_slot};
ghost use Rattle.fpl_text.specs.declared.minute.TheConstants.{GREATEST_MINUTE};

use crate::held_marks::{HeldMarks, next_marked};
use crate::notice::{Notice, Said, Told};
use crate::regulation::{Regulation, has_departed};
use flow_plans::{Plan, PlanStore};
use flow_slots::SlotList;
use fpl_text::{Minute, Text};
use std::alloc::Allocator;

/// What a notice says to a plan with this CTOT last issued and this advice: SAM if none was issued,
/// SRM if the time is another, SLC if there is none any more. `None` if nothing is to be said.
pub(crate) fn says(told: &Option<Told>, advice: &Option<Told>) -> Option<Said>
    ensures { result ≡ says told.now advice.now }
{
    match (told, advice) {
        (None, None) => None,
        (None, Some(new)) => Some(Said::Sam(*new)),
        (Some(_), None) => Some(Said::Slc),
        (Some(old), Some(new)) => {
            if old.ctot == new.ctot {
                None
            } else {
                Some(Said::Srm(*new))
            }
        }
    }
}

fn notice_to<A: Allocator + Copy>(plan: &Plan<A>, says: Said) -> Notice
    ensures { result ≡ record {
      ident = plan.now.key.ident;
      dep = plan.now.key.dep;
      dest = plan.now.key.dest;
      off_block = plan.now.off_block;
      says = says;
    } }
{
    let key = plan.key();
    Notice {
        ident: key.ident,
        dep: key.dep,
        dest: key.dest,
        off_block: plan.off_block(),
        says,
    }
}

/// Issues a plan that hasn't departed its advice, with a notice if that has another CTOT than was
/// last issued to the plan.
fn tell_plan<A: Allocator + Copy>(
    plan: &Plan<A>,
    advice: Option<Told>,
    told: &mut Option<Told>,
    notices: &mut Vec<Notice, A>,
)
    requires { length notices.old.items < vec_capacity notices.old }
    ensures told { told.new ≡ told_then told.old advice }
    ensures notices { notices.new.items
        ≡ notices.old.items ++ notice_of plan.now (says told.old advice) }
    ensures few { length notices.new.items ≤ length notices.old.items + 1 }
    ensures capacity { vec_capacity notices.new ≡ vec_capacity notices.old }
{
    // Few plans get a notice, and only their plans are read.
    let Some(said) = says(told, &advice) else {
        return;
    };
    notices.push_reserved(notice_to(plan, said));
    *told = advice;
}

/// Issues plan `number` its advice. A departed plan is issued nothing more.
fn tell_number<A: Allocator + Copy>(
    regulations: &[Regulation<A>],
    marks: &HeldMarks<A>,
    plans: &PlanStore<A>,
    number: u32,
    told: &mut Option<Told>,
    notices: &mut Vec<Notice, A>,
)
    requires some { 0 < number }
    requires within { number ≤ length plans.now.plans }
    requires room { length notices.old.items < vec_capacity notices.old }
    requires marked { AreMarked marks.now regulations.now }
    ensures told { IfSome (plan_at plans.now.plans number) (λ p. told.new
        ≡ told_to_plan p told.old
        (advice plans.now.taxi number p (map regulation_of regulations.now))) }
    ensures notices { IfSome (plan_at plans.now.plans number) (λ p. notices.new.items
        ≡ notices.old.items ++ notices_to p told.old
        (advice plans.now.taxi number p (map regulation_of regulations.now))) }
    ensures few { length notices.new.items ≤ length notices.old.items + 1 }
    ensures capacity { vec_capacity notices.new ≡ vec_capacity notices.old }
{
    if has_departed(plans, number) {
        return;
    }
    if let Some(plan) = plans.plan(number) {
        let advice = advice_of(regulations, plans, number, marks.of(number));
        tell_plan(plan, advice, told, notices);
    }
}

/// Compares the advice of these plans with the CTOT last issued to each, by plan number, and
/// appends a notice if the time is another: a slot allocation message (SAM), its revision (SRM) or
/// its cancellation (SLC). The advice is then the CTOT last issued.
///
/// The numbers of the plans rise, and include each plan whose advice may have another CTOT than was
/// last issued to it; the caller has reserved capacity for as many notices. No notice is pending
/// afterwards. `marks` say which regulations may hold flights.
pub(crate) fn tell<A: Allocator + Copy>(
    regulations: &[Regulation<A>],
    marks: &HeldMarks<A>,
    plans: &PlanStore<A>,
    changed: &[u32],
    told: &mut Vec<Option<Told>, A>,
    notices: &mut Vec<Notice, A>,
)
    requires each { length told.old.items ≡ length plans.now.plans }
    requires rising { IsNonDecreasing changed.now }
    requires numbers { All (λ n. (0 < n) × (n ≤ length plans.now.plans)) changed.now }
    requires room { length notices.old.items + length changed.now ≤ vec_capacity notices.old }
    requires quiet { AreQuietBut changed.now plans.now.taxi
        (map regulation_of regulations.now) plans.now.plans told.old.items }
    requires marked { AreMarked marks.now regulations.now }
    ensures told { told.new.items
        ≡ told_from 1 plans.now.taxi
        (map regulation_of regulations.now) plans.now.plans told.old.items }
    ensures notices { notices.new.items
        ≡ notices.old.items ++ notices_from 1 plans.now.taxi
        (map regulation_of regulations.now) plans.now.plans told.old.items }
    ensures quiet { AllQuiet plans.now.taxi
        (map regulation_of regulations.now) plans.now.plans told.new.items }
    ensures each { length told.new.items ≡ length plans.now.plans }
    ensures few { length notices.new.items ≤ length notices.old.items + length changed.now }
    ensures capacity { vec_capacity notices.new ≡ vec_capacity notices.old }
{
    for number in changed {
        let place = (*number - 1) as usize;
        tell_number(
            regulations,
            marks,
            plans,
            *number,
            &mut told[place],
            notices,
        );
    }
}

/// A delay in minutes, and the regulation that causes it.
#[derive(Drop)]
pub(crate) struct Delay {
    pub(crate) minutes: u32,
    pub(crate) regulation: Text<8>,
}

/// The time of a flight's frozen slot.
fn fixed_moment<A: Allocator + Copy>(list: &SlotList<A>, flight: u32) -> Option<Minute>
    ensures { result ≡ option_map (slot_time list.now.lineup.period)
        (fixed_slot list.now.lineup flight) }
{
    if !list.is_fixed(flight) {
        return None;
    }
    let slot = list.slot_of(flight)?;
    Some(list.shape().slot_time(slot))
}

/// The delay that a flight's frozen slot gives in a regulation: the time of the slot less the
/// entry.
fn delay_in<A: Allocator + Copy>(
    regulation: &Regulation<A>,
    plans: &PlanStore<A>,
    number: u32,
) -> Option<Delay>
    requires some { 0 < number }
    requires within { number ≤ length plans.now.plans }
    ensures value { IfSome (plan_at plans.now.plans number)
        (λ p. result ≡ option_map (caused_by (regulation_of regulation.now))
        (delay_in plans.now.taxi number p (regulation_of regulation.now))) }
    ensures bound { IfSome (plan_at plans.now.plans number)
        (λ p. IfSome result (λ d. take_off plans.now.taxi p + d.minutes ≤ GREATEST_MINUTE)) }
{
    let slot = fixed_moment(&regulation.list, number)?;
    let entry = plans.entry(number, &regulation.spot)?;
    Some(Delay {
        minutes: slot.minutes().saturating_sub(entry.minutes()),
        regulation: regulation.id,
    })
}

/// The greater delay, the first of equal ones.
pub(crate) fn worse(first: Option<Delay>, later: Option<Delay>) -> Option<Delay>
    ensures { result ≡ worse first later }
{
    match (first, later) {
        (None, later) => later,
        (Some(delay), None) => Some(delay),
        (Some(delay), Some(other)) => {
            if delay.minutes < other.minutes {
                Some(other)
            } else {
                Some(delay)
            }
        }
    }
}

/// The slot that the flight of plan `number` is to be issued: its take-off delayed by the most
/// penalising of the regulations in which it has a frozen slot, of equal ones by the one opened
/// first, and the name of that one. `None` if it has no frozen slot. The regulations are in the
/// order of opening. `word` is the bit mask of those that may hold the flight: no other is read.
pub(crate) fn advice_of<A: Allocator + Copy>(
    regulations: &[Regulation<A>],
    plans: &PlanStore<A>,
    number: u32,
    word: u64,
) -> Option<Told>
    requires some { 0 < number }
    requires within { number ≤ length plans.now.plans }
    requires covers { IsMarked word number 0 regulations.now }
    ensures { IfSome (plan_at plans.now.plans number)
        (λ p. result ≡ advice plans.now.taxi number p (map regulation_of regulations.now)) }
{
    let mut worst = None;
    let mut index = next_marked(word, 0);
    while index < regulations.len() {
        worst = worse(worst, delay_in(&regulations[index], plans, number));
        index = next_marked(word, index + 1);
    }
    let delay = worst?;
    let take_off = plans.take_off(number).minutes();
    Some(Told {
        ctot: Minute::from_minutes(take_off + delay.minutes),
        regulation: delay.regulation,
    })
}
