//! Finds the plan that a message is about.
ghost use Rattle.std.specs.Prelude.{◌≡◌, ◌≤◌, ◌<◌, ℕ, true, false, not};
ghost use Rattle.std.specs.Prelude.{◌&&◌, ◌==◌, length, IfOk, IfSome};
ghost use Rattle.std.specs.List.{list_any};
ghost use Rattle.flow_plans.specs.Plans.{plan_at, is_held_as};
ghost use Rattle.flow_plans.specs.Matching.{is_candidate, is_gone, matching};
ghost use Rattle.flow_plans.specs.Searching.{with_candidate, with_gone, with_one_more};
ghost use Rattle.flow_plans.specs.Searching.{passes_at, IsTrueOf, IsCounted};
ghost use Rattle.flow_plans.specs.Searching.{IsFreeAt, IsHeldBeside};
ghost use Rattle.flow_plans.specs.Chains.{AreChained, flight_of_key};
ghost use Rattle.flow_plans.specs.Changes.{Returns, others};
ghost use Rattle.flow_plans.specs.declared.setup.TheConstants.{MAX_PLANS};

use crate::chains::{Chains, FlightName};
use crate::fault::PlanFault;
use crate::plan::{Key, Plan, PlanState};
use fpl_message::Parts;
use std::alloc::Allocator;

/// What a search has found so far, by index from 0.
#[derive(Clone, Copy)]
pub(crate) enum Found {
    Nothing,
    /// A plan that matches, but has departed.
    Gone,
    One(usize),
    Several,
}

impl Found {
    fn with_candidate(self, place: usize) -> Found
        ensures { result ≡ with_candidate place self }
    {
        match self {
            Found::Nothing | Found::Gone => Found::One(place),
            Found::One(other) => { if other == place { self } else { Found::Several } }
            Found::Several => self,
        }
    }

    fn with_gone(self) -> Found
        ensures { result ≡ with_gone self }
    {
        match self {
            Found::Nothing => Found::Gone,
            _ => self,
        }
    }

    /// The result with the plan at `place` counted.
    fn with<A: Allocator + Copy>(self, place: usize, plan: &Plan<A>, parts: &Parts) -> Found
        ensures { result ≡ with_one_more (is_candidate parts.now plan.now)
            (is_gone parts.now plan.now) place self }
    {
        if plan.is_candidate(parts) {
            return self.with_candidate(place);
        }
        if plan.is_gone(parts) {
            return self.with_gone();
        }
        self
    }
}

/// The result with the plan at `place` counted, if there is one.
fn with_place<A: Allocator + Copy>(
    found: Found,
    plans: &[Plan<A>],
    place: usize,
    parts: &Parts,
) -> Found
    ensures { result ≡ with_one_more (passes_at (is_candidate parts.now) plans.now place)
        (passes_at (is_gone parts.now) plans.now place) place found }
{
    match plans.get(place) {
        Some(plan) => found.with(place, plan, parts),
        None => found,
    }
}

/// The result of searching the held plans of the message's flight, the newest first.
fn found_in<A: Allocator + Copy>(plans: &[Plan<A>], chains: &Chains<A>, parts: &Parts) -> Found
    requires { AreChained chains.now plans.now }
    ensures sound { IsTrueOf (is_candidate parts.now) (is_gone parts.now) plans.now result }
    ensures all { (place : ℕ)
        → IsCounted (is_candidate parts.now) (is_gone parts.now) plans.now result place }
{
    let older = chains.older();
    let mut number = chains.newest(&FlightName::of_parts(parts));
    let mut found = Found::Nothing;
    while number > 0 {
        let place = (number - 1) as usize;
        found = with_place(found, plans, place, parts);
        number = older[place];
    }
    found
}

/// The number of the plan that a message with these parts is about.
pub(crate) fn matching<A: Allocator + Copy>(
    plans: &[Plan<A>],
    chains: &Chains<A>,
    parts: &Parts,
) -> Result<u32, PlanFault>
    requires few { length plans.now ≤ MAX_PLANS }
    requires chained { AreChained chains.now plans.now }
    ensures answer { Returns result (matching plans.now parts.now) }
    ensures within { IfOk result (λ n. (0 < n) × (n ≤ length plans.now)) }
    ensures filed { IfOk result (λ n.
        IfSome (plan_at plans.now n) (λ p. p.state ≡ PlanState.Filed)) }
{
    match found_in(plans, chains, parts) {
        Found::Nothing => Err(PlanFault::NoPlan),
        Found::Gone => Err(PlanFault::AlreadyDeparted),
        Found::One(place) => Ok(place as u32 + 1),
        Found::Several => Err(PlanFault::Ambiguous),
    }
}

/// Whether the plan at index `place` is held with this key.
fn is_held_at<A: Allocator + Copy>(plans: &[Plan<A>], place: usize, key: &Key) -> bool
    ensures { result ≡ passes_at (is_held_as key.now) plans.now place }
{
    match plans.get(place) {
        Some(plan) => plan.is_held_as(key),
        None => false,
    }
}

/// The same, except for the plan at index `but`, which doesn't count.
fn is_held_beside<A: Allocator + Copy>(
    plans: &[Plan<A>],
    place: usize,
    key: &Key,
    but: usize,
) -> bool
    ensures { result ≡ (not (place == but) && passes_at (is_held_as key.now) plans.now place) }
{
    place != but && is_held_at(plans, place, key)
}

/// Whether a plan other than that at index `but` is held with this key, searched among the held
/// plans of the flight's name.
fn is_held_in<A: Allocator + Copy>(
    plans: &[Plan<A>],
    chains: &Chains<A>,
    name: &FlightName,
    key: &Key,
    but: usize,
) -> bool
    requires named { name.now ≡ flight_of_key key.now }
    requires chained { AreChained chains.now plans.now }
    ensures found { result ≡ true → IsHeldBeside key.now plans.now but }
    ensures none { result ≡ false → (place : ℕ) → IsFreeAt key.now plans.now but place }
{
    let older = chains.older();
    let mut number = chains.newest(name);
    while number > 0 {
        let place = (number - 1) as usize;
        if is_held_beside(plans, place, key, but) {
            return true;
        }
        number = older[place];
    }
    false
}

/// Whether a held plan has this key.
pub(crate) fn holds_key<A: Allocator + Copy>(
    plans: &[Plan<A>],
    chains: &Chains<A>,
    key: &Key,
) -> bool
    requires { AreChained chains.now plans.now }
    ensures { result ≡ list_any (is_held_as key.now) plans.now }
{
    is_held_in(plans, chains, &FlightName::of_key(key), key, plans.len())
}

/// Whether a plan other than `number` is held with this key, whose flight has this name.
pub(crate) fn others_hold_key<A: Allocator + Copy>(
    plans: &[Plan<A>],
    chains: &Chains<A>,
    number: u32,
    name: &FlightName,
    key: &Key,
) -> bool
    requires named { name.now ≡ flight_of_key key.now }
    requires number { (0 < number) × (number ≤ length plans.now) }
    requires chained { AreChained chains.now plans.now }
    ensures { result ≡ list_any (is_held_as key.now) (others number plans.now) }
{
    is_held_in(plans, chains, name, key, (number - 1) as usize)
}
