//! The plan rows that a step changed.
ghost use Rattle.std.specs.Prelude.{◌≡◌, ◌≤◌, ◌<◌, ◌-◌, IfSome, IsSome, length, slice_get};
ghost use Rattle.std.specs.Vec.{vec_capacity};
ghost use Rattle.std.specs.Option.{option_map, option_and_then};
ghost use Rattle.flow_traffic.specs.Traffic.{told_of};
ghost use Rattle.flow_core.specs.Changes.{same_state, same_told, same_row};
ghost use Rattle.flow_core.specs.Changes.{row_with, change_to, change_at};
ghost use Rattle.flow_core.specs.Changes.{changes_between, rows_in};

use crate::row::{Row, row_at};
use flow_plans::{PlanState, Status};
use flow_regulations::Told;
use flow_traffic::Traffic;
use std::alloc::Allocator;

/// The new row of a plan that a step changed.
#[derive(Clone, Copy, Debug, PartialEq, Eq)]
pub struct Change {
    /// The plan's number, from 1.
    pub plan: u32,
    pub row: Row,
}

fn same_state(state: PlanState, other: PlanState) -> bool
    ensures { result ≡ same_state state other }
{
    match (state, other) {
        (PlanState::Filed, PlanState::Filed) => true,
        (PlanState::Departed, PlanState::Departed) => true,
        (PlanState::Cancelled, PlanState::Cancelled) => true,
        _ => false,
    }
}

/// Whether two issued slots have the same CTOT and the same regulation, or neither was issued.
fn same_told(told: &Option<Told>, other: &Option<Told>) -> bool
    ensures { result ≡ same_told told.now other.now }
{
    match (told, other) {
        (None, None) => true,
        (Some(told), Some(other)) => {
            told.ctot == other.ctot && told.regulation.is(&other.regulation)
        }
        _ => false,
    }
}

/// Whether a reader of the desk sees no difference between two rows.
#[tactic(auto, unfolding(crate::specs::Changes::same_row))]
fn same_row(row: &Row, other: &Row) -> bool
    ensures { result ≡ same_row row.now other.now }
{
    same_state(row.state, other.state)
        && row.off_block == other.off_block
        && same_told(&row.told, &other.told)
}

/// The row of a plan with this status and issued slot; `None` if there is no plan.
fn row_with(status: Option<Status>, told: &Option<Told>) -> Option<Row>
    ensures { result ≡ option_map (row_with told.now) status }
{
    let status = match status {
        Some(status) => status,
        None => return None,
    };
    Some(Row {
        state: status.state,
        off_block: status.off_block,
        told: *told,
    })
}

/// The row that plan `number` had before the last filing was read, if its slot was `told`.
fn row_before<A: Allocator + Copy>(
    traffic: &Traffic<A>,
    number: u32,
    told: &Option<Told>,
) -> Option<Row>
    requires some { 0 < number }
    requires change { IsSome traffic.now.before }
    requires each { IfSome traffic.now.before (λ before. length before.told ≡ length before.plans) }
    requires told { IfSome traffic.now.before (λ before. told.now ≡ told_of before.told number) }
    ensures { IfSome traffic.now.before (λ before.
        result ≡ slice_get (rows_in before) (number - 1)) }
{
    row_with(traffic.previous(number), told)
}

/// The change of plan `number` from one row to another; `None` if they are equal.
fn change_between(number: u32, before: Option<Row>, after: Option<Row>) -> Option<Change>
    ensures { result ≡ option_and_then (change_to number before) after }
{
    let row = match after {
        Some(row) => row,
        None => return None,
    };
    if let Some(before) = before {
        if same_row(&before, &row) {
            return None;
        }
    }
    Some(Change { plan: number, row })
}

/// Whether `told` is the slot last issued to plan `number`.
fn is_told<A: Allocator + Copy>(traffic: &Traffic<A>, number: u32, told: &Option<Told>) -> bool
    requires { 0 < number }
    ensures value { result ≡ same_told told.now (told_of traffic.now.traffic.told number) }
    ensures each { length traffic.now.traffic.told ≡ length traffic.now.traffic.plans }
{
    match traffic.told(number) {
        Some(now) => same_told(told, now),
        None => same_told(told, &None),
    }
}

/// The change of plan `number`, whose issued slot was `told` before the last filing was read.
fn change_at<A: Allocator + Copy>(
    traffic: &Traffic<A>,
    number: u32,
    told: &Option<Told>,
) -> Option<Change>
    requires some { 0 < number }
    requires change { IsSome traffic.now.before }
    requires each { IfSome traffic.now.before (λ before. length before.told ≡ length before.plans) }
    requires told { IfSome traffic.now.before (λ before. told.now ≡ told_of before.told number) }
    ensures { IfSome traffic.now.before (λ before.
        result ≡ change_at (rows_in before) (rows_in traffic.now.traffic) number) }
{
    // Most plans that became due have the state and the slot that they had: their rows aren't
    // built.
    if !traffic.may_have_moved_plans() && is_told(traffic, number, told) {
        return None;
    }
    let before = row_before(traffic, number, told);
    change_between(number, before, row_at(traffic, number))
}

/// Collects the changes of the last filing, by plan number. Doesn't allocate.
pub(crate) fn note_changes<A: Allocator + Copy>(traffic: &Traffic<A>, changes: &mut Vec<Change, A>)
    requires change { IsSome traffic.now.before }
    requires room { length (rows_in traffic.now.traffic) ≤ vec_capacity changes.old }
    ensures changes { IfSome traffic.now.before (λ before.
        changes.new.items ≡ changes_between (rows_in before) (rows_in traffic.now.traffic)) }
    ensures capacity { vec_capacity changes.new ≡ vec_capacity changes.old }
{
    changes.clear();
    let (numbers, told) = traffic.changed();
    for (index, number) in numbers.iter().enumerate() {
        if let Some(change) = change_at(traffic, *number, &told[index]) {
            changes.push_reserved(change);
        }
    }
}
