//! Entry counts: how many flights are planned to enter an aerodrome or route point, regulated or
//! not.
ghost use Rattle.std.specs.Prelude.{◌≡◌, ◌≤◌, ◌++◌, ◌+◌, ◌*◌};
ghost use Rattle.std.specs.Prelude.{IfOk, OnOk, option_to_list, min, codes};
ghost use Rattle.std.specs.Str.{bytes_eq};
ghost use Rattle.flow_view.specs.Counts.{is_regulated, counted_as, entrant_of};
ghost use Rattle.flow_view.specs.Counts.{entrants, same_standing, entering_flights};
ghost use Rattle.flow_view.specs.Counts.{count_in, counts};
ghost use Rattle.fpl_text.specs.declared.minute.TheConstants.{GREATEST_MINUTE};
ghost use Rattle.flow_plans.specs.declared.setup.TheConstants.{MAX_TAXI};

use crate::load::is_from_to;
use crate::windows::Windows;
use flow_core::Core;
use flow_plans::{Plan, PlanState};
use fpl_message::Spot;
use fpl_text::{FlightRules, GREATEST_MINUTE, Minute};
use std::alloc::{AllocError, Allocator};

/// What a held flight counts as at a point that it is planned to enter.
#[derive(Clone, Copy)]
enum Standing {
    /// Filed, and a regulation there may apply to it.
    Subject,
    /// Filed, and no regulation applies to it: it is flown by visual flight rules, filed in the air
    /// or exempt.
    Exempt,
    /// Departed, and on its way: its planned entry is after the desk's time.
    Departed,
    /// Departed, and past its planned entry: that isn't after the desk's time.
    Entered,
}

/// A flight that is planned to enter a point.
#[derive(Clone, Copy)]
struct Entrant {
    entry: Minute,
    standing: Standing,
}

/// How many flights are planned to enter a point in a window.
#[derive(Clone, Copy)]
pub struct Count {
    pub from: Minute,
    /// The first minute after the window.
    pub to: Minute,
    /// Filed flights to which a regulation there may apply.
    pub subject: u64,
    /// Filed flights to which none applies: flown by visual flight rules, filed in the air or
    /// exempt.
    pub exempt: u64,
    /// Departed flights on their way: their planned entry is after the desk's time.
    pub departed: u64,
    /// Departed flights past their planned entry: that isn't after the desk's time.
    pub entered: u64,
}

/// Whether a flight plan with this departure was filed in the air (AFIL).
fn is_filed_in_the_air(departure: &[u8]) -> bool
    ensures { result ≡ bytes_eq departure.now (codes "AFIL") }
{
    matches!(departure, b"AFIL")
}

/// Whether a regulation may apply to the flight of a filed plan.
fn is_regulated<A: Allocator + Copy>(plan: &Plan<A>) -> bool
    ensures { result ≡ is_regulated plan.now }
{
    if plan.rules() == FlightRules::Visual {
        return false;
    }
    if is_filed_in_the_air(plan.key().dep.as_bytes()) {
        return false;
    }
    !plan.exempt()
}

/// What the flight of a held plan counts as at a point that it is planned to enter at `entry`.
fn standing_of<A: Allocator + Copy>(now: Minute, plan: &Plan<A>, entry: Minute) -> Standing
    ensures { result ≡ counted_as now plan.now entry }
{
    if plan.state() == PlanState::Departed {
        if entry <= now {
            return Standing::Entered;
        }
        return Standing::Departed;
    }
    if is_regulated(plan) {
        Standing::Subject
    } else {
        Standing::Exempt
    }
}

/// The flight of a plan, if it is held and is planned to enter the point.
fn entrant_of<A: Allocator + Copy>(
    taxi: u32,
    now: Minute,
    spot: &Spot,
    plan: &Plan<A>,
) -> Option<Entrant>
    requires { taxi ≤ MAX_TAXI }
    ensures { result ≡ entrant_of taxi now spot.now plan.now }
{
    if !plan.is_held() {
        return None;
    }
    let entry = plan.entry_at(taxi, spot)?;
    Some(Entrant {
        entry,
        standing: standing_of(now, plan, entry),
    })
}

/// Appends a flight, if there is one. Returns `Err` if allocation fails.
fn add_entrant<A: Allocator + Copy>(
    entrants: &mut Vec<Entrant, A>,
    entrant: Option<Entrant>,
) -> Result<(), AllocError>
    ensures { OnOk result (entrants.new.items ≡ entrants.old.items ++ option_to_list entrant) }
{
    if let Some(entrant) = entrant {
        entrants.push(entrant)?;
    }
    Ok(())
}

/// The flights that are planned to enter a point, by plan number.
fn entrants_of<A: Allocator + Copy>(
    alloc: A,
    core: &Core<A>,
    spot: &Spot,
) -> Result<Vec<Entrant, A>, AllocError>
    ensures entrants { IfOk result (λ made. made.items ≡ entrants core.now spot.now) }
{
    let (taxi, now) = (core.setup().taxi(), core.now());
    let mut entrants = Vec::new(alloc);
    for index in 0..core.setup().max_plans() {
        let Some(plan) = core.plan(index + 1) else {
            return Ok(entrants);
        };
        add_entrant(&mut entrants, entrant_of(taxi, now, spot, plan))?;
    }
    Ok(entrants)
}

fn same_standing(standing: Standing, other: Standing) -> bool
    ensures { result ≡ same_standing standing other }
{
    match standing {
        Standing::Subject => matches!(other, Standing::Subject),
        Standing::Exempt => matches!(other, Standing::Exempt),
        Standing::Departed => matches!(other, Standing::Departed),
        Standing::Entered => matches!(other, Standing::Entered),
    }
}

/// The number of flights that enter from `from` to before `to` and count as `standing`.
fn entering_flights(entrants: &[Entrant], from: Minute, to: Minute, standing: Standing) -> u64
    ensures { result ≡ entering_flights from to standing entrants.now }
{
    let mut count = 0;
    for entrant in entrants {
        let enters = is_from_to(from, to, entrant.entry);
        count += u64::from(enters && same_standing(entrant.standing, standing));
    }
    count
}

/// The entry counts from `from` to before `to`.
fn count_in(entrants: &[Entrant], from: Minute, to: Minute) -> Count
    ensures { result ≡ count_in from to entrants.now }
{
    Count {
        from,
        to,
        subject: entering_flights(entrants, from, to, Standing::Subject),
        exempt: entering_flights(entrants, from, to, Standing::Exempt),
        departed: entering_flights(entrants, from, to, Standing::Departed),
        entered: entering_flights(entrants, from, to, Standing::Entered),
    }
}

/// The entry counts of window `index`, from 0.
fn count_at(entrants: &[Entrant], windows: &Windows, index: u32) -> Count
    requires { windows.now.from + windows.now.slide * index ≤ GREATEST_MINUTE }
    ensures { result ≡ count_in (windows.now.from + windows.now.slide * index)
        (min (windows.now.from + windows.now.slide * index + windows.now.step) GREATEST_MINUTE)
        entrants.now }
{
    let from = windows.from.minutes() + windows.slide * index;
    let to = (from + windows.step).min(GREATEST_MINUTE);
    count_in(
        entrants,
        Minute::from_minutes(from),
        Minute::from_minutes(to),
    )
}

/// The entry counts in each of these windows.
fn counts_with<A: Allocator + Copy>(
    alloc: A,
    entrants: &[Entrant],
    windows: &Windows,
) -> Result<Vec<Count, A>, AllocError>
    ensures { IfOk result (λ made. made.items ≡ counts windows.now entrants.now) }
{
    let minutes = windows.to.minutes().saturating_sub(windows.from.minutes());
    let count = (minutes + windows.slide - 1) / windows.slide;
    let mut counts = Vec::new(alloc);
    for index in 0..count {
        counts.push(count_at(entrants, windows, index))?;
    }
    Ok(counts)
}

/// The entry counts of a point in each of these windows, over all plans but cancelled ones
/// (EUROCONTROL ATFCM Users Manual). Reads the plans once. Returns `Err` if allocation fails.
pub fn counts_of<A: Allocator + Copy>(
    alloc: A,
    core: &Core<A>,
    spot: &Spot,
    windows: &Windows,
) -> Result<Vec<Count, A>, AllocError>
    ensures { IfOk result (λ made. made.items ≡ counts windows.now (entrants core.now spot.now)) }
{
    let entrants = entrants_of(alloc, core, spot)?;
    counts_with(alloc, entrants.as_slice(), windows)
}
