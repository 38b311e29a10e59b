//! A summary: the desk, its regulations, and the delay of its flights.
use crate::delay::{mean_of, put_delays};
use crate::fault::Fault;
use crate::sheet::{Cell, Column, Sheet, Side};
use flow_core::Core;
use flow_plans::{MAX_ENTRIES, PlanState};
use flow_slots::Shape;
use flow_view::{Opening, Totals, totals_of};
use fpl_message::Spot;
use std::alloc::{AllocError, Global};
use std::io::Write;

static DESK: [Column; 6] = [
    Column("time", 10, Side::Time),
    Column("entries", 7, Side::Right),
    Column("plans", 5, Side::Right),
    Column("filed", 5, Side::Right),
    Column("departed", 8, Side::Right),
    Column("cancelled", 9, Side::Right),
];

static REGULATIONS: [Column; 13] = [
    Column("regul", 8, Side::Left),
    Column("place", 15, Side::Left),
    Column("from", 10, Side::Time),
    Column("to", 10, Side::Time),
    Column("rates", 11, Side::Left),
    Column("flights", 7, Side::Right),
    Column("frozen", 6, Side::Right),
    Column("delayed", 7, Side::Right),
    Column("total", 6, Side::Right),
    Column("mean", 5, Side::Right),
    Column("most", 4, Side::Right),
    Column("opened", 7, Side::Right),
    Column("shut", 7, Side::Right),
];

/// Plans by state.
#[derive(Clone, Copy)]
pub struct States {
    pub filed: u32,
    pub departed: u32,
    pub cancelled: u32,
}

/// The number of plans in each state.
pub fn states_of(core: &Core) -> States {
    let mut states = States {
        filed: 0,
        departed: 0,
        cancelled: 0,
    };
    for index in 0..core.setup().max_plans() {
        let Some(plan) = core.plan(index + 1) else {
            break;
        };
        match plan.state() {
            PlanState::Filed => states.filed = states.filed.saturating_add(1),
            PlanState::Departed => states.departed = states.departed.saturating_add(1),
            PlanState::Cancelled => states.cancelled = states.cancelled.saturating_add(1),
        }
    }
    states
}

fn put_desk<W: Write + Drop>(sheet: &mut Sheet<'_, W>, core: &Core) -> Result<(), Fault> {
    let states = states_of(core);
    let plans = u64::from(states.filed) + u64::from(states.departed) + u64::from(states.cancelled);
    sheet.begin("desk", &DESK)?;
    sheet.put(&[
        Cell::Moment(core.now()),
        Cell::number(core.entries()),
        Cell::Number(plans),
        Cell::number(states.filed),
        Cell::number(states.departed),
        Cell::number(states.cancelled),
    ])
}

/// The words by which an order names a point: its kind and its name.
pub fn words_of(spot: &Spot) -> (&'static str, &str) {
    match spot {
        Spot::Dep(place) => ("DEP", str::from_utf8(place.as_bytes()).unwrap_or("")),
        Spot::Arr(place) => ("ARR", str::from_utf8(place.as_bytes()).unwrap_or("")),
        Spot::Via(place) => ("VIA", str::from_utf8(place.as_bytes()).unwrap_or("")),
    }
}

/// A point as an order names it.
pub fn place_text(alloc: Global, spot: &Spot) -> Result<String, AllocError> {
    let (kind, name) = words_of(spot);
    format!(in alloc; "{kind} {name}")
}

/// The hourly rates of the sub-periods, with strokes between them.
pub fn rates_text(alloc: Global, shape: &Shape) -> Result<String, AllocError> {
    let rate = shape.rate();
    let mut text = format!(in alloc; "{rate}")?;
    for part in shape.parts() {
        let rate = part.rate;
        write!(text, "/{rate}")?;
    }
    Ok(text)
}

/// The sums and counts of the slots of a regulation, which has no more of them than a journal may
/// have entries.
pub fn totals_in(opening: &Opening) -> Totals {
    let rows = opening.rows();
    totals_of(&rows[..rows.len().min(MAX_ENTRIES as usize)])
}

fn put_regulation<W: Write + Drop>(
    alloc: Global,
    sheet: &mut Sheet<'_, W>,
    opening: &Opening,
) -> Result<(), Fault> {
    let totals = totals_in(opening);
    let (from, to) = opening.shape().period();
    let place = place_text(alloc, opening.spot())?;
    let rates = rates_text(alloc, opening.shape())?;
    sheet.put(&[
        Cell::text(opening.id().as_bytes()),
        Cell::text(place.as_bytes()),
        Cell::Moment(from),
        Cell::Moment(to),
        Cell::text(rates.as_bytes()),
        Cell::Number(totals.flights),
        Cell::Number(totals.frozen),
        Cell::Number(totals.delayed),
        Cell::Number(totals.total),
        Cell::Tenths(mean_of(totals.total, totals.flights)),
        Cell::number(totals.greatest),
        Cell::number(opening.opened_by()),
        Cell::number_or_blank(opening.shut_by()),
    ])
}

/// Writes the desk, its regulations, and the delay of its flights.
pub fn put_summary<W: Write + Drop>(
    alloc: Global,
    sheet: &mut Sheet<'_, W>,
    core: &Core,
    openings: &[Opening],
) -> Result<(), Fault> {
    put_desk(sheet, core)?;
    sheet.begin("regulations", &REGULATIONS)?;
    for opening in openings {
        put_regulation(alloc, sheet, opening)?;
    }
    put_delays(alloc, sheet, core, openings)
}
