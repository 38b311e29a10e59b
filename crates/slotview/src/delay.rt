//! The delay of flights, each by its most penalising regulation.
use crate::fault::Fault;
use crate::sheet::{Cell, Column, Sheet, Side};
use flow_core::Core;
use flow_view::{
    DelayTotals, FlightDelay, Opening, Spread, delay_totals, delays_of, mean_tenths,
    most_delayed_first,
};
use std::alloc::{AllocError, Global};
use std::io::Write;

static TOTALS: [Column; 6] = [
    Column("regulated", 9, Side::Right),
    Column("delayed", 7, Side::Right),
    Column("over-15", 7, Side::Right),
    Column("total", 6, Side::Right),
    Column("mean", 5, Side::Right),
    Column("most", 4, Side::Right),
];

static HISTOGRAM: [Column; 2] = [
    Column("minutes", 7, Side::Left),
    Column("flights", 7, Side::Right),
];

static DELAYED: [Column; 8] = [
    Column("flight", 7, Side::Left),
    Column("dep", 4, Side::Left),
    Column("dest", 4, Side::Left),
    Column("off-block", 10, Side::Time),
    Column("delay", 5, Side::Right),
    Column("cause", 8, Side::Left),
    Column("opened", 7, Side::Right),
    Column("told", 10, Side::Time),
];

/// How many of the most delayed flights are shown.
pub const MOST_SHOWN: usize = 15;

/// The delays of the flights of a desk, the greatest first.
#[derive(Drop)]
pub struct Delays {
    pub flights: Vec<FlightDelay>,
    pub totals: DelayTotals,
}

/// Computes the delays of the flights in these regulations.
pub fn delays_in(alloc: Global, core: &Core, openings: &[Opening]) -> Result<Delays, AllocError> {
    let mut flights = delays_of(alloc, core.setup().max_plans(), openings)?;
    let totals = delay_totals(flights.as_slice());
    most_delayed_first(&mut flights);
    Ok(Delays { flights, totals })
}

/// A mean delay in tenths of a minute, rounded.
pub fn mean_of(total: u64, flights: u64) -> u32 {
    u32::try_from(mean_tenths(total, flights)).unwrap_or(u32::MAX)
}

/// The number of flights by delay, with the names of the classes.
pub fn classes_of(spread: &Spread) -> [(&'static str, u64); 6] {
    [
        ("0", spread.none),
        ("1-5", spread.to_5),
        ("6-15", spread.to_15),
        ("16-30", spread.to_30),
        ("31-60", spread.to_60),
        ("over 60", spread.over_60),
    ]
}

/// Writes a delayed flight.
fn put_delayed<W: Write + Drop>(
    sheet: &mut Sheet<'_, W>,
    core: &Core,
    delay: &FlightDelay,
) -> Result<(), Fault> {
    let Some(plan) = core.plan(delay.plan) else {
        return Ok(());
    };
    let told = match core.row(delay.plan) {
        Some(row) => row.told.map(|told| told.ctot),
        None => None,
    };
    sheet.put(&[
        Cell::text(plan.key().ident.as_bytes()),
        Cell::text(plan.key().dep.as_bytes()),
        Cell::text(plan.key().dest.as_bytes()),
        Cell::Moment(plan.off_block()),
        Cell::number(delay.minutes),
        Cell::text(delay.regulation.as_bytes()),
        Cell::number(delay.opened_by),
        Cell::moment_or_blank(told),
    ])
}

/// Writes the delay of the flights in these regulations.
pub fn put_delays<W: Write + Drop>(
    alloc: Global,
    sheet: &mut Sheet<'_, W>,
    core: &Core,
    openings: &[Opening],
) -> Result<(), Fault> {
    let Delays { flights, totals } = delays_in(alloc, core, openings)?;
    sheet.begin("delays", &TOTALS)?;
    sheet.put(&[
        Cell::Number(totals.flights),
        Cell::Number(totals.delayed),
        Cell::Number(totals.over_15),
        Cell::Number(totals.total),
        Cell::Tenths(mean_of(totals.total, totals.flights)),
        Cell::number(totals.greatest),
    ])?;
    sheet.begin("histogram", &HISTOGRAM)?;
    for (minutes, count) in classes_of(&totals.spread) {
        sheet.put(&[Cell::text(minutes.as_bytes()), Cell::Number(count)])?;
    }
    sheet.begin("delayed", &DELAYED)?;
    for delay in flights.iter().take(MOST_SHOWN) {
        if delay.minutes > 0 {
            put_delayed(sheet, core, delay)?;
        }
    }
    Ok(())
}
