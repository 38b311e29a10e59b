//! Counts of the flights that enter a point, regulated or not, by steps of time.
use crate::fault::Fault;
use crate::options::Asked;
use crate::sheet::{Cell, Column, Sheet, Side};
use flow_core::Core;
use flow_slots::LONGEST_PERIOD;
use flow_view::{Count, Windows, counts_of};
use fpl_message::Spot;
use fpl_text::Minute;
use std::alloc::{AllocError, Global};
use std::io::Write;

static COLUMNS: [Column; 7] = [
    Column("from", 10, Side::Time),
    Column("to", 10, Side::Time),
    Column("flights", 7, Side::Right),
    Column("subject", 7, Side::Right),
    Column("exempt", 6, Side::Right),
    Column("departed", 8, Side::Right),
    Column("entered", 7, Side::Right),
];

/// The columns in the text format, of which the last has bars.
static IN_TEXT: [Column; 8] = [
    Column("from", 10, Side::Time),
    Column("to", 6, Side::Time),
    Column("flights", 7, Side::Right),
    Column("subject", 7, Side::Right),
    Column("exempt", 6, Side::Right),
    Column("departed", 8, Side::Right),
    Column("entered", 7, Side::Right),
    Column("all", 22, Side::Left),
];

/// The greatest length of a bar, in characters.
const LONGEST: u64 = 22;

/// The number of flights of a count.
pub fn flights_of(count: &Count) -> u64 {
    count
        .subject
        .saturating_add(count.exempt)
        .saturating_add(count.departed)
        .saturating_add(count.entered)
}

/// The greatest count.
pub fn most_of(counts: &[Count]) -> u64 {
    let mut most = 0;
    for count in counts {
        most = flights_of(count).max(most);
    }
    most
}

/// The time `minutes` later; the same time if that would be beyond the greatest one.
pub fn later_by(moment: Minute, minutes: u32) -> Minute {
    moment.plus(minutes).unwrap_or(moment)
}

/// The period that is counted. If no beginning is given, it begins with the desk's day; if no end
/// is given, it is as long as may be.
pub fn period_of(core: &Core, asked: &Asked) -> (Minute, Minute) {
    let from = match asked.from {
        Some(from) => from,
        None => {
            let now = core.now().minutes();
            Minute::new(now - now % 1440).unwrap_or(core.now())
        }
    };
    (from, asked.to.unwrap_or(later_by(from, LONGEST_PERIOD)))
}

/// The counts of a point in a period; none if it isn't a period of counts.
pub fn counts_in(
    alloc: Global,
    core: &Core,
    spot: &Spot,
    (from, to): (Minute, Minute),
    (step, slide): (u32, u32),
) -> Result<Vec<Count>, AllocError> {
    match Windows::new(from, to, step, slide) {
        Some(windows) => counts_of(alloc, core, spot, &windows),
        None => Ok(Vec::new(alloc)),
    }
}

/// A bar of one character for each `each` flights, rounded up.
fn bar_of(alloc: Global, flights: u64, each: u64) -> Result<Vec<u8>, AllocError> {
    let mut bar = Vec::new(alloc);
    for _ in 0..flights.div_ceil(each.max(1)).min(LONGEST) {
        bar.push(b'#')?;
    }
    Ok(bar)
}

fn put_count<W: Write + Drop>(
    alloc: Global,
    sheet: &mut Sheet<'_, W>,
    count: &Count,
    each: u64,
) -> Result<(), Fault> {
    let flights = flights_of(count);
    let bar = bar_of(alloc, flights, each)?;
    sheet.set_day(count.from);
    let cells = [
        Cell::Moment(count.from),
        Cell::Time(count.to),
        Cell::Number(flights),
        Cell::Number(count.subject),
        Cell::Number(count.exempt),
        Cell::Number(count.departed),
        Cell::Number(count.entered),
        Cell::text(bar.as_slice()),
    ];
    if sheet.is_text() {
        sheet.put(&cells)
    } else {
        sheet.put(&cells[..7])
    }
}

/// Writes how many flights enter a point.
pub fn put_counts<W: Write + Drop>(
    alloc: Global,
    sheet: &mut Sheet<'_, W>,
    core: &Core,
    asked: &Asked,
) -> Result<(), Fault> {
    let period = period_of(core, asked);
    let steps = (asked.step, asked.slide);
    let counts = counts_in(alloc, core, &asked.spot, period, steps)?;
    let each = most_of(counts.as_slice()).div_ceil(LONGEST).max(1);
    if sheet.is_text() {
        sheet.begin("counts", &IN_TEXT)?;
    } else {
        sheet.begin("counts", &COLUMNS)?;
    }
    for count in &counts {
        put_count(alloc, sheet, count, each)?;
    }
    if each > 1 {
        let key = format!(in alloc; "\n# is {each} of them\n")?;
        sheet.note(key.as_str())?;
    }
    Ok(())
}
