//! Demand and slots of a regulation by steps of time.
use crate::fault::Fault;
use crate::sheet::{Cell, Column, Sheet, Side};
use flow_slots::LONGEST_PERIOD;
use flow_view::{Load, Opening, held_later, loads_of};
use std::alloc::{AllocError, Global};
use std::io::Write;

/// The columns in the text format, of which the last two have bars.
static COLUMNS: [Column; 7] = [
    Column("from", 10, Side::Time),
    Column("to", 10, Side::Time),
    Column("demand", 6, Side::Right),
    Column("slots", 5, Side::Right),
    Column("held", 5, Side::Right),
    Column("demand against slots", 29, Side::Left),
    Column("held against slots", 29, Side::Left),
];

static COUNTS: [Column; 5] = [
    Column("from", 10, Side::Time),
    Column("to", 10, Side::Time),
    Column("demand", 6, Side::Right),
    Column("slots", 5, Side::Right),
    Column("held", 5, Side::Right),
];

/// The greatest length of a bar, in characters.
const LONGEST: u64 = 28;

/// The greatest count of the steps.
pub fn greatest_of(loads: &[Load]) -> u64 {
    let mut greatest = 0;
    for load in loads {
        greatest = greatest
            .max(load.demand)
            .max(load.held)
            .max(u64::from(load.slots));
    }
    greatest
}

/// A bar of one character for each `each` flights, rounded up, with a stroke after the number of
/// slots.
fn bar_of(alloc: Global, count: u64, slots: u64, each: u64) -> Result<Vec<u8>, AllocError> {
    let mut bar = Vec::new(alloc);
    let filled = count.div_ceil(each.max(1));
    let mark = slots.div_ceil(each.max(1));
    for sign in 0..LONGEST + 1 {
        if sign == mark {
            bar.push(b'|')?;
        }
        if sign < filled {
            bar.push(b'#')?;
        } else if sign < mark {
            bar.push(b' ')?;
        }
    }
    Ok(bar)
}

fn put_load<W: Write + Drop>(
    alloc: Global,
    sheet: &mut Sheet<'_, W>,
    load: &Load,
    each: u64,
) -> Result<(), Fault> {
    let slots = u64::from(load.slots);
    let demand = bar_of(alloc, load.demand, slots, each)?;
    let held = bar_of(alloc, load.held, slots, each)?;
    let cells = [
        Cell::Moment(load.from),
        Cell::Moment(load.to),
        Cell::Number(load.demand),
        Cell::Number(slots),
        Cell::Number(load.held),
        Cell::text(demand.as_slice()),
        Cell::text(held.as_slice()),
    ];
    if sheet.is_text() {
        sheet.put(&cells)
    } else {
        sheet.put(&cells[..5])
    }
}

/// Writes how many flights have slots after the period, and what the characters of the bars mean.
fn put_key<W: Write + Drop>(
    alloc: Global,
    sheet: &mut Sheet<'_, W>,
    later: u64,
    each: u64,
) -> Result<(), Fault> {
    let key = format!(in alloc; "\n# is {each} of them, | the slots that the rates give\n")?;
    sheet.note(key.as_str())?;
    if later > 0 {
        let line = format!(in alloc; "Slots held after the period: {later}\n")?;
        sheet.note(line.as_str())?;
    }
    Ok(())
}

/// Writes demand and slots of a regulation in steps of `step` minutes.
pub fn put_loads<W: Write + Drop>(
    alloc: Global,
    sheet: &mut Sheet<'_, W>,
    opening: &Opening,
    step: u32,
) -> Result<(), Fault> {
    let step = step.clamp(1, LONGEST_PERIOD);
    let loads = loads_of(alloc, opening.shape(), opening.rows(), step)?;
    let each = greatest_of(loads.as_slice()).div_ceil(LONGEST).max(1);
    if sheet.is_text() {
        sheet.begin("load", &COLUMNS)?;
    } else {
        sheet.begin("load", &COUNTS)?;
    }
    for load in &loads {
        put_load(alloc, sheet, load, each)?;
    }
    let later = held_later(opening.shape(), opening.rows());
    put_key(alloc, sheet, later, each)
}
