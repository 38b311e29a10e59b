//! What a regulation would do at several rates.
use crate::delay::mean_of;
use crate::fault::Fault;
use crate::options::WhatIf;
use crate::sheet::{Cell, Column, Sheet, Side};
use crate::words::order_of;
use flow_core::Core;
use flow_traffic::MAX_REGULATIONS;
use flow_view::{SweepFault, Swept, sweep};
use std::alloc::{AllocError, Global};
use std::io::Write;

static COLUMNS: [Column; 6] = [
    Column("rate", 4, Side::Right),
    Column("flights", 7, Side::Right),
    Column("delayed", 7, Side::Right),
    Column("total", 6, Side::Right),
    Column("mean", 5, Side::Right),
    Column("most", 4, Side::Right),
];

/// Whether a regulation of this name is open.
fn is_open(core: &Core, id: &str) -> bool {
    core.regulations()
        .iter()
        .any(|regulation| regulation.id().as_bytes() == id.as_bytes())
}

/// A name that no open regulation has: one of one more than there can be regulations.
fn free_name(alloc: Global, core: &Core) -> Result<String, AllocError> {
    let mut name = String::from_str(alloc, "WHATIF")?;
    for index in 0..MAX_REGULATIONS {
        if !is_open(core, name.as_str()) {
            break;
        }
        name = format!(in alloc; "WHATIF{index}")?;
    }
    Ok(name)
}

/// Writes why there is no sweep, and returns the fault.
fn tell_fault<E: Write>(fault: SweepFault, order: &str, errors: &mut E) -> Fault {
    let _told = match fault {
        SweepFault::OutOfMemory => return Fault::OutOfMemory,
        SweepFault::TooLong => writeln!(errors, "slotview: the order is too long"),
        SweepFault::JournalFull => writeln!(errors, "slotview: the journal is full"),
        SweepFault::Refused(refusal) => {
            let number = refusal.number();
            let name = str::from_utf8(refusal.name()).unwrap_or("");
            writeln!(errors, "slotview: {order}: NO {number} {name}")
        }
    };
    Fault::NotDone
}

/// What a regulation would do at each of its rates. Writes a line if its OPEN is refused.
pub fn sweep_of<E: Write>(
    alloc: Global,
    core: &mut Core,
    what_if: &WhatIf<'_>,
    errors: &mut E,
) -> Result<Vec<Swept>, Fault> {
    let name = free_name(alloc, core)?;
    let words = [what_if.kind, what_if.place, what_if.from, what_if.to];
    let order = order_of(alloc, name.as_str(), words)?;
    let mut rates = Vec::new(alloc);
    for rate in what_if.first..what_if.last.saturating_add(1) {
        rates.push(rate)?;
    }
    match sweep(alloc, core, order.as_bytes(), rates.as_slice()) {
        Ok(lines) => Ok(lines),
        Err(fault) => Err(tell_fault(fault, order.as_str(), errors)),
    }
}

/// Writes what a regulation would do.
pub fn put_sweep<W: Write + Drop>(sheet: &mut Sheet<'_, W>, lines: &[Swept]) -> Result<(), Fault> {
    sheet.begin("sweep", &COLUMNS)?;
    for line in lines {
        sheet.put(&[
            Cell::number(line.rate),
            Cell::Number(line.totals.flights),
            Cell::Number(line.totals.delayed),
            Cell::Number(line.totals.total),
            Cell::Tenths(mean_of(line.totals.total, line.totals.flights)),
            Cell::number(line.totals.greatest),
        ])?;
    }
    Ok(())
}
