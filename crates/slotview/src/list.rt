//! The slot list of a regulation.
ghost use Rattle.std.specs.Prelude.{◌≡◌, OnOk, length, sum_by};
ghost use Rattle.flow_view.specs.Table.{lines};
ghost use Rattle.slotview.specs.Rows.{with_more};

use crate::chart_text::heading_of;
use crate::fault::Fault;
use crate::sheet::{Cell, Column, Sheet, Side};
use flow_view::{Holding, Line, Opening, lines_with};
use std::alloc::Global;
use std::io::Write;

static COLUMNS: [Column; 15] = [
    Column("regul", 8, Side::Left),
    Column("slot", 5, Side::Right),
    Column("empty", 5, Side::Right),
    Column("time", 10, Side::Time),
    Column("flight", 7, Side::Left),
    Column("dep", 4, Side::Left),
    Column("dest", 4, Side::Left),
    Column("off-block", 10, Side::Time),
    Column("entry", 10, Side::Time),
    Column("delay", 5, Side::Right),
    Column("state", 8, Side::Left),
    Column("told", 10, Side::Time),
    Column("cause", 8, Side::Left),
    Column("opened", 7, Side::Right),
    Column("shut", 7, Side::Right),
];

/// The columns in the text format, 80 characters wide. The name of the regulation is in a line
/// above its slots.
static IN_TEXT: [Column; 12] = [
    Column("slot", 4, Side::Right),
    Column("empty", 5, Side::Right),
    Column("time", 6, Side::Time),
    Column("flight", 7, Side::Left),
    Column("dep", 4, Side::Left),
    Column("dest", 4, Side::Left),
    Column("eobt", 6, Side::Time),
    Column("entry", 6, Side::Time),
    Column("delay", 5, Side::Right),
    Column("state", 8, Side::Left),
    Column("told", 6, Side::Time),
    Column("cause", 8, Side::Left),
];

/// The name of the way in which a flight holds its slot.
pub fn holding_name(holding: Holding) -> &'static [u8] {
    match holding {
        Holding::Waiting => b"waiting",
        Holding::Frozen => b"frozen",
        Holding::Departed => b"departed",
    }
}

/// The cells of the flight of a line: its names, its off-block time and its planned entry. They are
/// blank if there is no flight.
fn flight_cells(line: &Line) -> [Cell; 5] {
    let Some(flight) = &line.row.flight else {
        return [
            Cell::Blank,
            Cell::Blank,
            Cell::Blank,
            Cell::Blank,
            Cell::Blank,
        ];
    };
    [
        Cell::text(flight.ident.as_bytes()),
        Cell::text(flight.dep.as_bytes()),
        Cell::text(flight.dest.as_bytes()),
        Cell::Time(flight.off_block),
        Cell::time_or_blank(flight.entry),
    ]
}

/// The cells of a line.
fn cells_of(opening: &Opening, line: &Line) -> [Cell; 15] {
    let [ident, dep, dest, off_block, entry] = flight_cells(line);
    let cause = match &line.cause {
        Some(cause) => Cell::text(cause.as_bytes()),
        None => Cell::Blank,
    };
    [
        Cell::text(opening.id().as_bytes()),
        Cell::number(line.row.slot),
        Cell::number(line.empty),
        Cell::Time(line.row.time),
        ident,
        dep,
        dest,
        off_block,
        entry,
        Cell::number(line.delay),
        Cell::text(holding_name(line.holding)),
        Cell::time_or_blank(line.ctot),
        cause,
        Cell::number(opening.opened_by()),
        Cell::number_or_blank(opening.shut_by()),
    ]
}

/// Writes a line. In the text format it doesn't have the name of the regulation.
fn put_line<W: Write + Drop>(sheet: &mut Sheet<'_, W>, cells: &[Cell; 15]) -> Result<(), Fault>
    ensures { OnOk result (sheet.new.rows ≡ with_more sheet.old.rows 1) }
{
    let cells = &cells[..];
    if sheet.is_text() {
        sheet.put(&cells[1..13])
    } else {
        sheet.put(cells)
    }
}

/// Writes the lines of the slot list of a regulation, a row for each.
fn put_list<W: Write + Drop>(
    alloc: Global,
    sheet: &mut Sheet<'_, W>,
    opening: &Opening,
) -> Result<(), Fault>
    ensures { OnOk result (sheet.new.rows
        ≡ with_more sheet.old.rows (length (lines opening.now.rows))) }
{
    let heading = heading_of(alloc, opening)?;
    let (start, _) = opening.shape().period();
    sheet.set_day(start);
    sheet.note(heading.as_str())?;
    sheet.note("\n")?;
    let lines = lines_with(alloc, opening.rows())?;
    for line in &lines {
        put_line(sheet, &cells_of(opening, line))?;
    }
    Ok(())
}

/// Writes the slot lists of these regulations, one after the other as one table: a row for each of
/// their lines.
pub fn put_lists<W: Write + Drop>(
    alloc: Global,
    sheet: &mut Sheet<'_, W>,
    openings: &[Opening],
) -> Result<(), Fault>
    ensures { OnOk result (sheet.new.rows
        ≡ with_more 0 (sum_by (λ o. length (lines o.rows)) openings.now)) }
{
    if sheet.is_text() {
        sheet.begin("slots", &IN_TEXT)?;
    } else {
        sheet.begin("slots", &COLUMNS)?;
    }
    for opening in openings {
        put_list(alloc, sheet, opening)?;
    }
    Ok(())
}
