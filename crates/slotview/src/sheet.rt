//! Tables: as aligned text, as CSV and as JSON.
ghost use Rattle.std.specs.Prelude.{◌≡◌, OnOk};
ghost use Rattle.slotview.specs.Rows.{with_more};

use crate::fault::{Fault, unwritten};
use crate::moments::{Digits, Iso, Short};
use crate::options::Format;
use csv::WriterBuilder;
use fpl_text::{Minute, Text};
use serde_json::{Map, Value, put};
use std::alloc::{AllocError, Global};
use std::io::Write;

/// The greatest length of a short text in a cell, in bytes.
const LONGEST: usize = 32;

/// The content of a cell.
#[derive(Drop)]
pub enum Cell {
    Blank,
    Text(Text<32>),
    Number(u64),
    /// A number of tenths.
    Tenths(u32),
    /// A time, in full.
    Moment(Minute),
    /// A time that the text format writes without its day if that is the day of the sheet.
    Time(Minute),
    /// A text of any length.
    Long(String),
}

impl Cell {
    /// A text, or a blank cell if it is empty. No text is longer than 32 bytes; a longer one would
    /// be cut.
    pub fn text(text: &[u8]) -> Cell {
        if text.is_empty() {
            return Cell::Blank;
        }
        let shown = text.len().min(LONGEST);
        Cell::Text(Text::new(&text[..shown]))
    }

    /// A number.
    pub fn number(number: u32) -> Cell {
        Cell::Number(u64::from(number))
    }

    /// A number, or a blank cell.
    pub fn number_or_blank(number: Option<u32>) -> Cell {
        match number {
            Some(number) => Cell::number(number),
            None => Cell::Blank,
        }
    }

    /// A text of any length, or a blank cell if it is empty.
    pub fn long(text: String) -> Cell {
        if text.is_empty() {
            Cell::Blank
        } else {
            Cell::Long(text)
        }
    }

    /// A time, or a blank cell.
    pub fn moment_or_blank(moment: Option<Minute>) -> Cell {
        match moment {
            Some(moment) => Cell::Moment(moment),
            None => Cell::Blank,
        }
    }

    /// A time without the day of the sheet, or a blank cell.
    pub fn time_or_blank(moment: Option<Minute>) -> Cell {
        match moment {
            Some(moment) => Cell::Time(moment),
            None => Cell::Blank,
        }
    }
}

/// A column: its name, its width in the text format, and what its cells are.
pub struct Column(pub &'static str, pub usize, pub Side);

/// What the cells of a column are, and how they are aligned in the text format.
#[derive(Clone, Copy, PartialEq, Eq)]
pub enum Side {
    Left,
    Right,
    /// Times, at the left. In JSON each has a second member, by ISO 8601.
    Time,
}

/// Writes tables, one after the other.
#[derive(Drop)]
pub struct Sheet<'a, W: Write + Drop> {
    alloc: Global,
    format: Format,
    /// The name of the one table that is written. `None` for all.
    only: Option<&'a str>,
    writer: W,
    columns: &'static [Column],
    /// The number of the day whose times the text format writes without it.
    day: u32,
    /// Whether the last table isn't written.
    left_out: bool,
    /// The number of tables that were written, and of rows of the last one.
    tables: u32,
    rows: u64,
}

fn memory<T: Drop>(_: T) -> Fault {
    Fault::OutOfMemory
}

/// Appends `count` spaces.
fn pad(line: &mut Vec<u8>, count: usize) -> Result<(), AllocError> {
    for _ in 0..count {
        line.push(b' ')?;
    }
    Ok(())
}

/// The text of a time in full.
fn digits_of(alloc: Global, moment: Minute) -> Result<Vec<u8>, AllocError> {
    let digits = Digits(moment);
    Ok(format!(in alloc; "{digits}")?.into_bytes())
}

/// The text of a cell.
fn text_of(alloc: Global, cell: &Cell) -> Result<Vec<u8>, AllocError> {
    match cell {
        Cell::Blank => Ok(Vec::new(alloc)),
        Cell::Text(text) => Vec::from_slice(alloc, text.as_bytes()),
        Cell::Number(number) => Ok(format!(in alloc; "{number}")?.into_bytes()),
        Cell::Tenths(tenths) => {
            let whole = *tenths / 10;
            let rest = *tenths % 10;
            Ok(format!(in alloc; "{whole}.{rest}")?.into_bytes())
        }
        Cell::Moment(moment) => digits_of(alloc, *moment),
        Cell::Time(moment) => digits_of(alloc, *moment),
        Cell::Long(text) => Vec::from_slice(alloc, text.as_bytes()),
    }
}

/// The value of a time: the text of its digits, or that of ISO 8601.
fn moment_value(alloc: Global, moment: Minute, by_iso: bool) -> Result<Value, AllocError> {
    let text = if by_iso {
        let iso = Iso(moment);
        format!(in alloc; "{iso}")?
    } else {
        let digits = Digits(moment);
        format!(in alloc; "{digits}")?
    };
    Value::try_from_str(alloc, text.as_str())
}

/// The value of a cell.
fn value_of(alloc: Global, cell: &Cell) -> Result<Value, AllocError> {
    match cell {
        Cell::Blank => Ok(Value::Null),
        Cell::Text(text) => Value::try_from_str(
            alloc,
            str::from_utf8(text.as_bytes()).unwrap_or(""),
        ),
        Cell::Number(number) => Ok(Value::from(*number)),
        Cell::Tenths(tenths) => Ok(Value::from(f64::from(*tenths) / 10.0)),
        Cell::Moment(moment) => moment_value(alloc, *moment, false),
        Cell::Time(moment) => moment_value(alloc, *moment, false),
        Cell::Long(text) => Value::try_from_str(alloc, text.as_str()),
    }
}

/// The value of a cell of times by ISO 8601.
fn iso_value(alloc: Global, cell: &Cell) -> Result<Value, AllocError> {
    match cell {
        Cell::Moment(moment) => moment_value(alloc, *moment, true),
        Cell::Time(moment) => moment_value(alloc, *moment, true),
        _ => Ok(Value::Null),
    }
}

/// Appends a cell to a line of text, padded to the width of its column.
fn put_aligned(
    line: &mut Vec<u8>,
    gap: usize,
    column: &Column,
    text: &[u8],
) -> Result<usize, AllocError> {
    let Column(_, width, side) = column;
    let room = width.saturating_sub(text.len());
    if text.is_empty() {
        return Ok(gap.saturating_add(*width));
    }
    match side {
        Side::Left | Side::Time => {
            pad(line, gap)?;
            line.extend_from_slice(text)?;
            Ok(room)
        }
        Side::Right => {
            pad(line, gap.saturating_add(room))?;
            line.extend_from_slice(text)?;
            Ok(0)
        }
    }
}

impl<'a, W: Write + Drop> Sheet<'a, W> {
    /// A sheet of tables in this format, written to `writer`: all of them, or the one named `only`.
    pub fn new(alloc: Global, format: Format, only: Option<&'a str>, writer: W) -> Self {
        Sheet {
            alloc,
            format,
            only,
            writer,
            columns: &[],
            day: 0,
            left_out: false,
            tables: 0,
            rows: 0,
        }
    }

    /// Whether a table of this name is left out.
    fn leaves_out(&self, name: &str) -> bool {
        match self.only {
            Some(only) => only != name,
            None => false,
        }
    }

    fn write(&mut self, text: &[u8]) -> Result<(), Fault>
        ensures { self.new.rows ≡ self.old.rows }
    {
        self.writer.write_all(text).map_err(unwritten)
    }

    /// Begins a table of this name.
    pub fn begin(&mut self, name: &str, columns: &'static [Column]) -> Result<(), Fault>
        ensures { OnOk result (self.new.rows ≡ 0) }
    {
        let first = self.tables == 0;
        self.rows = 0;
        self.columns = columns;
        self.left_out = self.leaves_out(name);
        if self.left_out {
            return Ok(());
        }
        self.tables = self.tables.saturating_add(1);
        match self.format {
            Format::Json => {
                self.write(if first { b"{\"" } else { b"\n],\"" })?;
                self.write(name.as_bytes())?;
                self.write(b"\":[")
            }
            Format::Table | Format::Csv => {
                if !first {
                    self.write(b"\n")?;
                }
                self.put_names()
            }
        }
    }

    /// Writes the names of the columns.
    fn put_names(&mut self) -> Result<(), Fault>
        ensures { self.new.rows ≡ self.old.rows }
    {
        let mut cells = Vec::new(self.alloc);
        for Column(name, _, _) in self.columns {
            cells.push(Cell::text(name.as_bytes()))?;
        }
        self.put_line(cells.as_slice())
    }

    /// Writes a row, unless its table is left out, and counts it.
    pub fn put(&mut self, cells: &[Cell]) -> Result<(), Fault>
        ensures { OnOk result (self.new.rows ≡ with_more self.old.rows 1) }
    {
        if !self.left_out {
            match self.format {
                Format::Table | Format::Csv => self.put_line(cells)?,
                Format::Json => self.put_object(cells)?,
            }
        }
        self.rows = self.rows.saturating_add(1);
        Ok(())
    }

    fn put_object(&mut self, cells: &[Cell]) -> Result<(), Fault>
        ensures { self.new.rows ≡ self.old.rows }
    {
        self.write(if self.rows == 0 { b"\n" } else { b",\n" })?;
        let value = self.object_of(cells)?;
        let text = value.to_string(self.alloc)?;
        self.write(text.as_bytes())
    }

    fn put_line(&mut self, cells: &[Cell]) -> Result<(), Fault>
        ensures { self.new.rows ≡ self.old.rows }
    {
        let line = match self.format {
            Format::Csv => self.record_of(cells)?,
            _ => self.text_line(cells)?,
        };
        self.write(line.as_slice())
    }

    /// The cells of a row as a JSON object.
    fn object_of(&self, cells: &[Cell]) -> Result<Value, Fault> {
        let mut members = Map::new(self.alloc);
        for (column, cell) in self.columns.iter().zip(cells) {
            let Column(name, _, side) = column;
            let value = value_of(self.alloc, cell)?;
            put(&mut members, self.alloc, name, value)?;
            if *side == Side::Time {
                let iso_name = format!(in self.alloc; "{name}-iso")?;
                let value = iso_value(self.alloc, cell)?;
                put(&mut members, self.alloc, iso_name.as_str(), value)?;
            }
        }
        Ok(Value::Object(members))
    }

    /// The cells of a row as a record of comma-separated fields.
    fn record_of(&self, cells: &[Cell]) -> Result<Vec<u8>, Fault> {
        let mut record = WriterBuilder::new().from_writer(Vec::new(self.alloc));
        for cell in cells {
            let text = text_of(self.alloc, cell)?;
            record.write_field(text.as_slice()).map_err(memory)?;
        }
        record.end_record().map_err(memory)?;
        record.into_inner().map_err(memory)
    }

    /// The text of a cell in the text format.
    fn aligned_text(&self, cell: &Cell) -> Result<Vec<u8>, AllocError> {
        match cell {
            Cell::Time(moment) => {
                let short = Short {
                    moment: *moment,
                    day: self.day,
                };
                Ok(format!(in self.alloc; "{short}")?.into_bytes())
            }
            _ => text_of(self.alloc, cell),
        }
    }

    /// The cells of a row as an aligned line.
    fn text_line(&self, cells: &[Cell]) -> Result<Vec<u8>, Fault> {
        let mut line = Vec::new(self.alloc);
        let mut gap = 0usize;
        for (column, cell) in self.columns.iter().zip(cells) {
            let text = self.aligned_text(cell)?;
            gap = put_aligned(&mut line, gap, column, text.as_slice())?.saturating_add(1);
        }
        line.push(b'\n')?;
        Ok(line)
    }

    /// Whether tables are written as aligned text.
    pub fn is_text(&self) -> bool {
        matches!(self.format, Format::Table)
    }

    /// Writes a text below or within a table in the text format.
    pub fn note(&mut self, text: &str) -> Result<(), Fault>
        ensures { self.new.rows ≡ self.old.rows }
    {
        if self.left_out {
            return Ok(());
        }
        match self.format {
            Format::Table => self.write(text.as_bytes()),
            _ => Ok(()),
        }
    }

    /// Sets the day whose times the text format writes without it, from now on: that of this time.
    pub fn set_day(&mut self, moment: Minute)
        ensures { self.new.rows ≡ self.old.rows }
    {
        self.day = moment.day().number();
    }

    /// Ends the tables.
    pub fn end(mut self) -> Result<(), Fault> {
        if let Format::Json = self.format {
            let end = if self.tables == 0 {
                b"{}\n".as_slice()
            } else {
                b"\n]}\n".as_slice()
            };
            self.write(end)?;
        }
        self.writer.flush().map_err(unwritten)
    }
}
