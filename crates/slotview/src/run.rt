//! A run of the program.
ghost use Rattle.std.specs.Prelude.{◌≤◌};

use crate::chart::put_chart;
use crate::count::put_counts;
use crate::count_chart::put_count_chart;
use crate::fault::{DONE, Fault, NOT_RUN, tell, unwritten};
use crate::flight::put_flight;
use crate::input::open_input;
use crate::list::put_lists;
use crate::load::put_loads;
use crate::named::{named, tell_flights};
use crate::options::{Asked, At, Options, Shown, WhatIf, read_options};
use crate::page::put_page;
use crate::refused::put_all_refused;
use crate::sheet::Sheet;
use crate::source::{Held, Source};
use crate::summary::put_summary;
use crate::sweep::{put_sweep, sweep_of};
use crate::sweep_chart::put_sweep_chart;
use clap::Error;
use clap::error::ErrorKind;
use flow_core::{Core, Counted, JournalFault, read_journal, read_stored};
use flow_view::{Swept, desk_at, openings_of};
use std::alloc::Global;
use std::fs::Files;
use std::io::{BufRead, BufReader, Read, Write};
use std::mem::ManuallyDrop;

/// Shows what the arguments ask for, of which the first is the program's name, and returns the exit
/// status: 0 if it was shown, 1 if a device failed or it isn't there, 2 if nothing could be run.
///
/// Reads the file that the arguments name, or `reader`. The view goes to `writer`, the line of a
/// fault and the text for a bad command line to `errors`. The command line is checked before a byte
/// is read.
pub fn run_words<F: Files, R: Read + Drop, W: Write + Drop, E: Write>(
    files: &F,
    alloc: Global,
    words: &[String],
    reader: R,
    mut writer: W,
    errors: &mut E,
) -> u8
    ensures { result ≤ 2 }
{
    let options = match read_options(alloc, words) {
        Ok(options) => options,
        Err(error) => return tell_usage(&error, &mut writer, errors),
    };
    let input = match open_input(files, options.file, reader, errors) {
        Ok(input) => input,
        Err(fault) => return tell(fault, errors),
    };
    match show(alloc, &options, input, writer, errors) {
        Ok(()) => DONE,
        Err(fault) => tell(fault, errors),
    }
}

/// Reads the journal, and shows what is asked for.
fn show<R: Read + Drop, W: Write + Drop, E: Write>(
    alloc: Global,
    options: &Options<'_>,
    reader: R,
    writer: W,
    errors: &mut E,
) -> Result<(), Fault> {
    let mut core = read_desk(alloc, reader)?;
    let shown = match options.at {
        Some(at) => show_past(alloc, options, &core, at, writer, errors),
        None => show_desk(alloc, options, &mut core, writer, errors),
    };
    // The process ends now, and the system frees its memory whole.
    let _kept = ManuallyDrop::new(core);
    shown
}

/// Shows what is asked for of the desk as it was at the time that is asked for.
fn show_past<W: Write + Drop, E: Write>(
    alloc: Global,
    options: &Options<'_>,
    core: &Core,
    at: At,
    writer: W,
    errors: &mut E,
) -> Result<(), Fault> {
    let mut past = match at {
        At::Entry(count) => past_of(alloc, core, count, errors)?,
        At::Moment(moment) => desk_at(alloc, core, moment)?,
    };
    show_desk(alloc, options, &mut past, writer, errors)
}

/// The desk as it was after the first `count` entries.
fn past_of<E: Write>(
    alloc: Global,
    core: &Core,
    count: u32,
    errors: &mut E,
) -> Result<Core, Fault> {
    let entries = core.entries();
    if count > entries {
        let _told = writeln!(errors, "slotview: no entry {count}, there are {entries}");
        return Err(Fault::NotThere);
    }
    Ok(core.replay_to(alloc, count)?)
}

/// Reads the desk of the journal or the store in the input.
fn read_desk<R: Read + Drop>(alloc: Global, reader: R) -> Result<Core, Fault> {
    let Ok(reader) = BufReader::new(alloc, reader) else {
        return Err(Fault::OutOfMemory);
    };
    let mut source = Source::new(reader);
    let held = match source.find() {
        Ok(Some(held)) => held,
        Ok(None) => {
            return Err(Fault::BadJournal { at: source.place() });
        }
        Err(_) => return Err(Fault::Read),
    };
    match read_held(alloc, held, &mut source) {
        Ok(core) => Ok(core),
        Err(JournalFault::Read) => Err(Fault::Read),
        Err(JournalFault::NotAJournal) => Err(Fault::BadJournal { at: source.place() }),
        Err(JournalFault::OutOfMemory) => Err(Fault::OutOfMemory),
    }
}

/// Reads the desk of a journal text, or of the text of a store up to its gate.
fn read_held<R: BufRead>(
    alloc: Global,
    held: Held,
    source: &mut Source<R>,
) -> Result<Core, JournalFault> {
    let mut reader = Counted::new(source);
    match held {
        Held::Journal => read_journal(alloc, &mut reader),
        Held::Store => {
            let (core, _end) = read_stored(alloc, &mut reader)?;
            Ok(core)
        }
    }
}

/// Shows what is asked for of a desk.
fn show_desk<W: Write + Drop, E: Write>(
    alloc: Global,
    options: &Options<'_>,
    core: &mut Core,
    writer: W,
    errors: &mut E,
) -> Result<(), Fault> {
    match &options.shown {
        Shown::Sweep { what_if, svg } => {
            let lines = sweep_of(alloc, core, what_if, errors)?;
            show_sweep(alloc, options, what_if, lines.as_slice(), *svg, writer)
        }
        Shown::Page => put_page(alloc, writer, core),
        Shown::Chart { id, step } => show_chart(alloc, core, id, *step, writer, errors),
        Shown::Count { asked, svg: true } => show_count_chart(alloc, core, asked, writer),
        _ => show_tables(alloc, options, core, writer, errors),
    }
}

/// Shows what is asked for as tables.
fn show_tables<W: Write + Drop, E: Write>(
    alloc: Global,
    options: &Options<'_>,
    core: &Core,
    writer: W,
    errors: &mut E,
) -> Result<(), Fault> {
    let mut sheet = Sheet::new(alloc, options.format, options.table, writer);
    match &options.shown {
        Shown::Flight { ident } => {
            if !put_flight(alloc, &mut sheet, core, ident)? {
                tell_flights(alloc, core, ident, errors)?;
                return Err(Fault::NotThere);
            }
        }
        Shown::Count { asked, .. } => put_counts(alloc, &mut sheet, core, asked)?,
        Shown::Refused => put_all_refused(alloc, &mut sheet, core)?,
        shown => put_openings(alloc, &mut sheet, shown, core, errors)?,
    }
    sheet.end()
}

/// Writes what is asked for of regulations, including those that were shut.
fn put_openings<W: Write + Drop, E: Write>(
    alloc: Global,
    sheet: &mut Sheet<'_, W>,
    shown: &Shown<'_>,
    core: &Core,
    errors: &mut E,
) -> Result<(), Fault> {
    let openings = openings_of(alloc, core)?;
    let all = openings.as_slice();
    match shown {
        Shown::List { id: None } => put_lists(alloc, sheet, all),
        Shown::List { id: Some(id) } => { put_lists(alloc, sheet, named(alloc, all, id, errors)?) }
        Shown::Load { id, step } => {
            for opening in named(alloc, all, id, errors)? {
                put_loads(alloc, sheet, opening, *step)?;
            }
            Ok(())
        }
        _ => put_summary(alloc, sheet, core, all),
    }
}

/// Draws the load of a regulation.
fn show_chart<W: Write + Drop, E: Write>(
    alloc: Global,
    core: &Core,
    id: &str,
    step: u32,
    mut writer: W,
    errors: &mut E,
) -> Result<(), Fault> {
    let openings = openings_of(alloc, core)?;
    for opening in named(alloc, openings.as_slice(), id, errors)? {
        put_chart(alloc, &mut writer, core, opening, step)?;
    }
    writer.flush().map_err(unwritten)
}

/// Draws how many flights enter a point.
fn show_count_chart<W: Write + Drop>(
    alloc: Global,
    core: &Core,
    asked: &Asked,
    mut writer: W,
) -> Result<(), Fault> {
    put_count_chart(alloc, &mut writer, core, asked)?;
    writer.flush().map_err(unwritten)
}

/// Shows what a regulation would do, as a table or as a picture.
fn show_sweep<W: Write + Drop>(
    alloc: Global,
    options: &Options<'_>,
    what_if: &WhatIf<'_>,
    lines: &[Swept],
    svg: bool,
    writer: W,
) -> Result<(), Fault> {
    if svg {
        return put_sweep_chart(alloc, writer, what_if, lines);
    }
    let mut sheet = Sheet::new(alloc, options.format, options.table, writer);
    put_sweep(&mut sheet, lines)?;
    sheet.end()
}

/// Writes what the command line parser says, the help to `writer` and a fault to `errors`.
fn tell_usage<W: Write, E: Write>(error: &Error, writer: &mut W, errors: &mut E) -> u8
    ensures { result ≤ 2 }
{
    if error.kind() == ErrorKind::OutOfMemory {
        return tell(Fault::OutOfMemory, errors);
    }
    if error.use_stderr() {
        let _told = write!(errors, "{error}");
        let _flushed = errors.flush();
        return NOT_RUN;
    }
    if let Err(failed) = write!(writer, "{error}") {
        return tell(unwritten(failed), errors);
    }
    match writer.flush() {
        Ok(()) => DONE,
        Err(failed) => tell(unwritten(failed), errors),
    }
}
