//! The filings that were refused.
use crate::course::Course;
use crate::fault::Fault;
use crate::fault_word::word_at_fault;
use crate::sheet::{Cell, Column, Sheet, Side};
use command_line::readable_form;
use flow_core::{Core, Entry, Verdict};
use fpl_message::Refusal;
use fpl_text::Minute;
use std::alloc::{AllocError, Global};
use std::io::Write;

static COLUMNS: [Column; 7] = [
    Column("entry", 7, Side::Right),
    Column("time", 10, Side::Time),
    Column("number", 6, Side::Right),
    Column("reason", 20, Side::Left),
    Column("detail", 6, Side::Right),
    Column("word", 20, Side::Left),
    Column("text", 60, Side::Left),
];

/// The columns in the text format, 80 characters wide.
static IN_TEXT: [Column; 5] = [
    Column("entry", 7, Side::Right),
    Column("time", 10, Side::Time),
    Column("reason", 16, Side::Left),
    Column("word", 20, Side::Left),
    Column("text", 23, Side::Left),
];

/// The greatest lengths of a word and of a text in the text format, in characters.
const WORD_SIGNS: usize = 20;

const TEXT_SIGNS: usize = 23;

/// Bytes as one line of text: blanks become spaces, and what is no character of UTF-8 is escaped.
fn line_of(alloc: Global, bytes: &[u8]) -> Result<String, AllocError> {
    let readable = readable_form(alloc, bytes)?;
    let mut line = String::new(alloc);
    for letter in readable.as_str().chars() {
        line.push(if letter.is_control() { ' ' } else { letter })?;
    }
    Ok(line)
}

/// A text of at most `most` characters: a longer one is cut, and ends with two dots.
fn shortened(alloc: Global, text: &str, most: usize) -> Result<String, AllocError> {
    let mut line = String::new(alloc);
    if text.chars().count() <= most {
        line.push_str(text)?;
        return Ok(line);
    }
    for letter in text.chars().take(most.saturating_sub(2)) {
        line.push(letter)?;
    }
    line.push_str("..")?;
    Ok(line)
}

/// The name of a reason, with its detail.
fn reason_text(alloc: Global, refusal: Refusal) -> Result<String, AllocError> {
    let name = str::from_utf8(refusal.name()).unwrap_or("");
    match refusal.detail() {
        Some(detail) => format!(in alloc; "{name} {detail}"),
        None => String::from_str(alloc, name),
    }
}

/// A refused filing: its entry, the desk's time then, why, and what is at fault.
#[derive(Drop)]
struct Refused<'a> {
    entry: Entry<'a>,
    time: Minute,
    refusal: Refusal,
    word: Vec<u8>,
}

/// Writes a refused filing in the text format.
fn put_in_text<W: Write + Drop>(
    alloc: Global,
    sheet: &mut Sheet<'_, W>,
    refused: &Refused<'_>,
) -> Result<(), Fault> {
    let word = line_of(alloc, refused.word.as_slice())?;
    let text = line_of(alloc, refused.entry.text())?;
    sheet.put(&[
        Cell::number(refused.entry.receipt().number),
        Cell::Moment(refused.time),
        Cell::long(reason_text(alloc, refused.refusal)?),
        Cell::long(shortened(alloc, word.as_str(), WORD_SIGNS)?),
        Cell::long(shortened(alloc, text.as_str(), TEXT_SIGNS)?),
    ])
}

/// Writes a refused filing whole.
fn put_whole<W: Write + Drop>(
    alloc: Global,
    sheet: &mut Sheet<'_, W>,
    refused: &Refused<'_>,
) -> Result<(), Fault> {
    let refusal = refused.refusal;
    let detail = match refusal.detail() {
        Some(detail) => Cell::Number(detail as u64),
        None => Cell::Blank,
    };
    sheet.put(&[
        Cell::number(refused.entry.receipt().number),
        Cell::Moment(refused.time),
        Cell::number(refusal.number()),
        Cell::text(refusal.name()),
        detail,
        Cell::long(readable_form(alloc, refused.word.as_slice())?),
        Cell::long(readable_form(alloc, refused.entry.text())?),
    ])
}

/// Writes an entry, if it was refused.
fn put_entry<W: Write + Drop>(
    alloc: Global,
    sheet: &mut Sheet<'_, W>,
    core: &Core,
    entry: Entry<'_>,
    time: Minute,
) -> Result<(), Fault> {
    let Verdict::Refused(refusal) = entry.receipt().verdict else {
        return Ok(());
    };
    let word = word_at_fault(alloc, entry.text(), refusal, core.setup().max_plans())?;
    let refused = Refused {
        entry,
        time,
        refusal,
        word,
    };
    if sheet.is_text() {
        put_in_text(alloc, sheet, &refused)
    } else {
        put_whole(alloc, sheet, &refused)
    }
}

/// Writes the refused filings of a journal.
pub fn put_all_refused<W: Write + Drop>(
    alloc: Global,
    sheet: &mut Sheet<'_, W>,
    core: &Core,
) -> Result<(), Fault> {
    if sheet.is_text() {
        sheet.begin("refused", &IN_TEXT)?;
    } else {
        sheet.begin("refused", &COLUMNS)?;
    }
    let mut course = Course::new(alloc, core);
    for index in 0..core.entries() {
        let Some(entry) = core.entry(index + 1) else {
            break;
        };
        course.pass(&entry)?;
        put_entry(alloc, sheet, core, entry, course.time())?;
    }
    Ok(())
}
