//! Reads what the arguments ask for.
use crate::commands::command;
use crate::words::{GREATEST_RATE, entry_of, may_be_name, moment_of, rates_of, spot_of};
use clap::error::ErrorKind;
use clap::parser::ValueSource;
use clap::{ArgMatches, Command, Error};
use flow_plans::MAX_ENTRIES;
use flow_slots::LONGEST_PERIOD;
use fpl_message::Spot;
use fpl_text::Minute;
use std::alloc::{AllocError, Global};

/// The faults of a picture or a page that is asked for as a table.
const SVG_WITH_FORMAT: &str = "the argument '--svg' cannot be used with '--format <FORMAT>'";

const SVG_WITH_TABLE: &str = "the argument '--svg' cannot be used with '--table <NAME>'";

const PAGE_WITH_FORMAT: &str = "'page' cannot be used with '--format <FORMAT>'";

const PAGE_WITH_TABLE: &str = "'page' cannot be used with '--table <NAME>'";

/// The format of tables.
#[derive(Clone, Copy)]
pub enum Format {
    Table,
    Csv,
    Json,
}

/// The time at which a desk is shown.
#[derive(Clone, Copy)]
pub enum At {
    /// After the entry of this number.
    Entry(u32),
    /// When its time was last at or before this time.
    Moment(Minute),
}

/// The period of counts, and its windows.
#[derive(Clone, Copy)]
pub struct Asked {
    pub spot: Spot,
    /// `None` for the midnight before the desk's time.
    pub from: Option<Minute>,
    /// `None` for the longest period after the beginning.
    pub to: Option<Minute>,
    pub step: u32,
    pub slide: u32,
}

/// A regulation that isn't opened, and the first and the last of its rates.
#[derive(Clone, Copy)]
pub struct WhatIf<'a> {
    pub kind: &'a str,
    pub place: &'a str,
    pub from: &'a str,
    pub to: &'a str,
    pub first: u32,
    pub last: u32,
}

/// What is to be shown.
#[derive(Clone, Copy)]
pub enum Shown<'a> {
    Summary,
    /// The slot list of the regulation of this name, or those of all.
    List { id: Option<&'a str> },
    /// The plans of the flight of this identification.
    Flight { ident: &'a str },
    /// Demand and slots of the regulation of this name, in steps of this number of minutes.
    Load { id: &'a str, step: u32 },
    /// The same as a picture.
    Chart { id: &'a str, step: u32 },
    /// How many flights enter a point, as a table or as a picture.
    Count { asked: Asked, svg: bool },
    /// What a regulation would do at several rates, as a table or as a picture.
    Sweep { what_if: WhatIf<'a>, svg: bool },
    /// The refused filings.
    Refused,
    /// All of it as a page.
    Page,
}

impl Shown<'_> {
    /// The names of its tables.
    fn tables(&self) -> &'static [&'static str] {
        match self {
            Shown::Summary => &["desk", "regulations", "delays", "histogram", "delayed"],
            Shown::List { .. } => &["slots"],
            Shown::Flight { .. } => &["plans", "slots", "said"],
            Shown::Load { .. } => &["load"],
            Shown::Count { .. } => &["counts"],
            Shown::Sweep { .. } => &["sweep"],
            Shown::Refused => &["refused"],
            Shown::Chart { .. } | Shown::Page => &[],
        }
    }

    /// Whether a picture is asked for.
    fn is_picture(&self) -> bool {
        match self {
            Shown::Chart { .. } => true,
            Shown::Count { svg, .. } => *svg,
            Shown::Sweep { svg, .. } => *svg,
            _ => false,
        }
    }
}

/// What the arguments ask for.
#[derive(Clone, Copy)]
pub struct Options<'a> {
    pub shown: Shown<'a>,
    /// The file that is read. `None` for standard input.
    pub file: Option<&'a str>,
    /// The time at which the desk is shown. `None` for after the last entry.
    pub at: Option<At>,
    pub format: Format,
    /// The table that alone is written.
    pub table: Option<&'a str>,
}

/// A value that can't be used, by what it was given for.
#[derive(Drop)]
enum Wrong<'a> {
    Place(&'a str),
    /// The beginning or the end of a period.
    Begin(&'a str),
    End(&'a str),
    /// An end that the beginning doesn't allow.
    Period(&'a str),
    Rates(&'a str),
    When(&'a str),
    OutOfMemory,
}

impl<'a> Wrong<'a> {
    /// The value, and its argument.
    fn parts(&self) -> Option<(&'a str, &'static str)> {
        match self {
            Wrong::Place(value) => Some((*value, "<POINT>")),
            Wrong::Begin(value) => Some((*value, "--from <TIME>")),
            Wrong::End(value) => Some((*value, "--to <TIME>")),
            Wrong::Period(value) => Some((*value, "--to <TIME>")),
            Wrong::Rates(value) => Some((*value, "--rates <A..B>")),
            Wrong::When(value) => Some((*value, "--at <WHEN>")),
            Wrong::OutOfMemory => None,
        }
    }

    /// Why it can't be used.
    fn reason(&self, alloc: Global) -> Result<String, AllocError> {
        match self {
            Wrong::Place(_) => String::from_str(alloc, "no OPEN has it after that kind"),
            Wrong::Begin(_) => String::from_str(alloc, "it is no time yymmddhhmm"),
            Wrong::End(_) => String::from_str(alloc, "it is no time yymmddhhmm"),
            Wrong::Period(_) => {
                format!(in alloc; "it isn't 1 to {LONGEST_PERIOD} minutes after the beginning")
            }
            Wrong::Rates(_) => {
                format!(in alloc; "it is no A..B with A at most B, and B at most {GREATEST_RATE}")
            }
            Wrong::When(_) => {
                format!(in alloc; "it is no entry, 0 to {MAX_ENTRIES}, and no time yymmddhhmm")
            }
            Wrong::OutOfMemory => Err(AllocError),
        }
    }
}

impl From<AllocError> for Wrong<'_> {
    fn from(_: AllocError) -> Self {
        Wrong::OutOfMemory
    }
}

fn format_of(word: Option<&str>) -> Format {
    match word {
        Some("csv") => Format::Csv,
        Some("json") => Format::Json,
        _ => Format::Table,
    }
}

fn load_by<'a>(matches: &ArgMatches<'a>) -> Shown<'a> {
    let id = matches.get_str("regulation").unwrap_or("");
    let step = matches.get_one::<u32>("step").unwrap_or(20);
    if matches.get_flag("svg") {
        Shown::Chart { id, step }
    } else {
        Shown::Load { id, step }
    }
}

/// What `list` asks for, and the file that is read. A single word is a file if it can't be the name
/// of a regulation.
fn list_by<'a>(matches: &ArgMatches<'a>) -> (Shown<'a>, Option<&'a str>) {
    let id = matches.get_str("regulation");
    let file = matches.get_str("file");
    match (id, file) {
        (Some(word), None) if !may_be_name(word) => (Shown::List { id: None }, Some(word)),
        (id, file) => (Shown::List { id }, file),
    }
}

/// The time that an argument gives, if it is there; the word as the error if it is none.
fn moment_by<'a>(matches: &ArgMatches<'a>, id: &str) -> Result<Option<Minute>, &'a str> {
    let Some(word) = matches.get_str(id) else {
        return Ok(None);
    };
    match moment_of(word) {
        Some(moment) => Ok(Some(moment)),
        None => Err(word),
    }
}

/// The period that `count` asks for.
fn period_by<'a>(matches: &ArgMatches<'a>) -> Result<(Option<Minute>, Option<Minute>), Wrong<'a>> {
    let from = match moment_by(matches, "from") {
        Ok(from) => from,
        Err(word) => return Err(Wrong::Begin(word)),
    };
    let to = match moment_by(matches, "to") {
        Ok(to) => to,
        Err(word) => return Err(Wrong::End(word)),
    };
    if let (Some(from), Some(to)) = (from, to) {
        let minutes = to.minutes().saturating_sub(from.minutes());
        if minutes == 0 || minutes > LONGEST_PERIOD {
            return Err(Wrong::Period(matches.get_str("to").unwrap_or("")));
        }
    }
    Ok((from, to))
}

/// What `count` asks for.
fn count_by<'a>(alloc: Global, matches: &ArgMatches<'a>) -> Result<Shown<'a>, Wrong<'a>> {
    let kind = matches.get_str("kind").unwrap_or("");
    let place = matches.get_str("place").unwrap_or("");
    let Some(spot) = spot_of(alloc, kind, place)? else {
        return Err(Wrong::Place(place));
    };
    let (from, to) = period_by(matches)?;
    let step = matches.get_one::<u32>("step").unwrap_or(60);
    let asked = Asked {
        spot,
        from,
        to,
        step,
        slide: matches.get_one::<u32>("slide").unwrap_or(step),
    };
    let svg = matches.get_flag("svg");
    Ok(Shown::Count { asked, svg })
}

/// What `sweep` asks for.
fn sweep_by<'a>(matches: &ArgMatches<'a>) -> Result<Shown<'a>, Wrong<'a>> {
    let rates = matches.get_str("rates").unwrap_or("");
    let Some((first, last)) = rates_of(rates) else {
        return Err(Wrong::Rates(rates));
    };
    let what_if = WhatIf {
        kind: matches.get_str("kind").unwrap_or(""),
        place: matches.get_str("place").unwrap_or(""),
        from: matches.get_str("from").unwrap_or(""),
        to: matches.get_str("to").unwrap_or(""),
        first,
        last,
    };
    let svg = matches.get_flag("svg");
    Ok(Shown::Sweep { what_if, svg })
}

/// What is asked for, and the file that is read.
fn shown_by<'a>(
    alloc: Global,
    matches: &ArgMatches<'a>,
) -> Result<(Shown<'a>, Option<&'a str>), Wrong<'a>> {
    let Some((name, inner)) = matches.subcommand() else {
        return Ok((Shown::Summary, matches.get_str("file")));
    };
    let file = inner.get_str("file");
    match name {
        "list" => Ok(list_by(inner)),
        "flight" => {
            let ident = inner.get_str("identification").unwrap_or("");
            Ok((Shown::Flight { ident }, file))
        }
        "load" => Ok((load_by(inner), file)),
        "count" => match count_by(alloc, inner) {
            Ok(shown) => Ok((shown, file)),
            Err(wrong) => Err(wrong),
        },
        "sweep" => match sweep_by(inner) {
            Ok(shown) => Ok((shown, file)),
            Err(wrong) => Err(wrong),
        },
        "refused" => Ok((Shown::Refused, file)),
        "page" => Ok((Shown::Page, file)),
        _ => Ok((Shown::Summary, file)),
    }
}

/// The time at which the desk is shown.
fn at_by<'a>(matches: &ArgMatches<'a>) -> Result<Option<At>, Wrong<'a>> {
    let Some(word) = matches.get_str("at") else {
        return Ok(None);
    };
    if let Some(moment) = moment_of(word) {
        return Ok(Some(At::Moment(moment)));
    }
    match entry_of(word) {
        Some(number) => Ok(Some(At::Entry(number))),
        None => Err(Wrong::When(word)),
    }
}

/// The fault of a table or a format that doesn't fit what is shown, if there is one.
fn unfit(matches: &ArgMatches<'_>, shown: &Shown<'_>) -> Option<&'static str> {
    let formatted = matches.value_source("format") == Some(ValueSource::CommandLine);
    let is_page = matches!(shown, Shown::Page);
    if !is_page && !shown.is_picture() {
        return None;
    }
    if formatted {
        return Some(if is_page {
            PAGE_WITH_FORMAT
        } else {
            SVG_WITH_FORMAT
        });
    }
    if matches.contains_id("table") {
        return Some(if is_page {
            PAGE_WITH_TABLE
        } else {
            SVG_WITH_TABLE
        });
    }
    None
}

/// The text of the fault of a table that isn't there.
fn no_table(alloc: Global, shown: &Shown<'_>, name: &str) -> Result<String, AllocError> {
    let mut text = format!(in alloc; "invalid value '{name}' for '--table <NAME>'\n  [tables:")?;
    for (index, table) in shown.tables().iter().enumerate() {
        text.push_str(if index == 0 { " " } else { ", " })?;
        text.push_str(table)?;
    }
    text.push_str("]")?;
    Ok(text)
}

/// The error for a value that can't be used.
fn error_of(
    alloc: Global,
    command: &mut Command<'_>,
    wrong: Wrong<'_>,
) -> Result<Error, AllocError> {
    let Some((value, argument)) = wrong.parts() else {
        return Err(AllocError);
    };
    let reason = wrong.reason(alloc)?;
    let reason = reason.as_str();
    let text = format!(in alloc; "invalid value '{value}' for '{argument}': {reason}")?;
    command.error(ErrorKind::ValueValidation, text.as_str())
}

/// Reads the arguments, of which the first is the program's name.
pub fn read_options<'a>(alloc: Global, words: &'a [String]) -> Result<Options<'a>, Error> {
    let mut command = command(alloc)?;
    let matches = command.try_get_matches_from_mut(words)?;
    let (shown, file) = match shown_by(alloc, &matches) {
        Ok(shown) => shown,
        Err(wrong) => return Err(error_of(alloc, &mut command, wrong)?),
    };
    let at = match at_by(&matches) {
        Ok(at) => at,
        Err(wrong) => return Err(error_of(alloc, &mut command, wrong)?),
    };
    if let Some(text) = unfit(&matches, &shown) {
        return Err(command.error(ErrorKind::ArgumentConflict, text)?);
    }
    let table = matches.get_str("table");
    if let Some(name) = table {
        if !shown.tables().contains(&name) {
            let text = no_table(alloc, &shown, name)?;
            return Err(command.error(ErrorKind::InvalidValue, text.as_str())?);
        }
    }
    Ok(Options {
        shown,
        file,
        at,
        format: format_of(matches.get_str("format")),
        table,
    })
}
