//! The arguments of the command line.
ghost use Rattle.std.specs.Prelude.{◌≤◌, IsTrue};
ghost use Rattle.flow_core.specs.declared.entry.TheConstants.{MAX_FEEDERS};

use clap::builder::ValueParser;
use clap::{Arg, ArgAction, Command, Error};
use flow_core::MAX_FEEDERS;
use flow_plans::{MAX_PLANS, MAX_TAXI};
use std::alloc::{AllocError, Global};

const ABOUT: &str = "A flight plan desk with departure slots.\n\n\
    Reads ICAO flight plan messages (FPL, DLA, CHG, CNL, DEP) and the orders OPEN,\n\
    SHUT and TIME from standard input. Writes a line for each, followed by the slot\n\
    notices that it causes.";

/// The version of the program, and of the journals that it writes.
const VERSION: &str = "0.1.0 (journal version 2)";

const USAGE: &str = "slotdesk <--start <yymmddhhmm>|--resume> [OPTIONS] < FILE";

const AFTER: &str =
    "With 2 or more feeders the answers come at the end of the input. With --feeds\n\
    each NAME.in of DIR is a feeder, which is answered in NAME.out as it files, and\n\
    standard input isn't read. With --resume the taxi time and the number of plans\n\
    are those of the journal. A run that is killed writes no journal: keep what it\n\
    was given.\n\n\
    Exit status: 0 at the end of the input; 1 if reading or writing fails, the input\n\
    of --resume begins with no journal, or FILE is no sound store; 2 for a bad\n\
    command line, a bad start, bad feeds, fewer feeders than the journal has, a\n\
    store that is missing, in use or there already, or if memory or a reader's place\n\
    is refused.\n\n\
    Times are UTC. A day, the same with its journal, and going on from there:\n  \
    slotdesk --start 2409010500 < day.txt\n  \
    slotdesk --start 2409010500 --journal < day.txt > answers.txt\n  \
    sed -n '/^SLOTDESK JOURNAL/,$p' answers.txt > journal.txt\n  \
    cat journal.txt later.txt | slotdesk --resume";

/// What the arguments of the command line ask for.
#[derive(Clone, Copy)]
pub struct Options<'a> {
    /// The desk's time at the start, as it was given.
    pub start: Option<&'a str>,
    /// Whether the input begins with the journal of a desk that resumes. The start, the taxi time
    /// and the number of plans are then those of that journal.
    pub resume: bool,
    /// The name of the file of the desk's store, if one was given.
    pub store: Option<&'a str>,
    /// Whether the journal is written at the end.
    pub journal: bool,
    /// The number of feeders.
    pub feeders: u32,
    /// The name of the folder whose feeds are answered as they file, if one was given.
    pub feeds: Option<&'a str>,
    /// Minutes from off-block to take-off.
    pub taxi: u32,
    /// The number of flight plans that the desk accepts.
    pub plans: u32,
}

impl Options<'_> {
    /// Whether the words say how a new desk starts.
    pub fn is_new(&self) -> bool {
        self.resume || self.start.is_some()
    }

    /// Whether 2 to 64 feeders file. The command line refuses more.
    pub fn has_many_feeders(&self) -> bool
        ensures some { IsTrue result → 2 ≤ self.now.feeders }
        ensures most { IsTrue result → self.now.feeders ≤ MAX_FEEDERS }
    {
        2 <= self.feeders && self.feeders <= MAX_FEEDERS as u32
    }
}

fn start_argument<'a>(alloc: Global) -> Result<Arg<'a>, AllocError> {
    Arg::new(alloc, "start")
        .long("start")
        .value_name("yymmddhhmm")
        .help("The desk's time at the start, UTC, 2000 to 2098")
        .required_unless_present("resume")?
        .required_unless_present("store")
}

fn taxi_argument<'a>(alloc: Global) -> Arg<'a> {
    Arg::new(alloc, "taxi")
        .long("taxi")
        .value_name("MIN")
        .default_value("10")
        .value_parser(ValueParser::unsigned(0, MAX_TAXI as u64))
        .help("Taxi time in minutes, 0 to 120")
}

fn plans_argument<'a>(alloc: Global) -> Arg<'a> {
    Arg::new(alloc, "plans")
        .long("plans")
        .value_name("N")
        .default_value("1000")
        .value_parser(ValueParser::unsigned(1, MAX_PLANS as u64))
        .help("Plans accepted in all, 1 to 20000")
}

fn feeders_argument<'a>(alloc: Global) -> Arg<'a> {
    Arg::new(alloc, "feeders")
        .long("feeders")
        .value_name("N")
        .default_value("1")
        .value_parser(ValueParser::unsigned(1, MAX_FEEDERS as u64))
        .help("Feeders that file at once, 1 to 64")
}

fn feeds_argument<'a>(alloc: Global) -> Result<Arg<'a>, AllocError> {
    Arg::new(alloc, "feeds")
        .long("feeds")
        .value_name("DIR")
        .help("Answers each NAME.in of DIR in NAME.out")
        .conflicts_with("feeders")?
        .conflicts_with("resume")
}

fn journal_argument<'a>(alloc: Global) -> Arg<'a> {
    Arg::new(alloc, "journal")
        .long("journal")
        .action(ArgAction::SetTrue)
        .help("Writes the journal at the end of the input")
}

fn resume_argument<'a>(alloc: Global) -> Result<Arg<'a>, AllocError> {
    Arg::new(alloc, "resume")
        .long("resume")
        .action(ArgAction::SetTrue)
        .help("Goes on from the journal that begins the input")
        .conflicts_with("start")
}

fn store_argument<'a>(alloc: Global) -> Arg<'a> {
    Arg::new(alloc, "store")
        .long("store")
        .value_name("FILE")
        .help("Keeps the desk in FILE, or resumes it")
}

fn command<'a>(alloc: Global) -> Result<Command<'a>, AllocError> {
    Command::new(alloc, "slotdesk")
        .about(ABOUT)
        .version(VERSION)
        .override_usage(USAGE)
        .after_help(AFTER)
        .arg(start_argument(alloc)?)?
        .arg(taxi_argument(alloc))?
        .arg(plans_argument(alloc))?
        .arg(feeders_argument(alloc))?
        .arg(feeds_argument(alloc)?)?
        .arg(journal_argument(alloc))?
        .arg(resume_argument(alloc)?)?
        .arg(store_argument(alloc))
}

/// Reads the arguments of the command line, of which the first is the program's name.
pub fn read_options<'a>(alloc: Global, words: &'a [String]) -> Result<Options<'a>, Error> {
    let matches = command(alloc)?.try_get_matches_from(words)?;
    Ok(Options {
        start: matches.get_str("start"),
        resume: matches.get_flag("resume"),
        store: matches.get_str("store"),
        journal: matches.get_flag("journal"),
        feeders: matches.get_one::<u32>("feeders").unwrap_or(1),
        feeds: matches.get_str("feeds"),
        taxi: matches.get_one::<u32>("taxi").unwrap_or(10),
        plans: matches.get_one::<u32>("plans").unwrap_or(1000),
    })
}
