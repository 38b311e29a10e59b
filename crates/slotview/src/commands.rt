//! The commands and arguments of the command line.
use clap::builder::ValueParser;
use clap::{Arg, ArgAction, Command};
use flow_slots::LONGEST_PERIOD;
use std::alloc::{AllocError, Global};

const ABOUT: &str = "Shows a flight plan desk as its journal or its store tells it.\n\n\
    Reads FILE, or standard input without one: a journal, as slotdesk --journal\n\
    writes it after its answers, or a store, as slotdesk --store keeps it. What\n\
    comes before it is skipped, and what follows it isn't read. Without a command it\n\
    shows a summary. A word that is the name of a command is the command; a file of\n\
    such a name is ./NAME.";

const AFTER: &str =
    "Exit status: 0 if it was shown, or its reader has gone; 1 if reading or writing\n\
    fails, the file can't be opened, the input has no journal, or there is no such\n\
    regulation, flight or entry; 2 for a bad command line, or if allocation fails.\n\n\
    Times are UTC. The desk of a day, a slot list after entry 12, and a page:\n  \
    slotdesk --start 2409010500 --journal < day.txt > answers.txt\n  \
    slotview answers.txt\n  \
    slotview --at 12 list RMZ01 answers.txt\n  \
    slotview page answers.txt > day.html";

/// The version of the program.
const VERSION: &str = "0.1.0";

fn format_argument<'a>(alloc: Global) -> Arg<'a> {
    Arg::new(alloc, "format")
        .long("format")
        .value_name("FORMAT")
        .default_value("table")
        .value_parser(["table", "csv", "json"].as_slice())
        .global(true)
        .hide_possible_values(true)
        .help("Format of tables: table, csv or json")
}

fn table_argument<'a>(alloc: Global) -> Arg<'a> {
    Arg::new(alloc, "table")
        .long("table")
        .value_name("NAME")
        .global(true)
        .help("Writes the table of this name alone")
}

fn at_argument<'a>(alloc: Global) -> Arg<'a> {
    Arg::new(alloc, "at")
        .long("at")
        .value_name("WHEN")
        .global(true)
        .help("The desk after entry N, from 0, or at yymmddhhmm")
}

fn file_argument<'a>(alloc: Global) -> Arg<'a> {
    Arg::new(alloc, "file")
        .value_name("FILE")
        .help("What is read instead of standard input")
}

fn regulation_argument<'a>(alloc: Global) -> Arg<'a> {
    Arg::new(alloc, "regulation")
        .value_name("REGULATION")
        .help("Its name, or NAME@ENTRY as that entry opened it")
}

fn svg_argument<'a>(alloc: Global) -> Arg<'a> {
    Arg::new(alloc, "svg")
        .long("svg")
        .action(ArgAction::SetTrue)
        .help("Draws them as an SVG document, without --format")
}

fn step_argument<'a>(alloc: Global, minutes: &'a str) -> Arg<'a> {
    Arg::new(alloc, "step")
        .long("step")
        .value_name("MIN")
        .default_value(minutes)
        .value_parser(ValueParser::unsigned(1, LONGEST_PERIOD as u64))
        .help("The minutes of a step, 1 to 1440")
}

fn list_command<'a>(alloc: Global) -> Result<Command<'a>, AllocError> {
    Command::new(alloc, "list")
        .about("Slot lists: the held slots of one regulation, or of all")
        .arg(regulation_argument(alloc))?
        .arg(file_argument(alloc))
}

fn flight_command<'a>(alloc: Global) -> Result<Command<'a>, AllocError> {
    Command::new(alloc, "flight")
        .about("A flight: its plans, its slots, and what was filed and said about it")
        .arg(
            Arg::new(alloc, "identification")
                .value_name("IDENTIFICATION")
                .required(true)
                .help("The identification, as AAA1"),
        )?
        .arg(file_argument(alloc))
}

fn load_command<'a>(alloc: Global) -> Result<Command<'a>, AllocError> {
    Command::new(alloc, "load")
        .about("Demand and slots of a regulation, by steps of time")
        .arg(regulation_argument(alloc).required(true))?
        .arg(file_argument(alloc))?
        .arg(step_argument(alloc, "20"))?
        .arg(svg_argument(alloc))
}

fn kind_argument<'a>(alloc: Global) -> Arg<'a> {
    Arg::new(alloc, "kind")
        .value_name("KIND")
        .required(true)
        .help("DEP or ARR for an aerodrome, VIA for a route point")
}

fn place_argument<'a>(alloc: Global) -> Arg<'a> {
    Arg::new(alloc, "place")
        .value_name("POINT")
        .required(true)
        .help("The aerodrome or route point")
}

fn count_command<'a>(alloc: Global) -> Result<Command<'a>, AllocError> {
    Command::new(alloc, "count")
        .about("How many flights enter an aerodrome or route point, regulated or not")
        .arg(kind_argument(alloc))?
        .arg(place_argument(alloc))?
        .arg(file_argument(alloc))?
        .arg(
            Arg::new(alloc, "from")
                .long("from")
                .value_name("TIME")
                .help("When it begins, yymmddhhmm; else with the desk's day"),
        )?
        .arg(
            Arg::new(alloc, "to")
                .long("to")
                .value_name("TIME")
                .requires_arg("from")?
                .help("When it ends, yymmddhhmm; else a day later"),
        )?
        .arg(step_argument(alloc, "60"))?
        .arg(
            Arg::new(alloc, "slide")
                .long("slide")
                .value_name("MIN")
                .value_parser(ValueParser::unsigned(1, LONGEST_PERIOD as u64))
                .help("From one step to the next, without it a step"),
        )?
        .arg(svg_argument(alloc))
}

fn sweep_command<'a>(alloc: Global) -> Result<Command<'a>, AllocError> {
    Command::new(alloc, "sweep")
        .about("What a regulation would do at several rates, without opening it")
        .arg(kind_argument(alloc))?
        .arg(place_argument(alloc))?
        .arg(
            Arg::new(alloc, "from")
                .value_name("FROM")
                .required(true)
                .help("The start of its period, yymmddhhmm"),
        )?
        .arg(
            Arg::new(alloc, "to")
                .value_name("TO")
                .required(true)
                .help("Its end, yymmddhhmm"),
        )?
        .arg(file_argument(alloc))?
        .arg(
            Arg::new(alloc, "rates")
                .long("rates")
                .value_name("A..B")
                .required(true)
                .help("The rates, flights an hour, both included"),
        )?
        .arg(svg_argument(alloc))
}

fn refused_command<'a>(alloc: Global) -> Result<Command<'a>, AllocError> {
    Command::new(alloc, "refused")
        .about("Refused filings: why, the word at fault, and the text")
        .arg(file_argument(alloc))
}

fn page_command<'a>(alloc: Global) -> Result<Command<'a>, AllocError> {
    Command::new(alloc, "page")
        .about("A page of the day: one HTML document with all tables and pictures")
        .arg(file_argument(alloc))
}

/// Adds the commands that show plans and regulations.
fn with_views<'a>(alloc: Global, command: Command<'a>) -> Result<Command<'a>, AllocError> {
    command
        .subcommand(list_command(alloc)?)?
        .subcommand(flight_command(alloc)?)?
        .subcommand(load_command(alloc)?)
}

/// Adds the commands that show points, refusals and all of a day.
fn with_further_views<'a>(alloc: Global, command: Command<'a>) -> Result<Command<'a>, AllocError> {
    command
        .subcommand(count_command(alloc)?)?
        .subcommand(sweep_command(alloc)?)?
        .subcommand(refused_command(alloc)?)?
        .subcommand(page_command(alloc)?)
}

/// The program's own arguments.
fn program<'a>(alloc: Global) -> Result<Command<'a>, AllocError> {
    Command::new(alloc, "slotview")
        .about(ABOUT)
        .version(VERSION)
        .after_help(AFTER)
        .disable_help_subcommand(true)
        .arg(file_argument(alloc))?
        .arg(at_argument(alloc))?
        .arg(format_argument(alloc))?
        .arg(table_argument(alloc))
}

/// The command line of the program.
pub fn command<'a>(alloc: Global) -> Result<Command<'a>, AllocError> {
    let command = with_views(alloc, program(alloc)?)?;
    with_further_views(alloc, command)
}
