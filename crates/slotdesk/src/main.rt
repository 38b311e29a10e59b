//! The flight plan desk as a program: filings on standard input, answers on standard output.
#![tactic(auto)]

mod desk_file;
mod fault;
mod feeds;
mod late;
mod live;
mod options;
mod run;
mod start;
mod stored;
mod stores;
mod system;

use command_line::read_words;
use feeds::SystemFeeds;
use run::{run_words, tell_no_memory, tell_words};
use std::io;
use std::process::ExitCode;
use stores::SystemStores;
use system::System;

/// The capacity of the buffer of answers, in bytes.
const WRITTEN_AT_ONCE: usize = 65_536;

fn main(rt: HostRuntime) -> ExitCode {
    let mut errors = rt.stderr();
    let words = match read_words(rt.alloc(), &rt) {
        Ok(words) => words,
        Err(fault) => return ExitCode::from(tell_words(&fault, &mut errors)),
    };
    let Ok(answers) = io::BufWriter::with_capacity(rt.alloc(), WRITTEN_AT_ONCE, rt.stdout()) else {
        return ExitCode::from(tell_no_memory(&mut errors));
    };
    let stores = SystemStores { rt: &rt };
    let feeds = SystemFeeds { rt: &rt };
    let system = System {
        rt: &rt,
        wait: &rt,
        stores: &stores,
        feeds: &feeds,
    };
    let status = run_words(&system, &words, rt.stdin(), answers, &mut errors);
    ExitCode::from(status)
}
