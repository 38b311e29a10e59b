//! The desk at the start of a run.

use crate::fault::Fault;
use crate::options::Options;
use flow_core::{Core, Counted, read_journal};
use flow_plans::{MAX_ENTRIES, Setup};
use fpl_text::read_moment;
use std::alloc::Global;
use std::io::BufRead;

/// The desk at the start: a new one, or that of the journal that the input begins with.
pub fn desk_of<R: BufRead>(
    alloc: Global,
    options: Options<'_>,
    reader: &mut Counted<R>,
) -> Result<Core, Fault> {
    if options.resume {
        return Ok(read_journal(alloc, reader)?);
    }
    match Core::new(alloc, setup_of(options)?) {
        Ok(core) => Ok(core),
        Err(_) => Err(Fault::OutOfMemory),
    }
}

/// The setup of a new desk.
pub fn setup_of(options: Options<'_>) -> Result<Setup, Fault> {
    let Some(start) = read_moment(options.start.unwrap_or("").as_bytes()) else {
        return Err(Fault::BadStart);
    };
    match Setup::new(start, options.taxi, options.plans, MAX_ENTRIES) {
        Some(setup) => Ok(setup),
        None => Err(Fault::BadStart),
    }
}
