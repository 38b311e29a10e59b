//! The ways in which a run can end before all was shown.
ghost use Rattle.std.specs.Prelude.{◌≤◌};

use command_line::WordFault;
use std::alloc::{AllocError, AllocFailed};
use std::io;
use std::io::{ErrorKind, Write};

/// Exit statuses.
pub const DONE: u8 = 0;

const NOT_SHOWN: u8 = 1;

pub const NOT_RUN: u8 = 2;

/// Why not all was shown.
#[derive(Clone, Copy)]
pub enum Fault {
    Read,
    Write,
    /// The reader of the output has gone.
    ReaderGone,
    /// The input can't be a journal or a store: it shows so at this byte, counted from 0.
    BadJournal { at: u64 },
    /// What was asked for isn't there; a line has said so.
    NotThere,
    /// The desk refuses what was asked for; a line has said so.
    NotDone,
    OutOfMemory,
}

impl Fault {
    fn status(self) -> u8
        ensures { result ≤ 2 }
    {
        match self {
            Fault::ReaderGone => DONE,
            Fault::OutOfMemory => NOT_RUN,
            Fault::NotDone => NOT_RUN,
            _ => NOT_SHOWN,
        }
    }
}

impl From<AllocError> for Fault {
    fn from(_: AllocError) -> Fault {
        Fault::OutOfMemory
    }
}

impl<T: Drop> From<AllocFailed<T>> for Fault {
    fn from(_: AllocFailed<T>) -> Fault {
        Fault::OutOfMemory
    }
}

/// The fault of a failed write. A reader that has gone is no failure: it has seen what it wanted.
pub fn unwritten(error: io::Error) -> Fault {
    if error.kind() == ErrorKind::BrokenPipe {
        Fault::ReaderGone
    } else {
        Fault::Write
    }
}

/// Writes the line of a fault, and returns its status.
pub fn tell<E: Write>(fault: Fault, errors: &mut E) -> u8
    ensures { result ≤ 2 }
{
    let _told = match fault {
        Fault::Read => errors.write_all(b"slotview: read fault\n"),
        Fault::Write => errors.write_all(b"slotview: write fault\n"),
        Fault::BadJournal { at } => writeln!(errors, "slotview: bad journal at byte {at}"),
        Fault::ReaderGone | Fault::NotThere | Fault::NotDone => Ok(()),
        Fault::OutOfMemory => errors.write_all(b"slotview: out of memory\n"),
    };
    let _flushed = errors.flush();
    fault.status()
}

/// Ends a run in which allocation failed before its words were read: writes the line, and returns
/// the status.
pub fn tell_no_memory<E: Write>(errors: &mut E) -> u8
    ensures { result ≤ 2 }
{
    tell(Fault::OutOfMemory, errors)
}

/// Ends a run whose words can't be used: writes why, and returns the status.
pub fn tell_words<E: Write>(fault: &WordFault, errors: &mut E) -> u8
    ensures { result ≤ 2 }
{
    if let WordFault::OutOfMemory = fault {
        return tell(Fault::OutOfMemory, errors);
    }
    let _told = write!(errors, "{fault}");
    let _flushed = errors.flush();
    NOT_RUN
}
