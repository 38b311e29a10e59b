//! The arguments of a command line.
ghost use Rattle.std.specs.Prelude.{◌<◌, IfErr, IfOk, IsUtf8, string_bytes};
ghost use Rattle.command_line.specs.Words.{IsReadable, Tells};

use crate::readable::readable_form;
use std::alloc::{AllocError, AllocFailed, Global};
use std::env::{Env, FillError};
use std::{fmt, str};

/// The capacity of the buffer for an argument, which grows if it is longer.
const FIRST_CAPACITY: usize = 256;

/// Why the arguments of a command line can't be used.
#[derive(Debug, Drop)]
pub enum WordFault {
    /// Argument `number`, counted from 1, isn't UTF-8; `shown` is its readable form.
    NotText { number: usize, shown: String },
    OutOfMemory,
}

impl From<AllocError> for WordFault {
    fn from(_: AllocError) -> WordFault {
        WordFault::OutOfMemory
    }
}

impl<T: Drop> From<AllocFailed<T>> for WordFault {
    fn from(_: AllocFailed<T>) -> WordFault {
        WordFault::OutOfMemory
    }
}

impl fmt::Display for WordFault {
    fn fmt<W: fmt::Write>(&self, f: &mut fmt::Formatter<W>) -> fmt::Result {
        match self {
            WordFault::NotText { number, shown } => {
                write!(f, "error: argument {number} isn't UTF-8: '{shown}'\n\n")?;
                f.write_str("For more information, try '--help'.\n")
            }
            WordFault::OutOfMemory => f.write_str("error: out of memory\n"),
        }
    }
}

/// Returns the arguments of the command line, of which the first is the program's name, in its
/// readable form. Returns `NotText` for the first of the others that isn't UTF-8, and `OutOfMemory`
/// if an allocation fails.
pub fn read_words<E: Env>(alloc: Global, env: &E) -> Result<Vec<String>, WordFault> {
    let mut words = Vec::new(alloc);
    for number in 0..usize::MAX {
        let Some(bytes) = read_word(alloc, env, number)? else {
            break;
        };
        words.push(text_of(alloc, number, bytes.as_slice())?)?;
    }
    Ok(words)
}

/// The bytes of argument `number`, or `None` after the last one.
fn read_word<E: Env>(alloc: Global, env: &E, number: usize) -> Result<Option<Vec<u8>>, AllocError> {
    let mut bytes = Vec::new(alloc);
    let mut capacity = FIRST_CAPACITY;
    for _ in 0..usize::BITS {
        if bytes.resize(capacity, 0u8).is_err() {
            return Err(AllocError);
        }
        match env.arg(number, bytes.as_mut_slice()) {
            Ok(length) => {
                bytes.truncate(length);
                return Ok(Some(bytes));
            }
            Err(FillError::NotPresent) => return Ok(None),
            Err(FillError::TooLong) => capacity = capacity.saturating_add(capacity),
        }
    }
    Err(AllocError)
}

/// The text of argument `number`. The program's name, number 0, is taken in its readable form.
fn text_of(alloc: Global, number: usize, bytes: &[u8]) -> Result<String, WordFault>
    ensures text { IfOk result (λ text. IsReadable bytes.now (string_bytes text)) }
    ensures taken { IfOk result (λ text. 0 < number → IsUtf8 bytes.now) }
    ensures fault { IfErr result (λ fault. Tells bytes.now number fault) }
{
    let Ok(text) = readable_form(alloc, bytes) else {
        return Err(WordFault::OutOfMemory);
    };
    if number == 0 {
        return Ok(text);
    }
    match str::from_utf8(bytes) {
        Ok(_) => Ok(text),
        Err(_) => Err(WordFault::NotText {
            number,
            shown: text,
        }),
    }
}
