//! Why a text or a field is refused.

ghost use Rattle.fpl_text.specs.declared.fault.TextFault.TheVariants.{OutOfMemory};
ghost use Rattle.std.specs.Prelude.{◌≡◌};

use std::alloc::AllocFailed;
use thiserror::Error;

/// Why a text isn't cut into fields, in the order of the checks.
#[derive(Clone, Copy, Debug, PartialEq, Eq, Error)]
pub enum TextFault {
    /// A text of blanks alone.
    #[error("nothing but blanks")]
    Empty,
    /// The byte at this offset of the text as filed, counted from 0, is no accepted character.
    #[error("byte {0} is not accepted")]
    BadByte(usize),
    /// The text doesn't begin with an opening bracket and end with a closing one, or has another.
    #[error("no message in one pair of brackets")]
    NoBracket,
    /// The first field does not begin with FPL, DLA, CHG, CNL or DEP.
    #[error("unknown title")]
    UnknownTitle,
    /// A message of this title doesn't have this number of fields.
    #[error("wrong number of fields")]
    FieldCount,
    #[error("out of memory")]
    OutOfMemory,
}

impl<T: Drop> From<AllocFailed<T>> for TextFault {
    ghost from_gives = { λ _ fault. fault ≡ OutOfMemory };

    fn from(_failed: AllocFailed<T>) -> TextFault {
        TextFault::OutOfMemory
    }
}

/// Why a field is refused.
#[derive(Clone, Copy, Debug, PartialEq, Eq, Error)]
pub enum FieldFault {
    /// The field of this type number doesn't have its form.
    #[error("field {0} does not have its form")]
    BadField(u8),
    #[error("out of memory")]
    OutOfMemory,
}
