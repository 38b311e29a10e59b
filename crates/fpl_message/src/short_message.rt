//! The messages DLA, CNL and DEP.
ghost use Rattle.std.specs.Prelude.{◌≢◌, ◌≤◌, length, Err};
ghost use Rattle.fpl_message.specs.Refusals.{ReturnsAs};
ghost use Rattle.fpl_message.specs.ShortMessages.{short_opening_of};

use crate::fault::Fault;
use crate::parts::{Opening, Parts, read_opening};
use fpl_text::{FieldsRef, TimeOfDay};
use std::alloc::Allocator;

/// A delay: the plan leaves its blocks at this time of day.
#[derive(Debug, Drop, PartialEq, Eq)]
pub struct Dla {
    pub parts: Parts,
    pub time: TimeOfDay,
}

/// A cancellation. The off-block time of its field 13 has no effect.
#[derive(Debug, Drop, PartialEq, Eq)]
pub struct Cnl {
    pub parts: Parts,
}

/// A departure, at this time of day.
#[derive(Debug, Drop, PartialEq, Eq)]
pub struct Dep {
    pub parts: Parts,
    pub time: TimeOfDay,
}

/// Reads the fields of a DLA, a CNL or a DEP, from the left. Doesn't allocate.
pub(crate) fn read_short<A: Allocator + Copy>(fields: &FieldsRef<'_, A>) -> Result<Opening, Fault>
    requires { 4 ≤ length fields.now }
    ensures value { ReturnsAs (λ opening. opening) result (short_opening_of fields.now) }
    ensures memory { result ≢ Err Fault.OutOfMemory }
{
    read_opening(fields.count() == 5, fields)
}
