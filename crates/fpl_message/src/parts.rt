//! What identifies the plan that a message is about.
ghost use Rattle.std.specs.Prelude.{◌≤◌, ◌<◌, length, IsTrue};
ghost use Rattle.std.specs.Prelude.{◌≢◌, Err};
ghost use Rattle.fpl_message.specs.Refusals.{ReturnsAs};
ghost use Rattle.fpl_message.specs.ShortMessages.{opening_of, other_day, day_of_other};

use crate::fault::Fault;
use fpl_items::Effects;
use fpl_text::{Day, Departure, Destination, FieldsRef, Heading, Ident, Text, TimeOfDay};
use std::alloc::Allocator;

/// What identifies the plan that a message is about (ICAO Doc 4444, appendix 3, field types 7, 13,
/// 16 and 18).
#[derive(Debug, Drop, PartialEq, Eq)]
pub struct Parts {
    /// The identification, without the transponder code.
    pub ident: Text<7>,
    /// The departure aerodrome.
    pub dep: Text<4>,
    /// The destination aerodrome.
    pub dest: Text<4>,
    /// The day of its DOF item, if the message has one.
    pub day: Option<Day>,
}

impl Parts {
    /// Parts that identify no plan.
    pub(crate) fn none() -> Self {
        Parts {
            ident: Text::default(),
            dep: Text::default(),
            dest: Text::default(),
            day: None,
        }
    }
}

/// The fields with which a message about a held plan begins.
#[derive(Debug, Drop, PartialEq, Eq)]
pub struct Opening {
    pub parts: Parts,
    /// The time of field 13.
    pub time: TimeOfDay,
}

/// Reads fields 3, 7, 13 and 16, and the field 18 that may come after them, from the left.
#[tactic(auto, unfolding(crate::specs::ShortMessages::opening_of))]
pub(crate) fn read_opening<A: Allocator + Copy>(
    has_other: bool,
    fields: &FieldsRef<'_, A>,
) -> Result<Opening, Fault>
    requires four { 4 ≤ length fields.now }
    requires other { IsTrue has_other → 4 < length fields.now }
    ensures value { ReturnsAs (λ opening. opening) result (opening_of has_other fields.now) }
    ensures memory { result ≢ Err Fault.OutOfMemory }
{
    let _heading = Heading::read(fields.field(0))?;
    let ident = Ident::read(fields.field(1))?;
    let departure = Departure::read(fields.field(2))?;
    let destination = Destination::read(fields.field(3))?;
    let day = read_day(has_other, fields)?;
    Ok(Opening {
        parts: Parts {
            ident: ident.name,
            dep: departure.place,
            dest: destination.place,
            day,
        },
        time: departure.time,
    })
}

/// Reads the day of field 18, the fifth field, if there is one.
#[inline(always)]
fn read_day<A: Allocator + Copy>(
    has_other: bool,
    fields: &FieldsRef<'_, A>,
) -> Result<Option<Day>, Fault>
    requires { IsTrue has_other → 4 < length fields.now }
    ensures value { ReturnsAs (λ day. day) result (other_day has_other fields.now) }
    ensures memory { result ≢ Err Fault.OutOfMemory }
{
    if !has_other {
        return Ok(None);
    }
    read_day_of(fields.field(4))
}

/// Reads the day of a field 18. Most messages have none, so this is a call.
#[inline(never)]
fn read_day_of(field: &[u8]) -> Result<Option<Day>, Fault>
    ensures value { ReturnsAs (λ day. day) result (day_of_other field.now) }
    ensures memory { result ≢ Err Fault.OutOfMemory }
{
    let effects = Effects::read(field)?;
    Ok(effects.day())
}
