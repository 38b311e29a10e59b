//! Texts of ICAO messages: squeezing, splitting into fields, the small fields, and times in
//! minutes.
//!
//! A message may be broken into lines and spaced as its writer likes, so its text is squeezed
//! first: each run of blanks becomes one space, and none stays at the ends or beside a hyphen or a
//! bracket. Then the text is cut at its hyphens (`split`), and each field is read by its own form.
//! The forms are definitions in `specs/`, functions from texts to values, and each reader is exact:
//! it returns what its definition gives, and refuses a text for which that gives nothing.
//!
//! - *One pass* (`squeezed`): the pass looks at 32 bytes at a time, whose kinds it reads from two
//!   tables, one for each half of a byte. Mostly it keeps all but the last, which shows what
//!   follows the others, and looks at 64 bytes next. Else it looks again after the first that it
//!   drops. Each look shows the hyphens and brackets, too, so the pass records where they are in
//!   the squeezed text.
//! - *Fields* (`fields`, `words`): a field is a slice of the squeezed text between two borders, and
//!   isn't copied.
//! - *Bytes* (`byte`): their kinds, also of 16 bytes in a vector. Its clauses say what each lane
//!   holds, so callers speak of kinds of bytes and of no bit of a vector.
//! - *Forms*: `heading` (field 3), `ident` (7), `craft` (8, 9 and 10), `place` (13 and 16).
//! - *Times* (`minute`, `day`, `time`): whole minutes since 1970-01-01 00:00 UTC; `part` has the
//!   sub-periods of a regulation.
//! - *Names* (`text`): short texts of bounded length, stored inline and without allocation.
#![tactic(auto)]

mod byte;
mod craft;
mod day;
mod fault;
mod fields;
mod heading;
mod ident;
pub mod laws;
mod minute;
mod part;
mod place;
mod squeezed;
mod text;
mod time;
mod words;

pub use byte::{
    all_digits, all_letters, all_letters_or_digits, is_letter, is_letter_or_digit, is_path,
    leading_letters, leading_letters_or_digits,
};
pub use craft::{Craft, Equipment, FlightKind, FlightRules, Rules, Wake, is_equipment};
pub use day::Day;
pub use fault::{FieldFault, TextFault};
pub use fields::{Fields, FieldsRef, Title, begins_amendment, split};
pub use heading::Heading;
pub use ident::Ident;
pub use minute::{GREATEST_MINUTE, Minute, YEAR_2000, YEAR_2099, read_moment};
pub use part::{MOST_PARTS, Part};
pub use place::{Alternates, Departure, Destination};
pub use squeezed::Squeezed;
pub use text::Text;
pub use time::{ELAPSED_LIMIT, TimeOfDay, minutes_of_elapsed, read_elapsed};
pub use words::{Measured, Words, space_count};
