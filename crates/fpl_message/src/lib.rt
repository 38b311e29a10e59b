//! Messages and filings: what the bytes of a filing say, or why they are refused.
//!
//! A filing is a text with its reading, the result of parsing it: a message, an order, or the first
//! refusal (`reading_of`). It is parsed once, when the filing is created, and the invariant of
//! `Filing` says that the reading is the definition's; so nobody who holds a filing has to parse it
//! again. Parsing goes from step to step and stops at the first refusal.
//!
//! - *Messages*: `flight_plan` (FPL), `short_message` (DLA, CNL and DEP), `modification` and
//!   `changes` (CHG with its amended fields). `parts` identifies the plan that a message is about.
//! - *Orders*: `order` and `sub_periods` (OPEN, SHUT and TIME).
//! - *Editions*: OPEN got its sub-periods later. A filing has the edition by which it is read, so
//!   that an old journal reads as it did.
//! - *Memory*: `FilingReader` reads texts one after the other in the same memory, and keeps the
//!   box of the last message of each kind for the next one. A filing is a text and a reader that
//!   has read it: it is split and joined without allocating (`Filing::into_parts`,
//!   `Filing::of_parts`).
#![tactic(auto)]

mod changes;
mod edition;
mod fault;
mod filing;
mod filing_reader;
mod flight_plan;
mod laws;
mod message;
mod modification;
mod order;
mod parts;
mod refusal;
mod short_message;
mod sub_periods;

pub use edition::Edition;
pub use filing::{Filing, FilingFault, MAX_BYTES};
pub use filing_reader::FilingReader;
pub use flight_plan::Fpl;
pub use laws::{
    amendments_are_their_parts, editions_differ_in_open, limits_are, messages_have_headings,
};
pub use message::{Message, Reading};
pub use modification::Chg;
pub use order::{OpenReg, Order, Spot};
pub use parts::Parts;
pub use refusal::Refusal;
pub use short_message::{Cnl, Dep, Dla};
pub use sub_periods::SubPeriods;
