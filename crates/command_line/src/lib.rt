//! The arguments of a command line, and a readable form of one that isn't text.
#![tactic(auto)]

mod readable;
mod words;

pub use readable::readable_form;
pub use words::{WordFault, read_words};
