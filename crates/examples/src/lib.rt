//! Proved functions over the public calls of single crates, as examples of their use. Tests run
//! some of them.
#![tactic(auto)]

mod desk;
mod plans;
mod readings;
mod shared;
mod slots;
#[cfg(test)]
mod stores;
#[cfg(test)]
mod tests;

pub use desk::{AnswerFault, answer, slot_in, write_whole};
pub use plans::would_accept;
pub use readings::refusal_of;
pub use shared::{file_ready, row_after};
pub use slots::plan_again;
