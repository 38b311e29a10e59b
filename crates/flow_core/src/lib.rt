//! A desk on one thread: a journal of filings, and the state that follows from it.
//!
//! Contracts see a core as its setup and its filings. All else (`state_of`) is the run of these,
//! step by step: each step reads a text, answers it, and appends an entry to the journal. What the
//! code stores beside the journal is that state, ready to be read; `IsRunWith` says that it is the
//! run.
//!
//! - *A step* (`Core::step`) returns a receipt, or leaves the core unchanged: at a full journal,
//!   and if an allocation fails. The last step can be undone without allocating.
//! - *The ledger* is where all filings are entered: by `Ledger::file` those that are served, read
//!   from a journal or replayed, by `Ledger::step` those that were read before. Each public call
//!   collects the changed rows once, before it returns.
//! - *The journal* stores texts and receipts, the texts one after the other in one buffer. What a
//!   text says isn't stored: reading it again returns that; only of the last filing the reading is
//!   kept.
//! - *Changes* (`Core::changes`) are the plan rows that differ after the last step. A board of the
//!   rows before shows the rows after once they are applied, so readers of a shared desk copy
//!   little.
//! - *Serving* (`serve`) splits an input into frames, files each, and writes its answer. It flushes
//!   the answers before a read that may wait. Its contract speaks of bytes only: what was written
//!   is the output for what was read.
//! - *The journal as a text* (`Core::write_journal`, `read_journal`) has one history. A core that
//!   reads it has the same state as the one that wrote it, and resumes there.
//! - *A store* (`read_stored`) is a journal text that can be appended to: a gate is in place of the
//!   last line, and bytes after a closed gate don't count.
//!
//! `desk` has the public calls and the ledger; `entry` and `entry_list` the journal; `journal_item`
//! and `journal_reading` parse its text; `answer` builds the text of answers; `change` and `row`
//! are what readers see; `laws` and `journal_laws` follow from the definitions.
#![tactic(auto)]

mod answer;
mod change;
mod desk;
mod entry;
mod entry_list;
mod excerpt;
mod journal;
mod journal_item;
pub mod journal_laws;
mod journal_reading;
pub mod laws;
mod receipt;
mod row;
mod serving;

pub use answer::{journal_full_line, too_long_line};
pub use change::Change;
pub use desk::Core;
pub use entry::{Entry, MAX_FEEDERS};
pub use excerpt::Excerpt;
pub use flow_input::{Counted, Frame, Intake, IntakeFault, MAX_INPUT, WriteFault};
pub use flow_regulations::{Notice, Said, Told, Window};
pub use flow_traffic::{Kind, Verdict};
pub use journal_reading::{JournalFault, read_journal, read_stored};
pub use receipt::{Receipt, StepFault};
pub use row::Row;
pub use serving::{ServeFault, answer_frames, serve};
