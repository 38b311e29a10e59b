//! Runs with many feeders. An input is read whole, and its filings are dealt to the feeders in
//! turn.
//!
//! - *Feeding* (`feeding`, `progress`): each feeder files its texts in a thread of its own, some of
//!   them in one critical section. Meanwhile one thread more files the entries again, at a second
//!   core.
//! - *Answers* (`answers`): once the desk is closed, all is answered in the order of the journal.
//!   Then each filing that found the journal full gets its line, and the last one says whether the
//!   second core has the same state.
//! - *Stores* (`stored`): at a desk with a store nothing is flushed before all that was filed is on
//!   the disk.
//!
//! What a run may leave if it ends with a fault is said by `RunFault` and its clauses: nothing is
//! filed before the feeders start, and no fault takes the place of a full journal after it.
#![tactic(auto)]

mod answers;
mod dealing;
mod fault;
mod feeding;
mod filing;
pub mod laws;
mod progress;
mod run;
mod stored;

pub use answers::write_end;
pub use fault::RunFault;
pub use run::{Ended, run_dealt, run_many, run_resumed};
pub use stored::{StoredRunFault, run_stored};
