//! Feeders that are answered as they file: each has a source and a writer of its own, and all share
//! one desk.
//!
//! **A feeder** takes the frames that its source shows whole, files them while it holds the lock of
//! the desk once, and writes their answers before it reads on (`feeding`, `answering`). So a source
//! that waits for an answer gets it, and a source that is silent holds up nobody.
//!
//! **All answers** go to one more writer, in the order of the journal, as entries are made. A
//! thread of its own follows the history of the desk (`following`), and sleeps until a feeder rings
//! (`bell`). It holds the lock only while it collects a few answers, so a slow reader of these
//! holds up no feeder. What it hasn't written when the feeders have ended is written from the core
//! (`run`). Between answers it runs the journal a second time.
//!
//! **With a store** no answer is written before its entry, and all before it, are on the disk
//! (`keeping`). One feeder appends all entries made so far, while others file and wait, so one sync
//! serves all who wait.
//!
//! **A feeder that fails ends alone.** A failed allocation, or a failure of the store or of the
//! writer of all answers, ends the run: nobody is answered from then on (`fault`).
//!
//! **What is proved** (`run_live`, when it returns the core): there is one history. Of the frames
//! that a feeder's source gave, its entries there are the first filings, and all of them unless the
//! journal is full. What was written to the feeder answers frame by frame what the desk of one
//! thread answers to these entries. A feed ended with the fault of a device only if that failed.
//! The other writer has the answers to all entries, in their order. Besides, one function writes
//! all answers (`keeping`), and its precondition is that each is to an entry that is stored.
#![tactic(auto)]

mod answering;
mod bell;
mod fault;
mod feed;
mod feeding;
mod following;
mod keeping;
mod run;
mod shared;

pub use fault::{FeedEnd, LiveFault, StopFault, Watch};
pub use feed::Feed;
pub use run::{Ended, run_live};
