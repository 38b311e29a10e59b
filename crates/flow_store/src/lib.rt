//! A desk whose filings are in a file: what was answered is there after any crash.
//!
//! **The file** is a log (`flow_log`) whose text is the text of a store: a header line, the setup,
//! and the entries of the journal (`store_text`). The entries that are filed from one piece of the
//! input are one group: they are appended to the file, and on the disk, before the first of their
//! answers is flushed (`Store::commit`).
//!
//! **What is proved.** A crash at any time leaves a file of the entries from before and those of
//! the first frames of the input, in order, none skipped and none in part; and what had been
//! flushed by then is a prefix of the answers to these (`IsSafe`, a clause of `serve_stored`).
//! Opening such a file (`open`) gives the core of exactly these entries. So what was answered in
//! one run is in the file after every later one (`laws`).
//!
//! `store` has the store and the calls that append to it; `opening` opens one, and `serving`
//! answers an input with one.
#![tactic(auto)]

pub mod laws;
mod opening;
mod serving;
mod store;

pub use opening::{OpenFault, open};
pub use serving::{StoredFault, serve_stored};
pub use store::{Store, StoreFault, write_store};
