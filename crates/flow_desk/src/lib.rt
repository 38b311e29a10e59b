//! A desk that many feeders share: filings go one by one under a lock, and reading takes no lock.
//!
//! The core and its journal are under the lock (`locked`). Whoever holds it appends to one shared
//! history (`history`), of which each feeder's pass has seen a prefix, and publishes the rows of
//! all plans on a board (`board`, `seat`) that readers see without waiting. A history exists in
//! proofs alone; at run time its number of entries is all that is stored.
//!
//! The claim: each answered filing is one step of one history that begins with all its caller had
//! seen: it appends one journal entry and answers that entry's outcome; whenever the lock is free,
//! plans, slot lists and notices are those of the one-thread desk over the journal; in every
//! regulation the unfrozen flights, by planned entry, each hold the first free slot not before it,
//! and frozen flights keep theirs. Its parts, and the clauses that say them:
//!
//! - *each answered filing is one step of one history*: `filed` of `Desk::file`, a `Filed`: its
//!   `before` is the history until then, and its `step` that of the one-thread desk. The histories
//!   of all passes are prefixes of one, the journal of the core that `Desk::close` returns
//!   (`passes`). `Desk::file_all` files several at once: each is a `Filed`, and nobody else's entry
//!   comes between (`filed`). `Desk::answer_all` does the same and appends their answers
//!   (`answers`). A `Follower` files nothing: `Desk::follow` appends the answers to all entries in
//!   their order (`answers`), which are those of the journal (`followed` of
//!   `Desk::close_followed`).
//! - *that begins with all its caller had seen*: `later` of that `Filed`. What a pass has seen is
//!   carried from call to call, and `Desk::look` and `Desk::slots` add to it (`seen`).
//! - *it appends one journal entry and answers that entry's outcome*: `step` and `seen` of that
//!   `Filed`; after a refusal `refused` of `Desk::file`: nothing of the feeder's was appended.
//!   JournalFull is returned only if the journal is full (`full`).
//! - *whenever the lock is free ..*: the invariant of `Locked` (`one_thread` of `IsLocked`), `row`
//!   of `Desk::look`, `slots` of `Desk::slots`, `one_thread` of `Desk::close`.
//! - *in every regulation ..*: `slots` of `Desk::slots` reads the slot lists of that state;
//!   `SlotList::cells` of flow_slots says it of a slot list (`first_served`).
//! - *and frozen flights keep theirs*: `frozen` of `Core::step` of flow_core.
#![tactic(auto)]

mod announcer;
mod answering;
mod blank;
mod board;
mod desk;
mod feeders;
mod follower;
mod history;
pub mod laws;
mod locked;
mod name;
mod pass;
mod precedence;
mod replaying;
mod rule;
mod seat;
mod slots;
mod stored;
mod tally;

pub use blank::{Blank, DeskFault, first_feeder_beyond};
pub use desk::{CloseFault, Desk};
pub use feeders::{Done, End, Gate, run_feeders};
pub use flow_core::MAX_FEEDERS;
pub use follower::Follower;
pub use name::Name;
pub use pass::Pass;
pub use replaying::Replay;
pub use seat::NoVersion;
pub use slots::SlotRow;
pub use stored::{Stored, StoredBlank, StoredHistory};
