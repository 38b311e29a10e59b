//! What a desk allocates: its time, plans, open regulations with their slots, the CTOT last issued
//! to each plan, and the notices.
//!
//! A reading asks for something or is refused (`asked`): a message asks for other plans, OPEN and
//! SHUT for other regulations, TIME for another time. The regulations are then allocated by the
//! rules, each by itself (`settle`), and slots are issued to plans. `Traffic::answer` does both in
//! place.
//!
//! - *The order of doing*: find the verdict on values, reserve capacity for all that will be added,
//!   make the one change that can fail, then only what can't. If allocation fails nothing has
//!   changed, or the change is undone without allocation.
//! - *Between two readings* (`IsKeptState`) each slot list is that of the plans, all regulations
//!   are settled, the queue holds each filed flight that isn't due, and no notice is pending. So a
//!   reading reads only what it changes.
//! - *Frozen flights keep their slots* (`FrozenPairsStay`): a reading removes a frozen pair of
//!   flight and slot only as the accepted DLA, CHG or CNL of that flight, or as the accepted SHUT
//!   of that regulation.
//! - *The last reading can be undone* (`undo`). `Undoing` records which reading it was, the slots
//!   that its flight had, the plans that got a notice with their CTOT before, and the number of
//!   notices; the store of plans records its last change by itself. A SHUT keeps the regulation
//!   that it closed. Each reading begins, records, issues slots to the recorded plans and finishes
//!   by the same calls.
//!
//! `messages` and `orders` carry out what is asked for, `opening` says whether a regulation may be
//! opened, `notified` holds the CTOT last issued and the notices, `changes` says which plans a
//! reading may have changed, `same` compares two desks.
#![tactic(auto)]

mod changes;
mod messages;
mod notified;
mod opening;
mod orders;
mod same;
mod traffic;
mod undo;
mod verdict;

pub use opening::MAX_REGULATIONS;
pub use traffic::Traffic;
pub use verdict::{Kind, Verdict};
