//! The open regulations with their slot lists, and the slots that plans are issued.
//!
//! By definition every regulation is settled afresh after each accepted filing (`settled`): frozen
//! flights keep their slots while they may, all others are assigned slots in the order, and the due
//! ones among them are frozen. Then each plan is compared with the CTOT last issued to it
//! (`notices_from`). The code reads only what a filing can have changed, and its contracts say that
//! the result is the same.
//!
//! - *One flight* (`reallocate`). A message changes one plan. Whether another flight is subject or
//!   due, or may keep its slot, depends on its own plan and the time. So each slot list reallocates
//!   that one flight alone: if its slot or its entry has changed it is removed and inserted again,
//!   and frozen if it is due. Those that it displaces move by the chain of that slot list.
//! - *Masks*. For each flight a mask of 64 bits says which of the first 64 open
//!   regulations may hold it (`held_marks`): if a bit isn't set, the flight isn't held there, and
//!   the slot list isn't searched. A table of masks by points says in the same way which
//!   regulations are at which points (`place_table`). The masks of a plan's own points have all
//!   regulations that may apply to it, so a message is given to those near its plan and to those
//!   that may hold its flight, and to no others. A bit too many costs a search; one too few can't
//!   be.
//! - *The queue* (`due_queue`). A flight becomes due by its off-block time and the desk's time
//!   alone. A heap by off-block time holds each filed flight that isn't due, so TIME takes out
//!   those that become due and reads no others. A flight whose plan has moved or ended stays in the
//!   heap with its old time, and is dropped when its turn comes. `advance_due` then freezes the due
//!   ones in their provisional slots, and nobody moves.
//! - *Plans that needn't be read* (`specs/Quiet`). After each filing no notice is pending. None
//!   becomes pending to a plan that is unchanged, with the CTOT last issued to it and the same
//!   frozen slots. So notices can be issued only to the plan of a message, to flights that became
//!   due, and to those with frozen slots in a regulation that is opened or shut. `tell` is given
//!   these numbers, and asks its caller for the proof that all others are quiet.
//! - *Undoing*. Each change has a call that undoes it without allocation: `put_back` for a message
//!   (a flight gets its former slots again), `release_all` for TIME, `take_last` for OPEN, `reopen`
//!   for SHUT.
//!
//! `regulations` has the calls, `regulation` one open regulation, `telling` the most penalising one
//! and the slot notices (`notice`), `window` the slot tolerance window.
#![tactic(auto)]

mod closed;
mod due_queue;
mod fixed_flights;
mod held_marks;
mod in_order;
pub mod laws;
mod notice;
mod place_table;
mod regulation;
mod regulations;
mod slot_state;
mod telling;
mod window;

pub use closed::Closed;
pub use due_queue::{DueQueue, ISSUE_LEAD, PendingFlight, is_due_by};
pub use notice::{Notice, Said, Told, Window};
pub use regulation::Regulation;
pub use regulations::Regulations;
pub use slot_state::{NotedPlace, Place};
pub use window::window_of;
