//! Flight plans by number: filing them, and what later messages change.
//!
//! Plan n is the n-th of a list, for good. A message changes one plan of it or is refused
//! (`specs/Changes`); the last change can be undone. What is stored beside the plans only makes
//! them quick to find, and each part has a definition of what it says of them:
//!
//! - *Chains* (`chains`): from each flight, named by identification, departure and destination, to
//!   its newest held plan, and from each plan to the next older one. A message reads the held plans
//!   of its flight and no others.
//! - *Outlines* (`outline`): index entries that say where and when a plan's flight may be, in 24
//!   bytes a plan. OPEN scans these, and reads the plans of those flights that may enter its point
//!   in its period. An outline may say too much, never too little.
//! - *Estimates* (`texts`): what the EET items of field 18 say, read when a plan is made or
//!   amended.
//! - *Places* (`texts`): a bit for each aerodrome or route point that a flight enters, by which the
//!   open regulations that may apply to it are found.
//!
//! `store` has the calls; `matching` finds the plan of a message; `amending` makes amendments, with
//! values from `amended_values`; `times` computes the off-block date and time that a message gives;
//! `undo` undoes the last change; `setup` has the limits of a desk; `laws` what holds of plans
//! after all messages to come.
#![tactic(auto)]

mod amended_values;
mod amending;
mod chains;
mod fault;
mod first_letters;
pub mod laws;
mod matching;
mod outline;
mod plan;
mod plan_list;
mod setup;
mod store;
mod texts;
mod times;
mod undo;

pub use fault::PlanFault;
pub use fpl_message::Parts;
pub use plan::{Key, Plan, PlanState, Status};
pub use setup::{MAX_ENTRIES, MAX_PLANS, MAX_TAXI, Setup, is_desk_time};
pub use store::PlanStore;
pub use texts::{ROWS, row_of};
