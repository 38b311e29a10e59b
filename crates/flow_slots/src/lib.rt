//! The slot list of one regulation, in one row of slots that is changed in place.
//!
//! Contracts see it as a lineup: flights with provisional slots, each with the time at which it
//! enters the regulated point, and flights with frozen slots. The slot of a provisional flight is
//! defined afresh (`greedy`): by entry, ties by the lower number, each in turn has the first slot
//! not before its entry that isn't frozen and that no earlier flight has. The code never computes
//! that list afresh. It moves the flights of a chain one by one, and the row is the same.
//!
//! - *The row* has a cell for each slot before the end of the period and one more for each flight
//!   that there may be, so a chain always reaches an empty cell. Beside it, a table has the slot of
//!   each flight.
//! - *A flight is inserted* (`displace`). From its first slot on it takes the first cell that is
//!   empty or has a provisional flight that doesn't precede it. The flight that was there is
//!   inserted in the same way from the next cell on, up to an empty one. Frozen slots are skipped.
//! - *A flight is removed* (`vacate`). Its cell is a hole. The next provisional flight moves up
//!   into it and leaves a hole in turn. If that flight's own first slot is after the hole the chain
//!   ends, since later flights have no earlier entries. It ends at an empty cell, too, since a
//!   later flight that could have the hole would have that cell.
//! - *A slot is frozen* where its flight is, and nobody moves. A released flight is removed and
//!   inserted. A flight that is frozen in a given slot takes it, and a provisional flight there is
//!   displaced as by a chain.
//! - *Why the row is the fresh allocation*: a row is settled (`IsSettled`) if provisional flights
//!   are in the order, none before its first slot, and none could be in an empty cell before it. A
//!   settled row of a lineup is its fresh allocation, and each chain leaves a settled row settled.
//! - *What it costs*: a change touches the cells from the flight's first slot to the end of its
//!   chain, and writes one cell a flight that moves. Only `SlotList::new` allocates.
//!
//! `slot_list` has the calls, `cells` the row and `displacement` the walks along it, which write
//! cells by `Counting` alone; `row` is the row in memory; `shape` has periods and rates with their
//! limits, and a table of first slots by minutes. `laws` says what the fresh allocation is, and how
//! each list of changes is undone.
#![tactic(auto)]

mod cell;
mod cells;
mod change_list;
mod displacement;
pub mod laws;
mod row;
mod shape;
mod slot_list;

pub use cell::{Cell, Planned};
pub use cells::Cells;
pub use change_list::Change;
pub use shape::{LONGEST_PERIOD, Limit, Shape, broken_limit};
pub use slot_list::SlotList;
