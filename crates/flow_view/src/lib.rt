//! What a desk shows of its regulations and flights, beyond the rows of its plans.
//!
//! Everything is computed from a `Core` when it is asked for: flow_view keeps no state beside the
//! desk, so a view can't differ from it. Each value has a definition in `specs/`, a function of the
//! desk's history, and each function returns just that.
//!
//! - *Rows* (`slot_row`, `flight`, `table`): the held slots of a slot list with their flights, and
//!   the empty slots between them.
//! - *Openings* (`opening`, `past`): the regulations of a journal from OPEN to SHUT. The journal is
//!   entered a second time in a fresh desk; just before an accepted SHUT that desk shows the rows
//!   that the regulation had. `desk_at` is the desk at an earlier time, by the same way.
//! - *Delays* (`delay`, `totals`): of slot lists, and of flights, each once, by its most penalising
//!   regulation. `laws` says that this choice is that of the desk's own advice.
//! - *Counts* (`count`, `load`, `windows`): how many flights are planned to enter an aerodrome or
//!   route point, regulated or not, and demand against slots in steps of a period.
//! - *Sweeps* (`what_if`): what a regulation would do at other rates. The desk files each order and
//!   undoes it.
//! - *Charts* (`scale`, `rounds`): where times and counts are drawn, in tenths of a pixel.
#![tactic(auto)]

mod count;
mod delay;
mod flight;
pub mod laws;
mod load;
mod opening;
mod past;
mod rounds;
mod scale;
mod slot_row;
mod table;
mod totals;
mod what_if;
mod windows;

pub use count::{Count, counts_of};
pub use delay::{DelayTotals, FlightDelay, Spread, delay_totals, delays_of, most_delayed_first};
pub use flight::Flight;
pub use load::{Load, held_in, held_later, loads_of};
pub use opening::{Opening, openings_of};
pub use past::desk_at;
pub use rounds::PANEL_WIDTH;
pub use scale::{PANEL_HEIGHT, Scale};
pub use slot_row::SlotRow;
pub use table::{Holding, Line, lines_with};
pub use totals::{Totals, mean_tenths, totals_of};
pub use what_if::{SweepFault, Swept, sweep};
pub use windows::Windows;
