//! Fields 15 and 18 of a flight plan: the route and other information.
//!
//! A route is a speed and a level, and then words, each of which has the first kind that fits
//! (`route`). An element gives its kind and its offsets in the field. Field 18 is a list
//! of items, each a name with its words (`item`, `other`): DOF gives the day, EET the elapsed times
//! to route points, and STS can exempt the flight from slot allocation; all others are kept without
//! effect. Both readers are exact: they return what the definition gives, or its first fault from
//! the left.
#![tactic(auto)]

mod estimate;
mod estimates;
mod fault;
mod item;
pub mod laws;
mod other;
mod route;

pub use estimate::{Estimate, bit_of, may_have};
pub use estimates::Estimates;
pub use fault::ItemFault;
pub use item::{Item, ItemWords, Items};
pub use other::{Effects, Other18};
pub use route::{Element, Kind, Route, is_route};
