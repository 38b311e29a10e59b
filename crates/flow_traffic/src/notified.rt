//! What was issued to plans.
use flow_regulations::{Notice, Told};
use std::alloc::{Allocator, Global};

/// The CTOT last issued to each plan, by number, and the notices issued.
#[derive(Drop)]
pub(crate) struct Notified<A: Allocator + Copy = Global> {
    pub(crate) told: Vec<Option<Told>, A>,
    pub(crate) notices: Vec<Notice, A>,
}
