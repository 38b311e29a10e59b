//! A regulation that was closed.

use crate::regulation::Regulation;
use std::alloc::{Allocator, Global};
use std::marker::Model;

/// A regulation that was closed, with its slot list and its index in the order of opening, by which
/// it is opened again.
#[derive(Drop)]
pub struct Closed<A: Allocator + Copy = Global> {
    pub(crate) index: usize,
    pub(crate) regulation: Regulation<A>,
}

impl<A: Allocator + Copy> Model for Closed<A> {
    ghost use Rattle.flow_regulations.specs.Listing.{ClosedView};

    ghost Value = { ClosedView };

    ghost view = { λ c. record { index = c.index; listed = c.regulation } };
}
