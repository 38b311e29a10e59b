//! What a filing says.
use crate::flight_plan::Fpl;
use crate::modification::Chg;
use crate::order::Order;
use crate::refusal::Refusal;
use crate::short_message::{Cnl, Dep, Dla};
use std::alloc::{Allocator, Global};

/// A parsed message (ICAO Doc 4444, appendix 2). The two that store their text are boxed.
#[derive(Drop)]
pub enum Message<A: Allocator + Copy = Global> {
    /// A filed flight plan.
    Fpl(Box<Fpl<A>, A>),
    /// A delay.
    Dla(Dla),
    /// A modification.
    Chg(Box<Chg<A>, A>),
    /// A cancellation.
    Cnl(Cnl),
    /// A departure.
    Dep(Dep),
}

/// What the bytes of a filing say, or why they are refused.
#[derive(Drop)]
pub enum Reading<A: Allocator + Copy = Global> {
    Msg(Message<A>),
    Ord(Order<A>),
    Bad(Refusal),
}

// What is boxed is not counted.
const _: () = prove!(size_of::<Reading>() <= 48);
