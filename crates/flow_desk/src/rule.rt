//! The rule of the board: it shows what its entries leave, and it is always the board of one desk.
ghost use Rattle.flow_desk.specs.Views.{Keeps, Reads, newcomer, informed};

use crate::board::Board;
use crate::history::Front;
use atomic_table::{Join, Split};
use crossbeam_utils::rule::{Outcome, Protocol};
use flow_plans::Setup;
use std::alloc::Allocator;

/// What a reader knows of the desk that it reads: whether it knows which desk it is, the setup, and
/// the history so far. It exists in proofs alone.
pub struct View {
    pub knows: bool,
    pub setup: Setup,
    pub front: Front,
}

/// The rule of the board and of all that its readers know.
pub struct Published;

impl<A: Allocator + Copy> Protocol<Board<A>, View> for Published {
    ghost holds = { Keeps };

    ghost first = { newcomer };
}

/// A step that reads or makes one version.
pub struct Sees;

impl<A: Allocator + Copy> Outcome<Board<A>, View> for Sees {
    ghost then = { Reads };
}

/// The step in which the writer shows a new reader which desk it is.
pub struct Tells;

impl Split<View> for Tells {
    ghost left = { λ v. v };

    ghost right = { λ v. v };
}

impl Join<View> for Tells {
    ghost both = { informed };

    ghost spent = { newcomer };
}
