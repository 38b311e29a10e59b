//! What the threads of a run share.

use crate::bell::Bell;
use crate::fault::{StopFault, Watch};
use crate::keeping::Keeping;
use flow_desk::{Desk, Name};
use flow_log::Outside;
use std::alloc::{Allocator, Global};
use std::sync::Wait;

/// How a run waits, allocates, and reports its faults.
#[derive(Drop)]
pub(crate) struct Means<'a, H: Watch, P: Wait, A: Allocator + Copy = Global> {
    pub wait: &'a P,
    pub alloc: A,
    pub watch: &'a H,
}

/// The desk, what keeps it stored, and the bell of its follower.
#[derive(Drop)]
pub(crate) struct Shared<
    'a,
    N: Name,
    Q: Wait + Drop,
    K: Outside + Drop,
    H: Watch,
    P: Wait,
    A: Allocator + Copy = Global,
> {
    pub wait: &'a P,
    pub alloc: A,
    pub desk: Desk<N, Q, A>,
    pub keeping: Keeping<N, K, A>,
    pub bell: Bell,
    pub watch: &'a H,
}

impl<N: Name, Q: Wait + Drop, K: Outside + Drop, H: Watch, P: Wait, A: Allocator + Copy> Shared<
    '_,
    N,
    Q,
    K,
    H,
    P,
    A,
> {
    /// Ends the run with this fault, if it hasn't ended yet. Returns the fault with which it ended.
    pub fn stop(&self, fault: StopFault) -> StopFault {
        self.bell.stop(self.wait, self.watch, fault)
    }
}
