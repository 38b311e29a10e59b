//! Wakes the thread that follows the history, and stops all when the run ends.

use crate::fault::{FeedEnd, LiveFault, StopFault, Watch};
use std::sync::{Condvar, Mutex, Wait};

/// What the follower of a run learns.
#[derive(Clone, Copy)]
pub(crate) struct Heard {
    /// How many times the bell has rung.
    pub rings: u64,
    /// Whether a feed hasn't ended yet.
    pub is_open: bool,
    /// The fault with which the run ended, if it did.
    pub fault: Option<StopFault>,
}

/// A bell that a feeder rings after it has filed.
#[derive(Drop)]
pub(crate) struct Bell {
    heard: Mutex<Heard>,
    changed: Condvar,
    /// Held while a fault is reported, which may take long: whoever rings doesn't wait for it.
    reporting: Mutex<()>,
}

impl Bell {
    /// Creates a bell that nobody has rung.
    pub fn new() -> Bell {
        Bell {
            heard: Mutex::new(Heard {
                rings: 0,
                is_open: true,
                fault: None,
            }),
            changed: Condvar::new(),
            reporting: Mutex::new(()),
        }
    }

    /// Wakes the follower: there are entries. Returns the fault with which the run ended, if it
    /// did.
    pub fn ring<P: Wait>(&self, wait: &P) -> Option<StopFault> {
        let mut heard = self.heard.lock(wait);
        heard.rings = heard.rings.wrapping_add(1);
        self.changed.notify_all();
        heard.fault
    }

    /// Wakes the follower: the last feed has ended.
    pub fn close<P: Wait>(&self, wait: &P) {
        self.heard.lock(wait).is_open = false;
        self.changed.notify_all();
    }

    /// Reports that a feed has ended with a fault of its own.
    pub fn tell<P: Wait, H: Watch>(&self, wait: &P, watch: &H, feeder: u8, end: FeedEnd) {
        let _turn = self.reporting.lock(wait);
        watch.feed_ended(feeder, end);
    }

    /// Ends the run with this fault, if it hasn't ended yet, and reports it. Returns the fault with
    /// which the run ended.
    pub fn stop<P: Wait, H: Watch>(&self, wait: &P, watch: &H, fault: StopFault) -> StopFault {
        let mut heard = self.heard.lock(wait);
        if let Some(first) = heard.fault {
            return first;
        }
        heard.fault = Some(fault);
        self.changed.notify_all();
        drop(heard);
        let _turn = self.reporting.lock(wait);
        watch.run_ended(LiveFault::Stopped(fault));
        fault
    }

    /// Waits until the bell has rung a number of times other than `rings`, the last feed has ended,
    /// or the run has.
    pub fn listen<P: Wait>(&self, wait: &P, rings: u64) -> Heard {
        let mut heard = self.heard.lock(wait);
        for _ in wait.forever() {
            if heard.rings != rings || !heard.is_open || heard.fault.is_some() {
                return *heard;
            }
            heard = self.changed.wait(wait, heard);
        }
        unreachable!()
    }
}
