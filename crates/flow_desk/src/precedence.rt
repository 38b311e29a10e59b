//! Lets those who follow a history take its lock before feeders that go on filing.
//!
//! The lock goes to whoever asks first once it is free. A feeder that files again at once is there
//! before a thread wakes up that slept until then, so that one who follows could wait until all has
//! been filed. Therefore those who follow claim the lock, one after the other, before they wait for
//! it. A feeder that comes later waits until the lock is taken as often as it had been claimed by
//! then. Later claims don't keep that feeder.
use std::sync::{Condvar, Mutex, MutexGuard, Wait};

/// How often those who follow claimed the lock, and took it.
#[derive(Clone, Copy)]
struct Counts {
    claimed: u64,
    taken: u64,
}

/// The order in which the lock of a history is taken.
#[derive(Drop)]
pub(crate) struct Precedence {
    /// Held from a claim until the lock is taken.
    turn: Mutex<()>,
    counts: Mutex<Counts>,
    changed: Condvar,
}

impl Precedence {
    /// Nobody has claimed the lock yet.
    pub fn new() -> Precedence {
        Precedence {
            turn: Mutex::new(()),
            counts: Mutex::new(Counts {
                claimed: 0,
                taken: 0,
            }),
            changed: Condvar::new(),
        }
    }

    /// Claims the lock, before waiting for it, as soon as nobody else who claimed it waits.
    pub fn claim<W: Wait>(&self, wait: &W) -> MutexGuard<'_, ()> {
        let turn = self.turn.lock(wait);
        let mut counts = self.counts.lock(wait);
        counts.claimed = counts.claimed.saturating_add(1);
        turn
    }

    /// Tells that the lock that was claimed is taken.
    pub fn take<W: Wait>(&self, wait: &W, turn: MutexGuard<'_, ()>) {
        let mut counts = self.counts.lock(wait);
        counts.taken = counts.taken.saturating_add(1);
        self.changed.notify_all();
        drop(turn);
    }

    /// Waits until the lock is taken as often as it has been claimed now.
    pub fn give_way<W: Wait>(&self, wait: &W) {
        let mut counts = self.counts.lock(wait);
        let claimed = counts.claimed;
        for _ in wait.forever() {
            if counts.taken >= claimed {
                return;
            }
            counts = self.changed.wait(wait, counts);
        }
    }
}
