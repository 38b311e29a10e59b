//! Tells the second run of a journal how far the first has come.
use std::sync::{Condvar, Mutex, Wait};

/// The number of filings that the second run waits for.
const ENOUGH: u64 = 512;

/// The most that it files at once: feeders wait for the lock while it copies them.
const MOST: u64 = 4096;

/// How far the first run has come, as the second hears.
#[derive(Clone, Copy)]
struct Told {
    /// The number of filings that it hasn't been given to file.
    filings: u64,
    /// Whether feeders still file.
    is_open: bool,
}

/// Tells the second run of a journal how far the first has come.
#[derive(Drop)]
pub(crate) struct Progress {
    told: Mutex<Told>,
    changed: Condvar,
}

impl Progress {
    /// Tells of no filings yet.
    pub fn new() -> Progress {
        Progress {
            told: Mutex::new(Told {
                filings: 0,
                is_open: true,
            }),
            changed: Condvar::new(),
        }
    }

    /// Tells that at most this many more filings were entered.
    pub fn tell<P: Wait>(&self, wait: &P, filings: u64) {
        let mut told = self.told.lock(wait);
        told.filings = told.filings.saturating_add(filings);
        let are_enough = told.filings >= ENOUGH;
        drop(told);
        if are_enough {
            self.changed.notify_all();
        }
    }

    /// Tells that all feeders have ended.
    pub fn close<P: Wait>(&self, wait: &P) {
        self.told.lock(wait).is_open = false;
        self.changed.notify_all();
    }

    /// Waits until there are filings enough, and returns how many the second run has to file. It is
    /// 0 once all feeders have ended.
    pub fn wait<P: Wait>(&self, wait: &P) -> u32 {
        let mut told = self.told.lock(wait);
        for _ in wait.forever() {
            if !told.is_open {
                return 0;
            }
            if told.filings >= ENOUGH {
                let filings = told.filings.min(MOST);
                told.filings -= filings;
                return filings as u32;
            }
            told = self.changed.wait(wait, told);
        }
        unreachable!()
    }
}
