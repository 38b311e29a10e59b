//! Why a run ended before its input did: the line of each fault, and its exit status.
ghost use Rattle.std.specs.Prelude.{◌≤◌};

use flow_core::{JournalFault, ServeFault};
use flow_live::{LiveFault, StopFault};
use flow_runs::{RunFault, StoredRunFault};
use flow_store::{OpenFault, StoreFault, StoredFault};

/// Exit statuses.
pub const DONE: u8 = 0;

pub const DEVICE_FAILED: u8 = 1;

pub const NOT_RUN: u8 = 2;

/// Why a run ended before its input did.
#[derive(Clone, Copy)]
pub enum Fault {
    Read,
    Write,
    BadStart,
    BadJournal,
    BadFeeders,
    /// The folder of `--feeds` isn't there, or isn't one of 1 to 64 feeds.
    BadFeeds,
    NoReader,
    NotStarted,
    OutOfMemory,
    /// The store's file can't be reached, or a call that writes or syncs it failed.
    Store,
    /// There is no file, and nothing says how a new desk starts.
    NoStore,
    /// There is a file already, and a new desk was asked for.
    StoreExists,
    /// Another desk has locked the file.
    StoreInUse,
    /// The file is no store, one of another version, or damaged.
    BadStore,
}

impl Fault {
    pub fn status(self) -> u8
        ensures some { 1 ≤ result }
        ensures most { result ≤ 2 }
    {
        match self {
            Fault::Read | Fault::Write | Fault::BadJournal => DEVICE_FAILED,
            Fault::Store | Fault::BadStore => DEVICE_FAILED,
            Fault::BadStart | Fault::BadFeeders | Fault::BadFeeds => NOT_RUN,
            Fault::NoReader | Fault::NotStarted | Fault::OutOfMemory => NOT_RUN,
            Fault::NoStore | Fault::StoreExists | Fault::StoreInUse => NOT_RUN,
        }
    }

    pub fn line(self) -> &'static [u8] {
        match self {
            Fault::Read => b"slotdesk: read fault\n",
            Fault::Write => b"slotdesk: write fault\n",
            Fault::BadStart => b"slotdesk: bad start\n",
            Fault::BadJournal => b"slotdesk: bad journal\n",
            Fault::BadFeeders => b"slotdesk: bad feeders\n",
            Fault::BadFeeds => b"slotdesk: bad feeds\n",
            Fault::NoReader => b"slotdesk: no reader\n",
            Fault::NotStarted => b"slotdesk: thread not started\n",
            Fault::OutOfMemory => b"slotdesk: out of memory\n",
            Fault::Store => b"slotdesk: store fault\n",
            Fault::NoStore => b"slotdesk: no store\n",
            Fault::StoreExists => b"slotdesk: store exists\n",
            Fault::StoreInUse => b"slotdesk: store in use\n",
            Fault::BadStore => b"slotdesk: bad store\n",
        }
    }
}

impl From<ServeFault> for Fault {
    fn from(fault: ServeFault) -> Fault {
        match fault {
            ServeFault::Read | ServeFault::TooMuch => Fault::Read,
            ServeFault::Write => Fault::Write,
            ServeFault::OutOfMemory => Fault::OutOfMemory,
        }
    }
}

impl From<JournalFault> for Fault {
    fn from(fault: JournalFault) -> Fault {
        match fault {
            JournalFault::Read => Fault::Read,
            JournalFault::NotAJournal => Fault::BadJournal,
            JournalFault::OutOfMemory => Fault::OutOfMemory,
        }
    }
}

impl From<RunFault> for Fault {
    fn from(fault: RunFault) -> Fault {
        match fault {
            RunFault::Read | RunFault::TooMuch => Fault::Read,
            RunFault::Write => Fault::Write,
            RunFault::OutOfMemory => Fault::OutOfMemory,
            RunFault::NoReader => Fault::NoReader,
            RunFault::NotStarted => Fault::NotStarted,
            RunFault::BadJournal => Fault::BadJournal,
            RunFault::BadFeeders => Fault::BadFeeders,
        }
    }
}

impl From<LiveFault> for Fault {
    fn from(fault: LiveFault) -> Fault {
        match fault {
            LiveFault::Feeds => Fault::BadFeeders,
            LiveFault::NoReader => Fault::NoReader,
            LiveFault::Stopped(StopFault::Write) => Fault::Write,
            LiveFault::Stopped(StopFault::Store) => Fault::Store,
            LiveFault::Stopped(StopFault::OutOfMemory) => Fault::OutOfMemory,
        }
    }
}

impl From<StoredFault> for Fault {
    fn from(fault: StoredFault) -> Fault {
        match fault {
            StoredFault::Read | StoredFault::TooMuch => Fault::Read,
            StoredFault::HandOn => Fault::Write,
            StoredFault::OutOfMemory => Fault::OutOfMemory,
            StoredFault::Store => Fault::Store,
        }
    }
}

impl From<StoreFault> for Fault {
    fn from(fault: StoreFault) -> Fault {
        match fault {
            StoreFault::HandOn => Fault::Write,
            StoreFault::OutOfMemory => Fault::OutOfMemory,
            StoreFault::Device | StoreFault::Full => Fault::Store,
        }
    }
}

impl From<StoredRunFault> for Fault {
    fn from(fault: StoredRunFault) -> Fault {
        match fault {
            StoredRunFault::Begin(fault) | StoredRunFault::End(fault) => Fault::from(fault),
            StoredRunFault::Store(fault) => Fault::from(fault),
        }
    }
}

impl From<OpenFault> for Fault {
    fn from(fault: OpenFault) -> Fault {
        match fault {
            OpenFault::Device => Fault::Store,
            OpenFault::Damaged => Fault::BadStore,
            OpenFault::OutOfMemory => Fault::OutOfMemory,
        }
    }
}
