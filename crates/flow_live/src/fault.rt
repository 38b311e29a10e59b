//! How feeds end, and why a run does.
ghost use Rattle.std.specs.Prelude.{◌≡◌};
ghost use Rattle.flow_live.specs.declared.fault.StopFault.TheVariants.{OutOfMemory};
ghost use Rattle.flow_live.specs.declared.fault.LiveFault.TheVariants.{Stopped};

use std::alloc::AllocError;

/// Why a run ended before its feeds did.
#[derive(Clone, Copy, Debug, PartialEq, Eq)]
pub enum StopFault {
    /// The writer of all answers failed, or took no byte.
    Write,
    /// The store failed, or is full.
    Store,
    /// Allocation failed.
    OutOfMemory,
}

impl From<AllocError> for StopFault {
    ghost from_gives = { λ _ made. made ≡ OutOfMemory };

    fn from(_error: AllocError) -> StopFault {
        StopFault::OutOfMemory
    }
}

/// Why there was no run, or it ended before its feeds did.
#[derive(Clone, Copy, Debug, PartialEq, Eq)]
pub enum LiveFault {
    /// Not 1 to 64 feeds, or an entry of the core has a feeder that isn't below their number.
    Feeds,
    /// A feeder can't be registered as a reader of the board.
    NoReader,
    /// The run ended.
    Stopped(StopFault),
}

impl From<StopFault> for LiveFault {
    ghost from_gives = { λ fault made. made ≡ Stopped fault };

    fn from(fault: StopFault) -> LiveFault {
        LiveFault::Stopped(fault)
    }
}

/// How a feed ended.
#[derive(Clone, Copy, Debug, PartialEq, Eq)]
pub enum FeedEnd {
    /// It hasn't ended.
    Open,
    /// Its source has ended, and each of its frames was answered.
    Finished,
    /// Its source failed. An interrupted call is a failure, too.
    Read,
    /// Its source gave more than 4,000,000,000 bytes.
    TooMuch,
    /// Its writer failed, or took no byte.
    Write,
    /// The run ended with this fault.
    Stopped(StopFault),
}

/// Is called when a fault comes, by one thread at a time.
pub trait Watch {
    /// The feed of this feeder ended with a fault of its own.
    fn feed_ended(&self, feeder: u8, end: FeedEnd);

    /// There is no run, or it ends with this fault: nobody is answered any more.
    fn run_ended(&self, fault: LiveFault);
}
