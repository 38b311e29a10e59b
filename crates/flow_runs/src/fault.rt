//! Why a run ends before all is answered.
ghost use Rattle.std.specs.Prelude.{◌≡◌, ◌≢◌};
ghost use Rattle.flow_runs.specs.Faults.{fault_of_frame, fault_of_journal, IsFaultOfDesk};
ghost use Rattle.flow_runs.specs.declared.fault.RunFault.TheVariants.{OutOfMemory, Write};

use flow_core::{IntakeFault, JournalFault, WriteFault};
use flow_desk::DeskFault;
use std::alloc::AllocError;

/// Why a run ended before all was answered.
#[derive(Clone, Copy, Debug, PartialEq, Eq)]
pub enum RunFault {
    /// The reader failed; an interrupted call is a failure, too.
    Read,
    /// The input has more than 4,000,000,000 bytes, without the journal text that it begins with.
    TooMuch,
    /// The writer failed, or took no byte.
    Write,
    OutOfMemory,
    /// The board has no reader left for a feeder.
    NoReader,
    /// A feed was never begun. No run ends so: without a thread, feeds run one after the other.
    NotStarted,
    /// The input doesn't begin with a journal text (40).
    BadJournal,
    /// An entry of the journal text has a feeder that isn't below the number of feeders (41).
    BadFeeders,
}

impl From<AllocError> for RunFault {
    ghost from_gives = { λ _ made. made ≡ OutOfMemory };

    fn from(_error: AllocError) -> RunFault {
        RunFault::OutOfMemory
    }
}

impl From<WriteFault> for RunFault {
    ghost from_gives = { λ _ made. made ≡ Write };

    fn from(_fault: WriteFault) -> RunFault {
        RunFault::Write
    }
}

impl From<IntakeFault> for RunFault {
    ghost from_gives = { λ fault made. made ≡ fault_of_frame fault };

    fn from(fault: IntakeFault) -> RunFault {
        match fault {
            IntakeFault::Read => RunFault::Read,
            IntakeFault::TooMuch => RunFault::TooMuch,
            IntakeFault::OutOfMemory => RunFault::OutOfMemory,
        }
    }
}

impl From<JournalFault> for RunFault {
    ghost from_gives = { λ fault made. made ≡ fault_of_journal fault };

    fn from(fault: JournalFault) -> RunFault {
        match fault {
            JournalFault::Read => RunFault::Read,
            JournalFault::NotAJournal => RunFault::BadJournal,
            JournalFault::OutOfMemory => RunFault::OutOfMemory,
        }
    }
}

/// The fault of a run for one of opening its desk.
pub(crate) fn why_no_desk(fault: DeskFault) -> RunFault
    requires { fault ≢ DeskFault.Feeders }
    ensures { IsFaultOfDesk fault result }
{
    match fault {
        DeskFault::Feeders => unreachable!(),
        DeskFault::FeederBeyond(_) => RunFault::BadFeeders,
        DeskFault::NoReader => RunFault::NoReader,
        DeskFault::OutOfMemory => RunFault::OutOfMemory,
    }
}
