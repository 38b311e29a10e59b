//! The answer to a filing.
use flow_traffic::Verdict;

/// The answer to a filing. Entries are numbered from 1, notices from 0.
#[derive(Clone, Copy, Debug, PartialEq, Eq)]
pub struct Receipt {
    pub number: u32,
    pub verdict: Verdict,
    /// The number of the first notice that the filing caused, if it caused any.
    pub first_notice: u64,
    /// The number of notices that it caused.
    pub notices: u32,
}

/// Why a filing has no entry.
#[derive(Clone, Copy, Debug, PartialEq, Eq)]
pub enum StepFault {
    /// The journal holds as many entries as the setup allows.
    JournalFull,
    /// An allocation failed, or the first notice of the filing would have number 2^32 or above.
    OutOfMemory,
}
