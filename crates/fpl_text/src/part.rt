//! Sub-periods of a regulation.

use crate::minute::Minute;

/// The greatest number of further sub-periods of a regulation.
pub const MOST_PARTS: usize = 7;

/// A sub-period of a regulation: from `from` on, `rate` flights an hour may enter.
#[derive(Clone, Copy, Debug, Default, PartialEq, Eq)]
pub struct Part {
    pub from: Minute,
    pub rate: u32,
}
