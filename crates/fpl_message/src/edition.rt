//! The edition of the rules by which a filing is read.

/// The edition of the rules by which an order to open a regulation is read.
#[derive(Clone, Copy, Debug, PartialEq, Eq)]
pub enum Edition {
    /// OPEN has one rate.
    First,
    /// OPEN has a rate for each sub-period.
    Second,
}
