//! Why there is no next frame.

/// Why there is no next frame.
#[derive(Clone, Copy, Debug, PartialEq, Eq)]
pub enum IntakeFault {
    /// The reader failed; an interrupted call is a failure, too.
    Read,
    /// The input has more than 4,000,000,000 bytes.
    TooMuch,
    OutOfMemory,
}
