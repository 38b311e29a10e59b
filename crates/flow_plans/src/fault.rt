//! Why a message about a plan is refused.

/// Why a message about a plan is refused. Each but `OutOfMemory` is the
/// [`Refusal`](fpl_message::Refusal) of the same name.
#[derive(Clone, Copy, Debug, PartialEq, Eq)]
pub enum PlanFault {
    /// A held plan has the same key.
    AlreadyHeld,
    /// No plan matches the message.
    NoPlan,
    /// Several plans match the message.
    Ambiguous,
    /// The plan that matches the message has departed.
    AlreadyDeparted,
    /// An amendment that would make another flight of the plan.
    KeyChange,
    /// A delay to the same time of day.
    NotLater,
    /// A delay of more than 720 minutes.
    DelayTooLong,
    /// An off-block date and time before the desk's time.
    Past,
    /// An off-block date and time more than 120 hours after the desk's time.
    TooEarly,
    /// The desk has accepted as many flight plans as its setup allows.
    PlansFull,
    /// An allocation failed.
    OutOfMemory,
}
