//! The outcome of a filing.
use flow_regulations::Window;
use fpl_message::Refusal;

/// What was accepted.
#[derive(Clone, Copy, Debug, PartialEq, Eq)]
pub enum Kind {
    Fpl,
    Dla,
    Chg,
    Cnl,
    Open,
    Shut,
    Time,
}

/// The outcome of a filing.
#[derive(Clone, Copy, Debug, PartialEq, Eq)]
pub enum Verdict {
    /// The plan is 0 for an order.
    Accepted { kind: Kind, plan: u32 },
    /// A departure was accepted, in this slot tolerance window.
    Departed { window: Window, plan: u32 },
    Refused(Refusal),
}

// Each filing keeps one as long as the desk is there.
const _: () = prove!(size_of::<Verdict>() <= 8);
