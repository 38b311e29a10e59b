//! Slot notices.
ghost use Rattle.std.specs.Prelude.{◌≡◌};

use fpl_text::{Minute, Text};

/// A calculated take-off time (CTOT), and the name of the regulation that causes it.
#[derive(Clone, Copy, Debug, PartialEq, Eq)]
pub struct Told {
    pub ctot: Minute,
    pub regulation: Text<8>,
}

/// What a notice says: a slot (SAM), another slot (SRM), or none any more (SLC).
#[derive(Debug, Drop, PartialEq, Eq)]
pub enum Said {
    Sam(Told),
    Srm(Told),
    Slc,
}

/// A slot notice to a plan, with the plan's values at that time.
#[derive(Debug, Drop, PartialEq, Eq)]
pub struct Notice {
    pub ident: Text<7>,
    pub dep: Text<4>,
    pub dest: Text<4>,
    pub off_block: Minute,
    pub says: Said,
}

/// How a departure compares with the CTOT: from 5 minutes before it to 10 minutes after it is
/// within the window (ATFCM Users Manual, slot tolerance). `None` if no CTOT was issued to the
/// plan.
#[derive(Clone, Copy, Debug, PartialEq, Eq)]
pub enum Window {
    None,
    Early,
    InWindow,
    Late,
}
