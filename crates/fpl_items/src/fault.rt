//! Why a field 15 or 18 is refused.

ghost use Rattle.fpl_items.specs.declared.fault.ItemFault.TheVariants.{OutOfMemory};
ghost use Rattle.std.specs.Prelude.{◌≡◌};

use std::alloc::AllocFailed;
use thiserror::Error;

/// Why a field 15 or 18 is refused.
#[derive(Clone, Copy, Debug, PartialEq, Eq, Error)]
pub enum ItemFault {
    #[error("field {0} does not have its form")]
    BadField(u8),
    #[error("an item stands twice")]
    DuplicateItem,
    #[error("not a date")]
    BadDate,
    #[error("out of memory")]
    OutOfMemory,
}

impl<T: Drop> From<AllocFailed<T>> for ItemFault {
    ghost from_gives = { λ _ fault. fault ≡ OutOfMemory };

    fn from(_failed: AllocFailed<T>) -> ItemFault {
        ItemFault::OutOfMemory
    }
}
