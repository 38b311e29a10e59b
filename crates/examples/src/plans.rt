//! Filing flight plans, with flow_plans alone.
ghost use Rattle.std.specs.Prelude.{◌≡◌, Ok, length, IfOk, IfErr};
ghost use Rattle.flow_plans.specs.Settings.{IsDeskTime};
ghost use Rattle.flow_plans.specs.Changes.{filed, IsRefusal};

use flow_plans::{PlanFault, PlanStore};
use fpl_message::Fpl;
use fpl_text::Minute;
use std::alloc::Allocator;

/// Whether a flight plan would be accepted at this time: files it, and undoes that. Returns the
/// number that it would have. The store's last change can't be undone after that.
///
/// # Errors
///
/// Why the plan would be refused, or `OutOfMemory`.
pub fn would_accept<A: Allocator + Copy>(
    store: &mut PlanStore<A>,
    message: &Fpl<A>,
    now: Minute,
) -> Result<u32, PlanFault>
    requires { IsDeskTime now }
    ensures accepted { IfOk result (λ number. (after : _)
        × (filed store.old.max_plans now store.old.plans message.now
        ≡ Ok after) × (number ≡ length after)) }
    ensures refused { IfErr result (λ e.
        IsRefusal e (filed store.old.max_plans now store.old.plans message.now)) }
    ensures same { store.new.plans ≡ store.old.plans }
{
    let number = store.file(message, now)?;
    store.take_back();
    Ok(number)
}
