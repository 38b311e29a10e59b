//! The flights with frozen slots.
ghost use Rattle.std.specs.Prelude.{ℕ, OnOk, IsSome};
ghost use Rattle.std.specs.List.{All, Contains};
ghost use Rattle.std.specs.List.Sorted.{IsStrictlyIncreasing};
ghost use Rattle.flow_slots.specs.Lineup.{fixed_slot};

use flow_slots::SlotList;
use std::alloc::{AllocError, Allocator};

/// Replaces what `flights` holds by the flights with frozen slots in a slot list, by rising number.
/// Returns `Err` if allocation fails.
pub(crate) fn note_fixed<A: Allocator + Copy>(
    list: &SlotList<A>,
    flights: &mut Vec<u32, A>,
) -> Result<(), AllocError>
    ensures rising { OnOk result (IsStrictlyIncreasing flights.new.items) }
    ensures each { OnOk result
        (All (λ n. IsSome (fixed_slot list.now.lineup n)) flights.new.items) }
    ensures all { OnOk result
        ((n : ℕ) → IsSome (fixed_slot list.now.lineup n) → Contains flights.new.items n) }
{
    flights.clear();
    if list.keeps_none() {
        return Ok(());
    }
    let last = list.max_plans();
    let mut number = list.next_held(1);
    while number <= last {
        if list.is_fixed(number) {
            flights.push(number)?;
        }
        number = list.next_held(number + 1);
    }
    Ok(())
}
