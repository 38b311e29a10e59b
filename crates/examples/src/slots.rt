//! Allocating slots, with flow_slots alone.
ghost use Rattle.std.specs.Prelude.{◌≡◌, ◌<◌, IsSome};
ghost use Rattle.flow_slots.specs.Period.{IsWithin};
ghost use Rattle.flow_slots.specs.Lineup.{held_slot, with_waiting, without_flight};

use flow_slots::SlotList;
use fpl_text::Minute;
use std::alloc::Allocator;

/// Gives a flight with a slot another entry time within the period, and returns its new slot,
/// counted from 0.
pub fn plan_again<A: Allocator + Copy>(
    list: &mut SlotList<A>,
    flight: u32,
    entry: Minute,
) -> Option<u32>
    requires held { IsSome (held_slot list.old.lineup flight) }
    requires entry { IsWithin list.old.lineup.period entry }
    ensures lineup { list.new.lineup ≡ with_waiting (record { entry = entry; flight = flight })
        (without_flight flight list.old.lineup) }
    ensures slot { result ≡ held_slot list.new.lineup flight }
{
    list.remove(flight);
    list.insert(flight, entry);
    list.slot_of(flight)
}
