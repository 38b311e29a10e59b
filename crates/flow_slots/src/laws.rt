//! Laws about the definitions that contracts cite: what the fresh allocation of a lineup is,
//! however it is computed, that freezing a slot moves nobody, and that each list of changes is
//! undone by further calls. The lineups are those that the clauses of the calls name.

ghost use Rattle.std.specs.Prelude.{◌≡◌, ℕ, ◌<◌, ◌⊎◌, ◌↔◌, true, List, [], Some, IsSome};
ghost use Rattle.flow_slots.specs.ChangeList.{MayAll, changed_by};
ghost use Rattle.flow_slots.specs.Delay.{HasLeastDelay, Rise, waiting_slots};
ghost use Rattle.flow_slots.specs.FirstServed.{IsFirstServed};
ghost use Rattle.flow_slots.specs.Lineup.{Lineup, MayFill, len_of, assigned};
ghost use Rattle.flow_slots.specs.Lineup.{held_slot, held_flight, fixed_slot};
ghost use Rattle.flow_slots.specs.Lineup.{waiting_entry, with_all_waiting, fixed_at};
ghost use Rattle.flow_slots.specs.LineupLaws.{IsNumber, IsSound, NoneTwice, Waits, IsNextFree};
ghost use Rattle.flow_slots.specs.Order.{stands_before};
ghost use Rattle.flow_slots.specs.Period.{Period, IsRegular};
ghost use Rattle.flow_slots.specs.Undoings.{undoing_all};
ghost use Rattle.flow_slots.specs.declared.cell.Planned.{Planned};
ghost use Rattle.flow_slots.specs.declared.change_list.Change.{Change};
ghost use Rattle.flow_slots.specs.declared.shape.TheConstants.{LONGEST_PERIOD, MOST_AN_HOUR};

/// No two flights have one slot, and no flight has two: the slot of a flight and the flight in a
/// slot are inverse. All provisional flights have a slot, and frozen ones have theirs.
pub fn one_slot_each()
    ensures pairs { (l : Lineup) → IsSound l → NoneTwice (assigned l) }
    ensures inverse { (l : Lineup) (flight k : ℕ) → IsSound l
        → (held_slot l flight ≡ Some k) ↔ (held_flight l k ≡ Some flight) }
    ensures all { (l : Lineup) (flight : ℕ)
        → IsSome (held_slot l flight)
        ↔ (IsSome (fixed_slot l flight) ⊎ IsSome (waiting_entry l flight)) }
    ensures kept { (l : Lineup) (flight k : ℕ) → fixed_slot l flight ≡ Some k
        → held_slot l flight ≡ Some k }
{}

/// A slot with a flight is one of the list, and its flight has a number of the list.
pub fn slots_are_of_the_list()
    ensures slot { (l : Lineup) (flight k : ℕ) → IsSound l → held_slot l flight ≡ Some k
        → k < len_of l }
    ensures number { (l : Lineup) (flight k : ℕ) → IsSound l → held_slot l flight ≡ Some k
        → IsNumber l flight }
{}

/// The slots of the provisional flights rise in the order of their entries, ties by the lower
/// number.
pub fn slots_rise()
    ensures rise { (l : Lineup) → IsSound l → Rise (waiting_slots l) }
    ensures order { (l : Lineup) (v w : Planned) (j k : ℕ) → IsSound l → Waits l v → Waits l w
        → stands_before v w ≡ true → held_slot l v.flight ≡ Some j
        → held_slot l w.flight ≡ Some k → j < k }
{}

/// Freezing a flight in its provisional slot leaves the allocation unchanged.
pub fn fixing_moves_nobody()
    ensures { (l : Lineup) (w : Planned) (k flight : ℕ) → IsSound l → Waits l w
        → held_slot l w.flight ≡ Some k
        → held_slot (fixed_at (record { flight = w.flight; slot = k }) l) flight
        ≡ held_slot l flight }
{}

/// Each provisional flight has the first slot not before its entry that is free for it: each slot
/// between is frozen, or has a provisional flight that precedes it. No other choice of slots around
/// the frozen ones has a smaller sum of delays.
pub fn delays_are_least()
    ensures next_free { (l : Lineup) (w : Planned) (k : ℕ) → IsSound l → Waits l w
        → held_slot l w.flight ≡ Some k → IsNextFree l w k }
    ensures first_served { (l : Lineup) → IsSound l → IsFirstServed l }
    ensures least { (l : Lineup) → IsSound l → HasLeastDelay l }
{}

/// The lineup of an empty list is sound, and changes under their conditions leave a sound lineup
/// sound.
pub fn lineups_stay_sound()
    ensures none { (p : Period) (n : ℕ) → IsRegular p
        → IsSound (record { period = p; capacity = n; waiting = []; fixed = [] }) }
    ensures changed { (changes : List Change) (l : Lineup) → IsSound l → MayAll changes l
        → IsSound (changed_by changes l) }
    ensures filled { (flights : List Planned) (l : Lineup) → IsSound l → MayFill flights l
        → IsSound (with_all_waiting flights l) }
{}

/// A list of changes is undone by the changes that undo each, the last one first: their conditions
/// hold after it, and they lead back to the same lineup, so to the same row.
pub fn changes_undone()
    ensures may { (changes : List Change) (l : Lineup) → IsSound l → MayAll changes l
        → MayAll (undoing_all changes l) (changed_by changes l) }
    ensures back { (changes : List Change) (l : Lineup) → IsSound l → MayAll changes l
        → changed_by (undoing_all changes l) (changed_by changes l) ≡ l }
{}

/// The limits of a regulation: flights an hour, and minutes of its period.
pub fn limits_are()
    ensures rate { MOST_AN_HOUR ≡ 240 }
    ensures period { LONGEST_PERIOD ≡ 1_440 }
{}
