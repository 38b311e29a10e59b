//! Laws about the definitions that contracts cite: two held plans never have the same key, and a
//! number always names the plan that it was given to. Plans are found by chains that have held
//! plans only. The laws are about the plans before and after a message, and those of whole runs.

ghost use Rattle.std.specs.Prelude.{◌≡◌, ◌<◌, ◌≤◌, ◌+◌, ◌%◌, ◌↔◌, ℕ, true};
ghost use Rattle.std.specs.Prelude.{List, [], ◌∷◌, length, Ok, Some, None};
ghost use Rattle.fpl_message.specs.declared.short_message.Dla.{Dla};
ghost use Rattle.fpl_message.specs.declared.short_message.Cnl.{Cnl};
ghost use Rattle.fpl_message.specs.declared.short_message.Dep.{Dep};
ghost use Rattle.fpl_message.specs.Messages.{FplView, ChgView};
ghost use Rattle.flow_plans.specs.declared.chains.FlightName.{FlightName};
ghost use Rattle.flow_plans.specs.declared.plan.Key.{Key};
ghost use Rattle.flow_plans.specs.Chains.{ChainsView, newest, AreChained, chain_from, held_numbers};
ghost use Rattle.flow_plans.specs.Plans.{PlanView, is_held, same_key, plan_at};
ghost use Rattle.flow_plans.specs.Changes.{Changed, plan_of, asked_off_block, filed};
ghost use Rattle.flow_plans.specs.Changes.{delayed, cancelled, departed, amended};
ghost use Rattle.flow_plans.specs.Distinct.{AreDistinct, KeepKeys, KeepFlights};
ghost use Rattle.flow_plans.specs.Runs.{Change, change_of, changed_all, Turn};
ghost use Rattle.flow_plans.specs.Runs.{changes, takes_back, Held, after_turns};
ghost use Rattle.flow_plans.specs.Runs.{nothing_held};
ghost use Rattle.flow_plans.specs.Times.{first_from};
ghost use Rattle.flow_plans.specs.declared.setup.TheConstants.{MAX_TAXI, MAX_PLANS, MAX_ENTRIES};
ghost use Rattle.flow_plans.specs.declared.times.TheConstants.{FURTHEST_AHEAD, LONGEST_DELAY};
ghost use Rattle.fpl_text.specs.declared.minute.TheConstants.{YEAR_2000, YEAR_2099};

/// Keys that the desk finds equal are equal.
pub fn same_keys_are_equal()
    ensures { (k l : Key) → (same_key k l ≡ true) ↔ (k ≡ l) }
{}

/// Held plans of different numbers have different keys.
pub fn held_keys_differ()
    ensures { (plans : List PlanView) → AreDistinct plans → (m n : ℕ) (p q : PlanView) → 0 < m
        → 0 < n
        → plan_at plans m ≡ Some p → plan_at plans n ≡ Some q → is_held p.state ≡ true
        → is_held q.state ≡ true
        → (m ≡ n → ⊥) → p.key ≡ q.key → ⊥ }
{}

/// A desk starts without plans.
pub fn no_plans_are_distinct()
    ensures { AreDistinct [] }
{}

/// A filed plan has a key that no held plan has, and the next number.
pub fn filed_plans_stay_distinct()
    ensures distinct { (max now : ℕ) (plans later : List PlanView) (m : FplView)
        → filed max now plans m ≡ Ok later
        → AreDistinct plans → AreDistinct later }
    ensures keys { (max now : ℕ) (plans later : List PlanView) (m : FplView)
        → filed max now plans m ≡ Ok later
        → KeepKeys plans later }
    ensures count { (max now : ℕ) (plans later : List PlanView) (m : FplView)
        → filed max now plans m ≡ Ok later
        → length later ≡ length plans + 1 }
    ensures number { (max now : ℕ) (plans later : List PlanView) (m : FplView)
        → filed max now plans m ≡ Ok later
        → plan_at later (length plans + 1) ≡ Some (plan_of (asked_off_block now m) m) }
{}

/// A delay leaves all keys and numbers unchanged.
pub fn delayed_plans_stay_distinct()
    ensures distinct { (now : ℕ) (plans : List PlanView) (m : Dla) (later : Changed)
        → delayed now plans m ≡ Ok later
        → AreDistinct plans → AreDistinct later.plans }
    ensures keys { (now : ℕ) (plans : List PlanView) (m : Dla) (later : Changed)
        → delayed now plans m ≡ Ok later
        → KeepKeys plans later.plans }
    ensures count { (now : ℕ) (plans : List PlanView) (m : Dla) (later : Changed)
        → delayed now plans m ≡ Ok later
        → length later.plans ≡ length plans }
{}

/// A cancelled plan keeps its number and its key, which it does not hold any more.
pub fn cancelled_plans_stay_distinct()
    ensures distinct { (plans : List PlanView) (m : Cnl) (later : Changed)
        → cancelled plans m ≡ Ok later
        → AreDistinct plans → AreDistinct later.plans }
    ensures keys { (plans : List PlanView) (m : Cnl) (later : Changed) → cancelled plans m
        ≡ Ok later
        → KeepKeys plans later.plans }
    ensures count { (plans : List PlanView) (m : Cnl) (later : Changed) → cancelled plans m
        ≡ Ok later
        → length later.plans ≡ length plans }
{}

/// A departed plan holds its key as before: only a filed one departs.
pub fn departed_plans_stay_distinct()
    ensures distinct { (plans : List PlanView) (m : Dep) (later : Changed) → departed plans m
        ≡ Ok later
        → AreDistinct plans → AreDistinct later.plans }
    ensures keys { (plans : List PlanView) (m : Dep) (later : Changed) → departed plans m ≡ Ok later
        → KeepKeys plans later.plans }
    ensures count { (plans : List PlanView) (m : Dep) (later : Changed) → departed plans m
        ≡ Ok later
        → length later.plans ≡ length plans }
{}

/// An amended destination gives a key that no other held plan has; the rest of the key and all
/// numbers are unchanged.
pub fn amended_plans_stay_distinct()
    ensures distinct { (now : ℕ) (plans : List PlanView) (m : ChgView) (later : Changed)
        → amended now plans m ≡ Ok later
        → AreDistinct plans → AreDistinct later.plans }
    ensures keys { (now : ℕ) (plans : List PlanView) (m : ChgView) (later : Changed)
        → amended now plans m ≡ Ok later
        → KeepFlights plans later.plans }
    ensures count { (now : ℕ) (plans : List PlanView) (m : ChgView) (later : Changed)
        → amended now plans m ≡ Ok later
        → length later.plans ≡ length plans }
    ensures others { (now : ℕ) (plans : List PlanView) (m : ChgView) (later : Changed)
        → amended now plans m ≡ Ok later
        → (number : ℕ) → 0 < number → (number ≡ later.number → ⊥)
        → plan_at later.plans number ≡ plan_at plans number }
{}

/// Whatever messages come to a desk, and whichever last change is undone between them, held plans
/// of different numbers have different keys.
pub fn held_keys_always_differ()
    ensures { (turns : List Turn) → AreDistinct (after_turns turns nothing_held).plans }
{}

/// After any messages a number names the flight that it was given to, and a plan filed later has a
/// greater number.
pub fn numbers_are_given_once()
    ensures flights { (messages : List Change) (plans : List PlanView)
        → KeepFlights plans (changed_all messages plans) }
    ensures greater { (messages : List Change) (plans : List PlanView) (max now : ℕ) (m : FplView)
        (later : List PlanView)
        → filed max now (changed_all messages plans) m ≡ Ok later → length plans < length later }
{}

/// A change that was undone leaves no trace, except that nothing can be undone. The plans after any
/// turns are those that changes alone make.
pub fn what_is_taken_back_is_gone()
    ensures at_once { (held : Held) (change : Change) (later : List PlanView)
        → change_of held.plans change ≡ Ok later
        → after_turns (changes change ∷ takes_back ∷ []) held
        ≡ record { plans = held.plans; before = None } }
    ensures all { (turns : List Turn)
        → (messages : List Change)
        × ((after_turns turns nothing_held).plans ≡ changed_all messages []) }
{}

/// The chain of a flight, by which its plans are found, has the numbers of the held plans of its
/// name, the newest first, each once, and no others. So a message costs these, whatever was filed,
/// amended and cancelled before.
pub fn chains_have_held_plans_alone()
    ensures { (chains : ChainsView) (plans : List PlanView) (name : FlightName)
        → AreChained chains plans
        → chain_from (length plans) chains.older (newest chains.heads name)
        ≡ held_numbers name plans (length plans) }
{}

/// The time found for a time of day is the first one not before the given time: a flight plan
/// without a day gets the first from the desk's time on, a delay the first after the off-block date
/// and time held.
pub fn first_from_is_first()
    ensures from { (moment time : ℕ) → moment ≤ first_from moment time }
    ensures time { (moment time : ℕ) → time < 1_440 → first_from moment time % 1_440 ≡ time }
    ensures first { (moment time m : ℕ) → moment ≤ m → m % 1_440 ≡ time
        → first_from moment time ≤ m }
{}

/// The values of the limits: minutes of a delay and of an off-block time after the desk's time,
/// minutes of taxi time, flight plans, entries of a journal, and the times 2000-01-01 00:00 and
/// 2099-01-01 00:00.
pub fn limits_are()
    ensures delay { LONGEST_DELAY ≡ 720 }
    ensures ahead { FURTHEST_AHEAD ≡ 7_200 }
    ensures taxi { MAX_TAXI ≡ 120 }
    ensures plans { MAX_PLANS ≡ 20_000 }
    ensures entries { MAX_ENTRIES ≡ 1_000_000 }
    ensures start { YEAR_2000 ≡ 15_778_080 }
    ensures end { YEAR_2099 ≡ 67_848_480 }
{}
