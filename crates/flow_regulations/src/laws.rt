//! Laws over the definitions that the contracts cite: which frozen slots stay, and which plans need
//! not be read when slots are issued.
ghost use Rattle.std.specs.Prelude.{◌≡◌, ℕ, ◌<◌, ◌++◌, ◌∷◌, []};
ghost use Rattle.std.specs.Prelude.{true, false, List, Option, None, length};
ghost use Rattle.std.specs.List.{AllByRecursion};
ghost use Rattle.flow_plans.specs.Plans.{PlanView, is_departed};
ghost use Rattle.flow_slots.specs.Assignment.{Placed, is_in};
ghost use Rattle.flow_regulations.specs.Regulations.{Regulation};
ghost use Rattle.flow_regulations.specs.Settling.{keeps_pair, pairs_of, settled};
ghost use Rattle.flow_regulations.specs.Settling.{frozen_at_departure};
ghost use Rattle.flow_regulations.specs.Listing.{HasPair};
ghost use Rattle.flow_regulations.specs.Advice.{advice};
ghost use Rattle.flow_regulations.specs.Notices.{told_to_plan, notices_from, told_from};
ghost use Rattle.flow_regulations.specs.Quiet.{IsQuiet, AreQuietBut, AllQuiet};
ghost use Rattle.flow_regulations.specs.Quiet.{HasSameSlots, IsUntouched};
ghost use Rattle.flow_regulations.specs.declared.notice.Told.{Told};

/// A frozen flight keeps its slot while it has departed, or is filed, subject and due with a slot
/// that is not before its entry: settling removes no other pair, and the departure of any flight
/// removes none.
pub fn frozen_pairs_stay()
    ensures settling { (taxi now : ℕ) (plans : List PlanView) (r : Regulation) (a : Placed)
        → keeps_pair taxi now plans r a ≡ true → HasPair a r.fixed
        → HasPair a (settled taxi now plans r).fixed }
    ensures departing { (taxi max flight : ℕ) (before : List PlanView) (r : Regulation) (a : Placed)
        → HasPair a r.fixed → HasPair a (frozen_at_departure taxi max before flight r).fixed }
{}

/// A plan to which no notice is pending stays one while the plan, the CTOT last issued to it and
/// its frozen slots are unchanged.
pub fn quiet_stays()
    ensures advice { (taxi number : ℕ) (p : PlanView) (before after : List Regulation)
        → HasSameSlots number before after
        → advice taxi number p after ≡ advice taxi number p before }
    ensures quiet { (taxi number : ℕ) (p : PlanView) (told : Option Told)
        (before after : List Regulation)
        → HasSameSlots number before after
        → IsQuiet taxi number before p told → IsQuiet taxi number after p told }
{}

/// If no notice was pending, none is pending to the plans that are unchanged, with the CTOT last
/// issued to them and their advice.
pub fn untouched_are_quiet()
    ensures { (taxi : ℕ) (changed : List ℕ) (before : List Regulation) (plans : List PlanView)
        (told : List (Option Told))
        (after : List Regulation) (plans_after : List PlanView) (told_after : List (Option Told))
        → ((number : ℕ) → 0 < number → is_in number changed ≡ false
        → IsUntouched taxi before plans told after plans_after told_after number)
        → AllQuiet taxi before plans told → AreQuietBut changed taxi after plans_after told_after }
{}

/// A regulation in which the flight has no frozen slot makes no difference to its advice: it may be
/// opened or shut.
pub fn other_regulation()
    ensures { (taxi number : ℕ) (p : PlanView) (r : Regulation) (before after : List Regulation)
        → pairs_of number r.fixed ≡ []
        → advice taxi number p (before ++ r ∷ after) ≡ advice taxi number p (before ++ after) }
{}

/// No notice is pending to a departed plan, and the CTOT last issued to it stays.
pub fn departed_is_quiet()
    ensures quiet { (taxi number : ℕ) (regulations : List Regulation) (p : PlanView)
        (told : Option Told)
        → is_departed p.state ≡ true
        → IsQuiet taxi number regulations p told }
    ensures stays { (taxi number : ℕ) (regulations : List Regulation) (p : PlanView)
        (told : Option Told)
        → IsQuiet taxi number regulations p told
        → told_to_plan p told (advice taxi number p regulations) ≡ told }
{}

/// If no notice is pending to any plan, none is issued, and the CTOTs last issued stay.
pub fn telling_again()
    ensures says { (taxi : ℕ) (regulations : List Regulation) (plans : List PlanView)
        (told : List (Option Told))
        → AllQuiet taxi regulations plans told → notices_from 1 taxi regulations plans told ≡ [] }
    ensures stays { (taxi : ℕ) (regulations : List Regulation) (plans : List PlanView)
        (told : List (Option Told))
        → length told ≡ length plans → AllQuiet taxi regulations plans told
        → told_from 1 taxi regulations plans told ≡ told }
{}

/// A flight that has no frozen slot in any regulation is to be issued none.
pub fn nowhere_frozen()
    ensures { (taxi number : ℕ) (p : PlanView) (regulations : List Regulation)
        → AllByRecursion (λ r. pairs_of number r.fixed ≡ []) regulations
        → advice taxi number p regulations ≡ None }
{}

/// A flight keeps its slots if nothing changes, over one change after another, and over two lists
/// of regulations if it does over each.
pub fn slots_are_kept()
    ensures same { (number : ℕ) (regulations : List Regulation)
        → HasSameSlots number regulations regulations }
    ensures in_turn { (number : ℕ) (first middle last : List Regulation)
        → HasSameSlots number first middle
        → HasSameSlots number middle last → HasSameSlots number first last }
    ensures joined { (number : ℕ) (before after others others_after : List Regulation)
        → HasSameSlots number before after
        → HasSameSlots number others others_after
        → HasSameSlots number (before ++ others) (after ++ others_after) }
{}
