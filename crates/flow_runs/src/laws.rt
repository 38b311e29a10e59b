//! What follows from the definitions of runs with a store.
ghost use Rattle.std.specs.Prelude.{ℕ, Bool, List, Option};
ghost use Rattle.flow_plans.specs.Settings.{SetupView};
ghost use Rattle.flow_log.specs.Left.{Left};
ghost use Rattle.flow_core.specs.History.{History, state_of};
ghost use Rattle.flow_core.specs.State.{State, EntryView};
ghost use Rattle.flow_store.specs.Serving.{IsSafe, HasKept};
ghost use Rattle.flow_store.specs.Store.{IsStoreFile};
ghost use Rattle.flow_runs.specs.StoredRuns.{IsSafeRun, IsKeptRun, HasAll};

/// Whoever files at a desk with a store, one feeder or many: whenever that crashes, the file has
/// all entries with which it was opened. So what was answered in one run is in the file after every
/// later one, too.
pub fn stored_runs_keep_all()
    ensures one { (opened : History) (begun : List ℕ) (input : Option (List ℕ)) (l : Left)
        → IsSafe (state_of opened) begun input l → HasAll opened l.file }
    ensures many { (opened : History) (feeders : ℕ) (journal : Bool) (input : List (List ℕ))
        (begun : List ℕ) (l : Left)
        → IsSafeRun opened.setup (state_of opened).journal feeders journal input begun l
        → HasAll opened l.file }

    // What was answered by one feeder, and what by many, stays in a file that has all entries.
    ensures later_one { (first : State) (begun : List ℕ) (input : Option (List ℕ))
        (given file new : List ℕ) (opened : History)
        → HasKept first begun input given file → IsStoreFile opened.setup opened.filed file
        → HasAll opened new
        → HasKept first begun input given new }
    ensures answered { (setup : SetupView) (read : List EntryView) (feeders : ℕ) (journal : Bool)
        (input : List (List ℕ))
        (begun : List ℕ) (l : Left) → IsSafeRun setup read feeders journal input begun l
        → IsKeptRun setup read feeders journal input begun l.given l.file }
    ensures later_many { (setup : SetupView) (read : List EntryView) (feeders : ℕ) (journal : Bool)
        (input : List (List ℕ))
        (begun given file new : List ℕ) (opened : History)
        → IsKeptRun setup read feeders journal input begun given file
        → IsStoreFile opened.setup opened.filed file
        → HasAll opened new → IsKeptRun setup read feeders journal input begun given new }
{}
