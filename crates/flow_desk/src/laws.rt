//! Laws over the definitions that the contracts cite.

ghost use Rattle.std.specs.Prelude.{◌≡◌, ◌++◌, List};
ghost use Rattle.flow_plans.specs.Settings.{SetupView};
ghost use Rattle.flow_core.specs.CoreView.{inputs};
ghost use Rattle.flow_core.specs.State.{EntryView};
ghost use Rattle.flow_core.specs.Steps.{steps};
ghost use Rattle.flow_desk.specs.Histories.{after};

/// A desk that resumes from a journal has the state of the old one: that of the run over the
/// entries read, and then over the new ones.
pub fn resumed_desks_go_on()
    ensures { (setup : SetupView) (read new : List EntryView)
        → after setup (read ++ new) ≡ steps (after setup read) (inputs new) }
{}
