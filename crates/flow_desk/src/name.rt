//! The name of a desk, a type.
use std::marker::Brand;

/// A desk's history, its setup and the number of its feeders, and the history of what is stored of
/// it. Contracts alone see them: a call that opens a blank picks them, so that a pass of another
/// desk has another type.
pub trait Name {
    ghost use Rattle.std.specs.Prelude.{ℕ};
    ghost use Rattle.logbook.specs.Pages.{Book};
    ghost use Rattle.flow_plans.specs.Settings.{SetupView};

    ghost book: { Book };

    ghost setup: { SetupView };

    ghost feeders: { ℕ };

    ghost stored: { Book };
}

impl Name for Brand {
    ghost book = { record { number = 0; log_name = 0; cells_name = 0 } };

    ghost setup = { record { start = 0; taxi = 0; max_plans = 0; max_entries = 0 } };

    ghost feeders = { 0 };

    ghost stored = { record { number = 0; log_name = 0; cells_name = 0 } };
}
