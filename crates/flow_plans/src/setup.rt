//! When a desk starts, and its limits.
ghost use Rattle.std.specs.Prelude.{◌≡◌, ◌≤◌, ◌<◌, ◌↔◌, IsSome, IfSome, IsTrue};
ghost use Rattle.flow_plans.specs.Settings.{IsWithinLimits, IsDeskTime};

use fpl_text::{Minute, YEAR_2000, YEAR_2099};
use std::marker::Model;

/// The limit of the taxi time, in minutes.
pub const MAX_TAXI: u32 = 120;
/// The limit of accepted flight plans, cancelled ones counted.
pub const MAX_PLANS: u32 = 20_000;
/// The limit of journal entries.
pub const MAX_ENTRIES: u32 = 1_000_000;

/// The start of a desk, the taxi time of every aerodrome, and how many plans and entries the desk
/// accepts.
#[derive(Clone, Copy, Debug, PartialEq, Eq)]
pub struct Setup {
    start: Minute,
    taxi: u32,
    max_plans: u32,
    max_entries: u32,
}

impl Model for Setup {
    ghost use Rattle.flow_plans.specs.Settings.{SetupView, IsWithinLimits};

    ghost Value = { SetupView };

    ghost view = { λ s. record {
      start = s.start;
      taxi = s.taxi;
      max_plans = s.max_plans;
      max_entries = s.max_entries;
    } };

    ghost invariant = { λ s. IsWithinLimits (record {
      start = s.start;
      taxi = s.taxi;
      max_plans = s.max_plans;
      max_entries = s.max_entries;
    }) };

    ghost inverse = { λ s. record {
      start = s.start;
      taxi = s.taxi;
      max_plans = s.max_plans;
      max_entries = s.max_entries;
    } };
}

impl Setup {
    /// Creates the setup of a desk that starts at `now`, in the years 2000 to 2098.
    ///
    /// `None` if a limit is exceeded: a taxi time of 0 to 120 minutes, 1 to 20,000 flight plans, 1
    /// to 1,000,000 entries.
    pub fn new(now: Minute, taxi: u32, max_plans: u32, max_entries: u32) -> Option<Setup>
        ensures limits { IsSome result ↔ IsWithinLimits (record
            { start = now; taxi = taxi; max_plans = max_plans; max_entries = max_entries }) }
        ensures value { IfSome result (λ s. s ≡ record {
          start = now;
          taxi = taxi;
          max_plans = max_plans;
          max_entries = max_entries;
        }) }
    {
        if !is_desk_time(now) || taxi > MAX_TAXI {
            return None;
        }
        if max_plans < 1 || max_plans > MAX_PLANS {
            return None;
        }
        if max_entries < 1 || max_entries > MAX_ENTRIES {
            return None;
        }
        Some(Setup {
            start: now,
            taxi,
            max_plans,
            max_entries,
        })
    }

    /// Returns the desk's time at its start.
    pub fn start(&self) -> Minute
        ensures value { result ≡ self.now.start }
        ensures years { IsDeskTime result }
    {
        self.start
    }

    /// Returns the minutes from off-block to take-off.
    pub fn taxi(&self) -> u32
        ensures value { result ≡ self.now.taxi }
        ensures bound { result ≤ MAX_TAXI }
    {
        self.taxi
    }

    /// Returns the limit of accepted flight plans, cancelled ones counted.
    pub fn max_plans(&self) -> u32
        ensures value { result ≡ self.now.max_plans }
        ensures some { 1 ≤ result }
        ensures bound { result ≤ MAX_PLANS }
    {
        self.max_plans
    }

    /// Returns the limit of journal entries.
    pub fn max_entries(&self) -> u32
        ensures value { result ≡ self.now.max_entries }
        ensures some { 1 ≤ result }
        ensures bound { result ≤ MAX_ENTRIES }
    {
        self.max_entries
    }
}

/// Whether a time is in the years that a desk runs in, 2000 to 2098.
pub fn is_desk_time(moment: Minute) -> bool
    ensures { IsTrue result ↔ IsDeskTime moment }
{
    let minutes = moment.minutes();
    YEAR_2000 <= minutes && minutes < YEAR_2099
}
