//! How departures compare with the CTOT last issued.
ghost use Rattle.std.specs.Prelude.{◌≡◌, option_copied};
ghost use Rattle.flow_regulations.specs.Notices.{window_of};

use crate::notice::{Told, Window};
use fpl_text::TimeOfDay;

/// How many minutes before its CTOT a flight may depart, and how many after it.
const MINUTES_EARLY: u16 = 5;

const MINUTES_LATE: u16 = 10;

/// How a departure at this time of day compares with the CTOT last issued to the plan (ATFCM Users
/// Manual, slot tolerance: from 5 minutes before it to 10 minutes after it). Only times of day are
/// compared, by their difference of -720 to 719 minutes.
#[tactic(auto, unfolding(crate::specs::Notices::window_of))]
pub fn window_of(told: Option<&Told>, time: TimeOfDay) -> Window
    ensures { result ≡ window_of (option_copied told.entry) time }
{
    let Some(told) = told else {
        return Window::None;
    };
    let ctot = told.ctot.time_of_day().minutes();
    let later = (time.minutes() + 1440 - ctot) % 1440;
    if later < 720 {
        if later > MINUTES_LATE {
            Window::Late
        } else {
            Window::InWindow
        }
    } else if later < 1440 - MINUTES_EARLY {
        Window::Early
    } else {
        Window::InWindow
    }
}
