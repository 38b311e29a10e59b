//! Windows of time.
ghost use Rattle.std.specs.Prelude.{◌≡◌, ◌≤◌, ◌<◌, ◌-◌, ◌↔◌, IsSome, IfSome};
ghost use Rattle.flow_slots.specs.declared.shape.TheConstants.{LONGEST_PERIOD};

use flow_slots::LONGEST_PERIOD;
use fpl_text::Minute;

/// Windows of time: each has `step` minutes, the first begins with the period, each further one
/// `slide` minutes after the one before it, and the last is the last that begins before the period
/// ends. They overlap if the slide is shorter than the step.
#[derive(Clone, Copy)]
pub struct Windows {
    pub from: Minute,
    pub to: Minute,
    pub step: u32,
    pub slide: u32,
    ghost some: { 0 < slide },
    ghost most: { slide ≤ LONGEST_PERIOD },
    ghost step_most: { step ≤ LONGEST_PERIOD },
    ghost day: { to - from ≤ LONGEST_PERIOD },
}

impl Windows {
    ghost use Rattle.flow_view.specs.Windows.{IsWindows};

    /// The windows of a period. `None` if it has more than 1,440 minutes, or the step or the slide
    /// isn't 1 to 1,440 minutes.
    pub fn new(from: Minute, to: Minute, step: u32, slide: u32) -> Option<Windows>
        ensures limits { IsSome result ↔ IsWindows from to step slide }
        ensures value { IfSome result
            (λ w. (w.from ≡ from) × (w.to ≡ to) × (w.step ≡ step) × (w.slide ≡ slide)) }
    {
        if to.minutes().saturating_sub(from.minutes()) > LONGEST_PERIOD {
            return None;
        }
        if step < 1 || step > LONGEST_PERIOD {
            return None;
        }
        if slide < 1 || slide > LONGEST_PERIOD {
            return None;
        }
        Some(Windows {
            from,
            to,
            step,
            slide,
        })
    }
}
