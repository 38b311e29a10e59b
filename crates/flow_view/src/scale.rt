//! Where times and counts of flights are drawn in a chart.
ghost use Rattle.std.specs.Prelude.{◌≡◌, ◌≤◌, ◌<◌, ◌+◌, ◌-◌, ◌*◌, min, max};
ghost use Rattle.std.specs.Int.{div_ceil};
ghost use Rattle.flow_view.specs.Scale.{share, count_between, minutes_between, bar_of, label_of};
ghost use Rattle.flow_slots.specs.declared.shape.TheConstants.{LONGEST_PERIOD};
ghost use Rattle.flow_view.specs.declared.rounds.TheConstants.{LABEL_WIDTH};

use crate::rounds::{MOST_FLIGHTS, PANEL_WIDTH, count_between, minutes_between, share};
use flow_slots::LONGEST_PERIOD;
use fpl_text::Minute;

/// The height of a panel of a chart, in tenths of a pixel.
pub const PANEL_HEIGHT: u32 = 1600;

/// The scale of a panel of a chart: from its left edge to the right the minutes of a period, from
/// its lower edge upwards counts of flights, with a line for each `between` flights.
#[derive(Clone, Copy)]
pub struct Scale {
    /// The start of the period.
    pub start: Minute,
    /// The minutes of the period.
    pub minutes: u32,
    /// The number of flights between two lines.
    pub between: u32,
    /// The number of lines above the lowest one.
    pub lines: u32,
    ghost wide: { 0 < minutes },
    ghost day: { minutes ≤ LONGEST_PERIOD },
    ghost some: { 0 < between },
    ghost round: { between ≤ 10_000 },
    ghost high: { 0 < lines },
    ghost few: { lines ≤ 5 },
}

impl Scale {
    /// The scale of a period and of counts up to `greatest`. A period of more than a day is shown
    /// for a day, and a count of more than 50,000 as 50,000.
    pub fn new(start: Minute, end: Minute, greatest: u32) -> Scale
        ensures start { result.start ≡ start }
        ensures minutes { result.minutes ≡ min (max (end - start) 1) LONGEST_PERIOD }
        ensures between { result.between ≡ count_between (min greatest MOST_FLIGHTS) }
        ensures lines { result.lines ≡ max (div_ceil (min greatest MOST_FLIGHTS) result.between) 1 }
        ensures reaches { greatest ≤ MOST_FLIGHTS → greatest ≤ result.between * result.lines }
    {
        let minutes = end.minutes().saturating_sub(start.minutes());
        let greatest = greatest.min(MOST_FLIGHTS);
        let between = count_between(greatest);
        Scale {
            start,
            minutes: minutes.clamp(1, LONGEST_PERIOD),
            between,
            lines: greatest.div_ceil(between).max(1),
        }
    }

    /// The greatest count.
    pub fn top(&self) -> u32
        ensures { result ≡ self.now.between * self.now.lines }
    {
        self.between * self.lines
    }

    /// The distance of a time from the left edge, in tenths of a pixel. A time before the period is
    /// at the left edge, one after it at the right edge.
    pub fn across(&self, moment: Minute) -> u32
        ensures value { result ≡ share PANEL_WIDTH (moment - self.now.start) self.now.minutes }
        ensures within { result ≤ PANEL_WIDTH }
    {
        let minutes = moment.minutes().saturating_sub(self.start.minutes());
        share(PANEL_WIDTH, minutes, self.minutes)
    }

    /// The height of a count of flights above the lower edge, in tenths of a pixel.
    pub fn up(&self, count: u32) -> u32
        ensures value { result ≡ share PANEL_HEIGHT count (self.now.between * self.now.lines) }
        ensures within { result ≤ PANEL_HEIGHT }
    {
        share(PANEL_HEIGHT, count, self.top())
    }

    /// The left and right edges of the bar of a step, from the left edge of the panel in tenths of
    /// a pixel. A twelfth of the step is left free on either side.
    pub fn bar(&self, from: Minute, to: Minute) -> (u32, u32)
        ensures value { result ≡ bar_of self.now.start self.now.minutes from to }
        ensures begins { share PANEL_WIDTH (from - self.now.start) self.now.minutes ≤ result.0 }
        ensures order { from ≤ to → result.0 ≤ result.1 }
        ensures ends { result.1 ≤ share PANEL_WIDTH (to - self.now.start) self.now.minutes }
    {
        let left = self.across(from);
        let right = self.across(to);
        let gap = right.saturating_sub(left) / 12;
        (left + gap, right.saturating_sub(gap))
    }

    /// The number of minutes between two labels.
    pub fn minutes_between(&self) -> u32
        ensures value { result ≡ minutes_between self.now.minutes }
        ensures apart { LABEL_WIDTH * self.now.minutes ≤ PANEL_WIDTH * result }
        ensures some { 0 < result }
        ensures most { result ≤ 240 }
    {
        minutes_between(self.minutes)
    }

    /// The time of label `place`, counted from 0: the multiples of the minutes between two labels.
    /// `None` after the period.
    pub fn label(&self, place: u32) -> Option<Minute>
        requires { place ≤ 10_000 }
        ensures { result ≡ label_of self.now.start self.now.minutes place }
    {
        let between = self.minutes_between();
        let start = self.start.minutes();
        let moment = (start.div_ceil(between) + place) * between;
        if moment <= start + self.minutes {
            Minute::new(moment)
        } else {
            None
        }
    }
}
