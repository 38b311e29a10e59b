//! Times with their date, in minutes.

ghost use Rattle.std.specs.Prelude.{◌≡◌, ◌<◌, ◌≤◌, ◌+◌, ◌-◌, ◌*◌, ◌%◌, ◌/◌, ℕ, pos, unsigned_abs};
ghost use Rattle.jiff_core.specs.Calendar.{IsBetween};
ghost use Rattle.jiff_core.specs.Date.{epoch_day};
ghost use Rattle.fpl_text.specs.Moments.{minute_of, moment_of, moment_within};
ghost use Rattle.fpl_text.specs.Moments.{digit_pair, yymmdd_of, hhmm_of};
ghost use Rattle.fpl_text.specs.Moments.{day_digits, IsYymmdd};
ghost use Rattle.fpl_text.specs.declared.minute.TheConstants.{GREATEST_MINUTE};

use crate::day::{Day, read_date};
use crate::text::Text;
use crate::time::TimeOfDay;
use jiff::civil::Date;
use std::marker::Model;

/// The greatest time, in minutes since 1970-01-01 00:00 UTC.
pub const GREATEST_MINUTE: u32 = 100_000_000;
/// 2000-01-01 00:00 UTC, the first time that ten digits yymmddhhmm name.
pub const YEAR_2000: u32 = 15_778_080;
/// 2099-01-01 00:00 UTC, the first time after those that ten digits name.
pub const YEAR_2099: u32 = 67_848_480;

/// A time with its date, in whole minutes since 1970-01-01 00:00 UTC, at most 100,000,000.
#[derive(Clone, Copy, Debug, Default, PartialEq, Eq, PartialOrd, Ord, Hash)]
pub struct Minute {
    minutes: u32,
}

impl Model for Minute {
    ghost Value = { ℕ };

    ghost view = { λ m. m.minutes };

    ghost invariant = { λ m. m.minutes ≤ GREATEST_MINUTE };

    ghost inverse = { λ minutes. record { minutes = minutes } };
}

/// A number below 100 as two digits.
fn digit_pair(n: u8) -> [u8; 2]
    requires { n < 100 }
    ensures { result ≡ digit_pair n }
{
    [b'0' + n / 10, b'0' + n % 10]
}

/// The six digits yymmdd of a date.
fn date_digits(date: Date) -> Text<6>
    ensures { result ≡ yymmdd_of date }
{
    let plain = date.to_plain();
    let [y1, y2] = digit_pair((plain.year.unsigned_abs() % 100) as u8);
    let [m1, m2] = digit_pair(plain.month);
    let [d1, d2] = digit_pair(plain.day);
    Text::new(&[y1, y2, m1, m2, d1, d2])
}

impl Minute {
    /// The time `hour`:`minute` of a date of the years 2000 to 2099.
    pub fn of(date: Date, hour: u8, minute: u8) -> Minute
        requires year { IsBetween (pos 2000) (pos 2099) date.year }
        requires hour { hour < 24 }
        requires minute { minute < 60 }
        ensures { result ≡ minute_of date hour minute }
    {
        Minute {
            minutes: 1440 * Day::of(date).number() + 60 * hour as u32 + minute as u32,
        }
    }

    /// The time `time` on `day`, if that is at most the greatest time.
    pub fn on(day: Day, time: TimeOfDay) -> Minute
        requires { 1440 * day + time ≤ GREATEST_MINUTE }
        ensures { result ≡ 1440 * day + time }
    {
        Minute {
            minutes: 1440 * day.number() + u32::from(time.minutes()),
        }
    }

    /// The time `minutes` after 1970-01-01 00:00 UTC, or `None` beyond 100,000,000.
    #[tactic(auto, unfolding(crate::specs::Moments::moment_within))]
    pub fn new(minutes: u32) -> Option<Minute>
        ensures { result ≡ moment_within minutes }
    {
        if minutes <= GREATEST_MINUTE {
            Some(Minute { minutes })
        } else {
            None
        }
    }

    /// The time `minutes` later, or `None` beyond 100,000,000.
    #[tactic(auto, unfolding(crate::specs::Moments::moment_within))]
    pub fn plus(self, minutes: u32) -> Option<Minute>
        ensures { result ≡ moment_within (self + minutes) }
    {
        if minutes <= GREATEST_MINUTE - self.minutes {
            Some(Minute {
                minutes: self.minutes + minutes,
            })
        } else {
            None
        }
    }

    /// The time `minutes` after 1970-01-01 00:00 UTC.
    pub fn from_minutes(minutes: u32) -> Minute
        requires { minutes ≤ GREATEST_MINUTE }
        ensures { result ≡ minutes }
    {
        Minute { minutes }
    }

    /// Minutes since 1970-01-01 00:00 UTC.
    pub fn minutes(self) -> u32
        ensures value { result ≡ self }
        ensures bound { result ≤ GREATEST_MINUTE }
    {
        self.minutes
    }

    /// The day of this time.
    pub fn day(self) -> Day
        ensures { result ≡ self / 1440 }
    {
        Day::numbered(self.minutes / 1440)
    }

    /// The time of day.
    pub fn time_of_day(self) -> TimeOfDay
        ensures { result ≡ self % 1440 }
    {
        TimeOfDay::from_minutes((self.minutes % 1440) as u16)
    }

    /// Six digits yymmdd: the last two of the year, the month and the day.
    pub fn yymmdd(self) -> Text<6>
        ensures day { IsYymmdd self result }
        ensures digits { result ≡ day_digits (self / 1440) }
    {
        date_digits(self.day().date())
    }

    /// Four digits hhmm: the hour and the minute.
    pub fn hhmm(self) -> Text<4>
        ensures { result ≡ hhmm_of (self % 1440) }
    {
        let time = self.time_of_day();
        let [h1, h2] = digit_pair(time.hour());
        let [m1, m2] = digit_pair(time.minute());
        Text::new(&[h1, h2, m1, m2])
    }
}

/// The time `time` on a date of the years 2000 to 2099.
fn minute_at(date: Date, time: TimeOfDay) -> Minute
    requires { IsBetween (pos 2000) (pos 2099) date.year }
    ensures { result ≡ 1440 * unsigned_abs (epoch_day date) + time }
{
    Minute::on(Day::of(date), time)
}

/// Reads yymmddhhmm, a time of the years 2000 to 2098. `None` for any other text.
pub fn read_moment(text: &[u8]) -> Option<Minute>
    ensures { result ≡ moment_of text.now }
{
    if text.len() != 10 {
        return None;
    }
    let (day, time) = text.split_at(6);
    let date = read_date(day)?;
    if date.year() > 2098 {
        return None;
    }
    let time = TimeOfDay::read(time)?;
    Some(minute_at(date, time))
}
