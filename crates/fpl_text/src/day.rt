//! Days of the calendar, and their dates of six digits.

ghost use Rattle.std.specs.Prelude.{◌≡◌, ◌≤◌, ◌<◌, ℕ, pos, unsigned_abs, ◌+◌, true, false};
ghost use Rattle.std.specs.Prelude.{MatchOption, IfSome, length, take, drop, ◌++◌, ◌&&◌, codes};
ghost use Rattle.std.specs.List.{list_all};
ghost use Rattle.jiff_core.specs.Calendar.{IsBetween};
ghost use Rattle.jiff_core.specs.Date.{epoch_day, IsYmd};
ghost use Rattle.fpl_text.specs.Moments.{day_of, last_day, end_of_2099, is_civil_date};
ghost use Rattle.fpl_text.specs.Moments.{ReadsDate};
ghost use Rattle.fpl_text.specs.Bytes.{is_digit};

use crate::time::{other_than_digits, pairs_of};
use jiff::civil::Date;
use jiff_core::civil;
use std::marker::Model;

/// A day of the calendar, seen as its number: days since 1970-01-01, at most 69,444.
#[derive(Clone, Copy, Debug, PartialEq, Eq, PartialOrd, Ord, Hash)]
pub struct Day {
    number: u32,
}

impl Model for Day {
    ghost Value = { ℕ };

    ghost view = { λ d. d.number };

    ghost invariant = { λ d. d.number ≤ last_day };

    ghost inverse = { λ number. record { number = number } };
}

/// The number of days from 1970-01-01 to a date of the years 2000 to 2099.
fn day_number(date: Date) -> u32
    requires { IsBetween (pos 2000) (pos 2099) date.year }
    ensures value { result ≡ unsigned_abs (epoch_day date) }
    ensures bound { result < end_of_2099 }
{
    date.to_plain().to_unix_epoch_day() as u32
}

impl Day {
    /// Reads yymmdd, a date of the years 2000 to 2099 (DOF of field type 18).
    #[tactic(auto, unfolding(crate::specs::Moments::day_of))]
    pub fn read(text: &[u8]) -> Option<Day>
        ensures { result ≡ day_of text.now }
    {
        let date = read_date(text)?;
        Some(Day::of(date))
    }

    /// The day of a date of the years 2000 to 2099.
    pub fn of(date: Date) -> Day
        requires { IsBetween (pos 2000) (pos 2099) date.year }
        ensures value { result ≡ unsigned_abs (epoch_day date) }
        ensures bound { result < end_of_2099 }
    {
        Day {
            number: day_number(date),
        }
    }

    /// The day of that number, for [`Minute::day`](crate::Minute::day).
    pub(crate) fn numbered(number: u32) -> Day
        requires { number ≤ last_day }
        ensures { result ≡ number }
    {
        Day { number }
    }

    /// Days since 1970-01-01.
    pub fn number(self) -> u32
        ensures value { result ≡ self }
        ensures bound { result ≤ last_day }
    {
        self.number
    }

    /// The day as a date of the calendar.
    pub fn date(self) -> Date
        ensures value { epoch_day result ≡ pos self }
        ensures bound { self ≤ last_day }
    {
        Date::from_plain(civil::Date::from_unix_epoch_day(i64::from(self.number)).unwrap())
    }
}

/// The date of a year 20yy, or `None` if the calendar has no such day.
fn civil_date(yy: u8, month: u8, day: u8) -> Option<Date>
    requires year { yy < 100 }
    requires month { month < 100 }
    requires day { day < 100 }
    ensures century { IfSome result (λ date. IsBetween (pos 2000) (pos 2099) date.year) }
    ensures value { MatchOption result (is_civil_date yy month day ≡ false)
        (λ date. (is_civil_date yy month day ≡ true)
        × IsYmd (pos (2000 + yy)) (pos month) (pos day) date) }
{
    match Date::new(2000 + yy as i16, month as i8, day as i8) {
        Ok(date) => Some(date),
        Err(_) => None,
    }
}

/// The year and the month of yymmdd, and its day with two digits 0 after it.
#[inline(always)]
fn parts_of(text: &[u8]) -> ([u8; 4], [u8; 4])
    requires { length text.now ≡ 6 }
    ensures front { result.0 ≡ take 4 text.now }
    ensures back { result.1 ≡ drop 4 text.now ++ codes "00" }
{
    (
        [text[0], text[1], text[2], text[3]],
        [text[4], text[5], b'0', b'0'],
    )
}

/// Whether all eight bytes are digits, by one comparison.
#[inline(always)]
fn are_digits(front: [u8; 4], back: [u8; 4]) -> bool
    ensures { result ≡ list_all is_digit front && list_all is_digit back }
{
    other_than_digits(front) | other_than_digits(back) == 0
}

/// Reads yymmdd, a date of the years 2000 to 2099.
#[inline]
pub(crate) fn read_date(text: &[u8]) -> Option<Date>
    ensures value { ReadsDate text.now result }
    ensures century { IfSome result (λ date. IsBetween (pos 2000) (pos 2099) date.year) }
{
    if text.len() != 6 {
        return None;
    }
    let (front, back) = parts_of(text);
    if !are_digits(front, back) {
        return None;
    }
    let (year, month) = pairs_of(front);
    let (day, _) = pairs_of(back);
    civil_date(year as u8, month as u8, day as u8)
}
