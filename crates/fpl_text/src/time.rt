//! Times of four digits, hhmm.

ghost use Rattle.std.specs.Prelude.{◌≡◌, ◌<◌, ◌≤◌, ◌+◌, ◌*◌, ◌/◌, ◌%◌, ℕ, true, ◌-◌, IfSome};
ghost use Rattle.std.specs.Prelude.{length, ◌==◌, is_some};
ghost use Rattle.std.specs.List.{list_all};
ghost use Rattle.fpl_text.specs.Bytes.{is_digit};
ghost use Rattle.fpl_text.specs.Times.{two_digits, hhmm_below, time_of_day, elapsed_time};

use std::marker::Model;

/// Every elapsed time is less than this: four digits are at most 99 hours and 59 minutes.
pub const ELAPSED_LIMIT: u32 = 6000;

/// A time of day, seen as its minutes after midnight.
#[derive(Clone, Copy, Debug, PartialEq, Eq)]
pub struct TimeOfDay {
    minutes: u16,
}

impl Model for TimeOfDay {
    ghost Value = { ℕ };

    ghost view = { λ t. t.minutes };

    ghost invariant = { λ t. t.minutes < 1440 };

    ghost inverse = { λ minutes. record { minutes = minutes } };
}

impl TimeOfDay {
    /// Reads hhmm, of hours 00 to 23 and minutes 00 to 59. `None` for any other text.
    pub fn read(text: &[u8]) -> Option<TimeOfDay>
        ensures { result ≡ time_of_day text.now }
    {
        let minutes = hhmm_below(24, text)?;
        Some(TimeOfDay { minutes })
    }

    /// The time of day `minutes` after midnight.
    pub(crate) fn from_minutes(minutes: u16) -> TimeOfDay
        requires { minutes < 1440 }
        ensures { result ≡ minutes }
    {
        TimeOfDay { minutes }
    }

    /// Minutes after midnight.
    pub fn minutes(self) -> u16
        ensures value { result ≡ self }
        ensures bound { result < 1440 }
    {
        self.minutes
    }

    /// The hour, from 0 to 23.
    pub fn hour(self) -> u8
        ensures value { result ≡ self / 60 }
        ensures bound { result < 24 }
    {
        (self.minutes / 60) as u8
    }

    /// The minute of the hour, from 0 to 59.
    pub fn minute(self) -> u8
        ensures value { result ≡ self % 60 }
        ensures bound { result < 60 }
    {
        (self.minutes % 60) as u8
    }
}

/// The number of two digits.
#[tactic(auto, unfolding(crate::specs::Times::two_digits, crate::specs::Bytes::is_digit))]
pub(crate) fn two_digits(first: u8, second: u8) -> u8
    requires first { is_digit first ≡ true }
    requires second { is_digit second ≡ true }
    ensures value { result ≡ 10 * (first - 48) + (second - 48) }
    ensures bound { result < 100 }
{
    10 * (first - b'0') + (second - b'0')
}

/// 0 if four bytes are all digits, and any other number if not. A byte is a digit exactly if what
/// it is above `0`, and 6 more than that, are both below 16.
#[inline(always)]
pub(crate) fn other_than_digits(bytes: [u8; 4]) -> u32
    ensures { (result == 0) ≡ list_all is_digit bytes }
{
    let digits = u32::from_le_bytes(bytes).wrapping_sub(0x3030_3030);
    (digits & 0xf0f0_f0f0) | (digits.wrapping_add(0x0606_0606) & 0xf0f0_f0f0)
}

/// The numbers of the first two and of the last two of four digits. They are computed at the same
/// time, in one word.
#[inline(always)]
#[tactic(auto, unfolding(crate::specs::Times::two_digits, crate::specs::Bytes::is_digit))]
pub(crate) fn pairs_of(bytes: [u8; 4]) -> (u32, u32)
    requires { list_all is_digit bytes ≡ true }
    ensures first { result.0 ≡ two_digits bytes 0 }
    ensures last { result.1 ≡ two_digits bytes 2 }
    ensures bound { (result.0 < 100) × (result.1 < 100) }
{
    let digits = u32::from_le_bytes(bytes) - 0x3030_3030;
    let pairs = 10 * digits + digits / 256;
    (pairs % 256, pairs / 65_536 % 256)
}

/// The four bytes of a text of that length.
#[inline(always)]
fn four_bytes(text: &[u8]) -> [u8; 4]
    requires { length text.now ≡ 4 }
    ensures { result ≡ text.now }
{
    [text[0], text[1], text[2], text[3]]
}

/// Reads hhmm in minutes, with hours below `hours` and minutes below 60.
#[inline]
#[tactic(auto, unfolding(crate::specs::Times::hhmm_below))]
pub(crate) fn hhmm_below(hours: u32, text: &[u8]) -> Option<u16>
    requires { hours ≤ 100 }
    ensures value { result ≡ hhmm_below hours text.now }
    ensures bound { IfSome result (λ minutes. minutes < 60 * hours) }
{
    if text.len() != 4 {
        return None;
    }
    let bytes = four_bytes(text);
    if other_than_digits(bytes) != 0 {
        return None;
    }
    let (hour, minute) = pairs_of(bytes);
    if hour >= hours {
        return None;
    }
    if minute >= 60 {
        return None;
    }
    Some((60 * hour + minute) as u16)
}

/// Reads an elapsed time hhmm, of hours 00 to 99 and minutes 00 to 59, in minutes. `None` for any
/// other text.
pub fn read_elapsed(text: &[u8]) -> Option<u32>
    ensures value { result ≡ elapsed_time text.now }
    ensures bound { IfSome result (λ minutes. minutes < ELAPSED_LIMIT) }
{
    let minutes = hhmm_below(100, text)?;
    Some(u32::from(minutes))
}

/// The minutes of an elapsed time, as `read_elapsed` reads it.
#[inline]
#[tactic(auto, unfolding(crate::specs::Times::hhmm_below))]
pub fn minutes_of_elapsed(time: &[u8]) -> u32
    requires { is_some (elapsed_time time.now) ≡ true }
    ensures value { elapsed_time time.now ≡ Some result }
    ensures bound { result < ELAPSED_LIMIT }
{
    let (hours, minutes) = pairs_of(four_bytes(time));
    60 * hours + minutes
}
