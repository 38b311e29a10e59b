//! The further sub-periods of a regulation.
ghost use Rattle.std.specs.Prelude.{◌≡◌, ◌≤◌, ◌<◌, ◌*◌, ◌-◌, true};
ghost use Rattle.std.specs.Prelude.{nat_le, if◌then◌else◌, length};
ghost use Rattle.fpl_text.specs.Bytes.{is_digit};
ghost use Rattle.fpl_message.specs.Orders.{rate_of, part_of, parts_of, more_of};

use crate::edition::Edition;
use arrayvec::ArrayVec;
use fpl_text::{MOST_PARTS, Part, Words, all_digits, read_moment};
use std::marker::Model;

/// The further sub-periods of a regulation, at most 7. Contracts see the list of them.
#[derive(Drop)]
pub struct SubPeriods {
    parts: ArrayVec<Part, MOST_PARTS>,
}

impl Model for SubPeriods {
    ghost use Rattle.std.specs.Prelude.{List};
    ghost use Rattle.fpl_text.specs.declared.part.Part.{Part};

    ghost Value = { List Part };

    ghost view = { λ s. s.parts.items };
}

impl SubPeriods {
    /// The sub-periods, in order.
    pub fn as_slice(&self) -> &[Part]
        ensures value { result.now ≡ self.now }
        ensures fits { length result.now ≤ MOST_PARTS }
    {
        self.parts.as_slice()
    }
}

/// The value of a digit.
#[tactic(auto, unfolding(fpl_text::specs::Bytes::is_digit))]
fn digit(byte: u8) -> u32
    requires { is_digit byte ≡ true }
    ensures value { result ≡ byte - 48 }
    ensures bound { result < 10 }
{
    u32::from(byte - b'0')
}

/// Parses a rate of flights an hour: 1 to 3 digits.
#[tactic(auto, unfolding(crate::specs::Orders::rate_of))]
pub(crate) fn rate_of(word: &[u8]) -> Option<u32>
    ensures { result ≡ rate_of word.now }
{
    if !all_digits(word) {
        return None;
    }
    match word {
        [units] => Some(digit(*units)),
        [tens, units] => Some(10 * digit(*tens) + digit(*units)),
        [hundreds, tens, units] => {
            Some(100 * digit(*hundreds) + 10 * digit(*tens) + digit(*units))
        }
        _ => None,
    }
}

/// Parses a sub-period: a time with its date and a rate.
#[tactic(auto, unfolding(crate::specs::Orders::part_of))]
fn part_of(moment: &[u8], rate: &[u8]) -> Option<Part>
    ensures { result ≡ part_of moment.now rate.now }
{
    let from = read_moment(moment)?;
    let rate = rate_of(rate)?;
    Some(Part { from, rate })
}

/// Parses pairs of a time with its date and a rate, at most 7.
fn parts_of(mut words: Words<'_>) -> Option<SubPeriods>
    ensures { result
        ≡ (if nat_le (length words.entry) (2 * MOST_PARTS) then parts_of words.entry else None) }
{
    let mut parts = ArrayVec::new();
    while let Some(moment) = words.next() {
        let rate = words.next()?;
        if parts.is_full() {
            return None;
        }
        parts.push(part_of(moment, rate)?);
    }
    Some(SubPeriods { parts })
}

/// Parses the sub-periods after the first by the rules of an edition.
#[tactic(auto, unfolding(crate::specs::Orders::more_of))]
pub(crate) fn more_of(edition: Edition, mut words: Words<'_>) -> Option<SubPeriods>
    ensures { result ≡ more_of edition words.entry }
{
    match edition {
        Edition::First => match words.next() {
            Some(_) => None,
            None => Some(SubPeriods {
                parts: ArrayVec::new(),
            }),
        },
        Edition::Second => parts_of(words),
    }
}
