//! Orders: to open and to close a regulation, and to set the desk's time.
ghost use Rattle.std.specs.Prelude.{◌≡◌, Ok, codes};
ghost use Rattle.fpl_items.specs.Kinds.{is_text};
ghost use Rattle.fpl_message.specs.Refusals.{ReturnsAs, RunsOutOnlyIf};
ghost use Rattle.fpl_message.specs.Messages.{open_reg};
ghost use Rattle.fpl_message.specs.Orders.{is_regulation, is_way_point, regulation_id_of};
ghost use Rattle.fpl_message.specs.Orders.{way_point_of, aerodrome_of};
ghost use Rattle.fpl_message.specs.Orders.{spot_of, open_of, shut_of, time_of, order_or_refusal};
ghost use Rattle.fpl_message.specs.declared.order.OpenReg.{OpenReg};
ghost use Rattle.fpl_message.specs.SaidOrders.{said_order};

use crate::edition::Edition;
use crate::fault::{Fault, boxed_over};
use crate::refusal::Refusal;
use crate::sub_periods::{SubPeriods, more_of, rate_of};
use fpl_text::{Minute, Text, Words, all_letters, all_letters_or_digits, is_letter, read_moment};
use std::alloc::{Allocator, Global};

/// Where the flow of flights is regulated.
#[derive(Clone, Copy, Debug, PartialEq, Eq)]
pub enum Spot {
    /// At departure from this aerodrome.
    Dep(Text<4>),
    /// At arrival at this aerodrome.
    Arr(Text<4>),
    /// At this route point.
    Via(Text<11>),
}

/// An order to open a regulation, with the right syntax. Its limits are for the desk to check: that
/// the period is 1 to 1,440 minutes long, that its sub-periods rise within it, that a rate is at
/// most 240, and the last at least 1.
#[derive(Drop)]
pub struct OpenReg {
    /// The name of the regulation: a letter, and then at most 7 letters or digits.
    pub id: Text<8>,
    pub place: Spot,
    /// The first minute of the period.
    pub from: Minute,
    /// The first minute after the period.
    pub to: Minute,
    /// Flights an hour in the first sub-period, at most 999.
    pub rate: u32,
    /// The further sub-periods.
    pub more: SubPeriods,
}

/// An order.
#[derive(Drop)]
pub enum Order<A: Allocator + Copy = Global> {
    OpenReg(Box<OpenReg, A>),
    /// To close the regulation of this name.
    ShutReg { id: Text<8> },
    /// To set the desk's time.
    SetTime { at: Minute },
}

#[tactic(auto, unfolding(crate::specs::Orders::is_regulation))]
fn is_regulation(word: &[u8]) -> bool
    ensures { result ≡ is_regulation word.now }
{
    word.len() >= 1 && word.len() <= 8 && is_letter(word[0]) && all_letters_or_digits(word)
}

/// Parses the name of a regulation.
#[tactic(auto, unfolding(crate::specs::Orders::is_regulation))]
fn regulation_of(word: &[u8]) -> Option<Text<8>>
    ensures { result ≡ regulation_id_of word.now }
{
    if !is_regulation(word) {
        return None;
    }
    Some(Text::new(word))
}

/// Parses the name of an aerodrome: four letters.
#[tactic(auto, unfolding(fpl_text::specs::Places::is_place))]
fn aerodrome_of(word: &[u8]) -> Option<Text<4>>
    ensures { result ≡ aerodrome_of word.now }
{
    if word.len() != 4 || !all_letters(word) {
        return None;
    }
    Some(Text::new(word))
}

#[tactic(auto, unfolding(crate::specs::Orders::is_way_point))]
fn is_way_point(word: &[u8]) -> bool
    ensures { result ≡ is_way_point word.now }
{
    word.len() >= 1 && word.len() <= 11 && all_letters_or_digits(word)
}

/// Parses the name of a route point.
#[tactic(auto, unfolding(crate::specs::Orders::is_way_point))]
fn way_point_of(word: &[u8]) -> Option<Text<11>>
    ensures { result ≡ way_point_of word.now }
{
    if !is_way_point(word) {
        return None;
    }
    Some(Text::new(word))
}

/// Parses a regulated point: DEP, ARR or VIA, and a name.
#[tactic(auto, unfolding(crate::specs::Orders::spot_of))]
fn spot_of(kind: &[u8], place: &[u8]) -> Option<Spot>
    ensures { result ≡ spot_of kind.now place.now }
{
    match kind {
        b"DEP" => Some(Spot::Dep(aerodrome_of(place)?)),
        b"ARR" => Some(Spot::Arr(aerodrome_of(place)?)),
        b"VIA" => Some(Spot::Via(way_point_of(place)?)),
        _ => None,
    }
}

/// Parses the words after OPEN.
fn open_of(edition: Edition, mut words: Words<'_>) -> Option<OpenReg>
    ensures { result ≡ open_of edition words.entry }
{
    let id = regulation_of(words.next()?)?;
    let kind = words.next()?;
    let place = spot_of(kind, words.next()?)?;
    let from = read_moment(words.next()?)?;
    let to = read_moment(words.next()?)?;
    let rate = rate_of(words.next()?)?;
    let more = more_of(edition, words)?;
    Some(OpenReg {
        id,
        place,
        from,
        to,
        rate,
        more,
    })
}

/// Parses the words after SHUT.
fn shut_of(mut words: Words<'_>) -> Option<Text<8>>
    ensures { result ≡ shut_of words.entry }
{
    let id = regulation_of(words.next()?)?;
    match words.next() {
        Some(_) => None,
        None => Some(id),
    }
}

/// Parses the words after TIME.
fn time_of(mut words: Words<'_>) -> Option<Minute>
    ensures { result ≡ time_of words.entry }
{
    let at = read_moment(words.next()?)?;
    match words.next() {
        Some(_) => None,
        None => Some(at),
    }
}

fn says_open(word: &[u8]) -> bool
    ensures { result ≡ is_text (codes "OPEN") word.now }
{
    matches!(word, b"OPEN")
}

fn says_shut(word: &[u8]) -> bool
    ensures { result ≡ is_text (codes "SHUT") word.now }
{
    matches!(word, b"SHUT")
}

fn says_time(word: &[u8]) -> bool
    ensures { result ≡ is_text (codes "TIME") word.now }
{
    matches!(word, b"TIME")
}

const BAD_ORDER: Fault = Fault::Refused(Refusal::BadOrder);

/// Parses an order by the rules of an edition. Only an OPEN allocates, if there is no spare box.
pub(crate) fn read_order<A: Allocator + Copy>(
    alloc: A,
    spare: &mut Option<Box<OpenReg, A>>,
    edition: Edition,
    text: &[u8],
) -> Result<Order<A>, Fault>
    ensures value { ReturnsAs said_order result (order_or_refusal edition text.now) }
    ensures memory { RunsOutOnlyIf result
        ((order : OpenReg) × (order_or_refusal edition text.now ≡ Ok (open_reg order))) }
{
    let mut words = Words::new(text);
    let Some(verb) = words.next() else {
        return Err(BAD_ORDER);
    };
    if says_open(verb) {
        let Some(open) = open_of(edition, words) else {
            return Err(BAD_ORDER);
        };
        Ok(Order::OpenReg(boxed_over(alloc, spare, open)?))
    } else if says_shut(verb) {
        let Some(id) = shut_of(words) else {
            return Err(BAD_ORDER);
        };
        Ok(Order::ShutReg { id })
    } else if says_time(verb) {
        let Some(at) = time_of(words) else {
            return Err(BAD_ORDER);
        };
        Ok(Order::SetTime { at })
    } else {
        Err(BAD_ORDER)
    }
}
