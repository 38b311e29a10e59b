//! Fields 13 and 16: departure and destination.

ghost use Rattle.std.specs.Prelude.{◌≡◌, ◌≤◌, ◌<◌, ◌++◌, ◌∷◌, [], List};
ghost use Rattle.std.specs.Prelude.{ℕ, true, false, length, IfOk, IfSome};
ghost use Rattle.std.specs.Prelude.{nat_eq};
ghost use Rattle.std.specs.Cmp.{partial_equiv_from_equiv};
ghost use Rattle.std.specs.Cmp.Lexicographic.{pointwise, lists_per, lists_equiv, nat_list_eq_equiv};
ghost use Rattle.std.specs.Option.{ok_or};
ghost use Rattle.fpl_text.specs.Places.{is_place, arrival_of, alternates_of};
ghost use Rattle.fpl_text.specs.Places.{departure_of, destination_of};
ghost use Rattle.fpl_text.specs.declared.time.TheConstants.{ELAPSED_LIMIT};

use crate::byte::are_letters;
use crate::fault::FieldFault;
use crate::text::Text;
use crate::time::{TimeOfDay, read_elapsed};
use crate::words::Words;
use std::marker::Model;

/// Field 13: departure aerodrome and time (ICAO Doc 4444, appendix 3, field type 13). The time is
/// that of off-block, or in a DEP of take-off. AFIL and ZZZZ are read as aerodromes too.
#[derive(Debug, Drop, PartialEq, Eq)]
pub struct Departure {
    pub place: Text<4>,
    pub time: TimeOfDay,
}

/// The alternate aerodromes of a destination, at most two, seen as the list of their names.
#[derive(Clone, Copy, Debug)]
pub struct Alternates {
    /// The names, followed by empty ones.
    places: [Text<4>; 2],
    /// The number of names, in 16 bits, so that a copy takes two moves that don't overlap.
    count: u16,
}

impl Model for Alternates {
    ghost use Rattle.std.specs.Prelude.{◌≡◌, ◌≤◌, ◌-◌, ◌++◌, List, []};
    ghost use Rattle.std.specs.Prelude.{ℕ, length, take, drop, replicate};
    ghost use Rattle.std.proofs.Common.{arith, take-append-drop, length-take-le, sym, ap, ◌∙◌};

    ghost Value = { List (List ℕ) };

    ghost view = { λ a. take a.count a.places };

    ghost invariant = { λ a. (a.count ≤ 2) × (length a.places ≡ 2)
        × (drop a.count a.places ≡ replicate (2 - a.count) []) };

    ghost inverse = { λ places.
        record { places = places ++ replicate (2 - length places) []; count = length places } };

    ghost inverse_ok = { λ a h i. record {
      places = (ap (λ n. take a.count a.places ++ replicate (2 - n) [])
          (length-take-le a.count a.places (omega (arith, h.0, h.1)))
          ∙ ap (λ (rest : List (List ℕ)). take a.count a.places ++ rest) (sym h.2)
          ∙ take-append-drop a.count a.places) i;
      count = length-take-le a.count a.places (omega (arith, h.0, h.1)) i;
    } };
}

impl PartialEq for Alternates {
    ghost eq = { λ a b. pointwise (pointwise nat_eq) a b };

    ghost laws = { lists_per (partial_equiv_from_equiv nat_list_eq_equiv) };

    fn eq(&self, other: &Self) -> bool {
        self.as_slice() == other.as_slice()
    }
}

impl Eq for Alternates {
    ghost laws = { lists_equiv nat_list_eq_equiv };
}

impl Alternates {
    fn none() -> Alternates
        ensures { result ≡ [] }
    {
        Alternates {
            places: [Text::default(); 2],
            count: 0,
        }
    }

    /// The names, in order.
    pub fn as_slice(&self) -> &[Text<4>]
        ensures value { result.now ≡ self.now }
        ensures fits { length result.now ≤ 2 }
    {
        &self.places[..self.count as usize]
    }

    /// Whether there are two.
    fn is_full(&self) -> bool
        ensures full { result ≡ true → 2 ≤ length self.now }
        ensures room { result ≡ false → length self.now < 2 }
    {
        self.count == 2
    }

    fn push(&mut self, place: Text<4>)
        requires { length self.old < 2 }
        ensures { self.new ≡ self.old ++ place ∷ [] }
    {
        self.places[self.count as usize] = place;
        self.count += 1;
    }
}

/// Field 16: destination, total estimated elapsed time in minutes if it is given, and alternates
/// (ICAO Doc 4444, appendix 3, field type 16). An FPL has to give the time; other messages may
/// leave it out.
#[derive(Debug, Drop, PartialEq, Eq)]
pub struct Destination {
    pub place: Text<4>,
    pub elapsed: Option<u32>,
    pub alternates: Alternates,
}

/// Whether a text is a location indicator of four letters.
#[tactic(auto, unfolding(crate::specs::Places::is_place))]
fn is_place(text: &[u8]) -> bool
    ensures { result ≡ is_place text.now }
{
    text.len() == 4 && are_letters(text)
}

impl Departure {
    /// Reads field 13: four letters, and a time of day hhmm. Any other text is `BadField(13)`.
    #[tactic(auto, unfolding(crate::specs::Places::departure_of, crate::specs::Places::is_place))]
    pub fn read(field: &[u8]) -> Result<Departure, FieldFault>
        ensures { result ≡ ok_or (departure_of field.now) (FieldFault.BadField 13) }
    {
        if field.len() < 4 || !is_place(&field[..4]) {
            return Err(FieldFault::BadField(13));
        }
        match TimeOfDay::read(&field[4..]) {
            Some(time) => Ok(Departure {
                place: Text::new(&field[..4]),
                time,
            }),
            None => Err(FieldFault::BadField(13)),
        }
    }
}

/// Reads a destination, and its total elapsed time if it is given.
#[inline(always)]
#[tactic(auto, unfolding(crate::specs::Places::arrival_of, crate::specs::Places::is_place))]
fn arrival_of(word: &[u8]) -> Option<(Text<4>, Option<u32>)>
    ensures value { result ≡ arrival_of word.now }
    ensures bound { IfSome result (λ arrival.
        IfSome arrival.1 (λ minutes. minutes < ELAPSED_LIMIT)) }
{
    if word.len() < 4 || !is_place(&word[..4]) {
        return None;
    }
    let place = Text::new(&word[..4]);
    if word.len() == 4 {
        return Some((place, None));
    }
    let minutes = read_elapsed(&word[4..])?;
    Some((place, Some(minutes)))
}

/// Reads at most two alternates, in order.
#[tactic(auto, unfolding(crate::specs::Places::is_place))]
fn alternates_of(words: Words<'_>) -> Option<Alternates>
    ensures { result ≡ alternates_of words.entry }
{
    let mut alternates = Alternates::none();
    for word in words {
        if alternates.is_full() {
            return None;
        }
        if !is_place(word) {
            return None;
        }
        alternates.push(Text::new(word));
    }
    Some(alternates)
}

/// Reads the parts of a field 16 of at most 8 bytes, which is too short for alternates.
#[inline(always)]
fn destination_alone(field: &[u8]) -> Option<Destination>
    requires { length field.now ≤ 8 }
    ensures value { result ≡ destination_of field.now }
    ensures bound { IfSome result (λ destination.
        IfSome destination.elapsed (λ minutes. minutes < ELAPSED_LIMIT)) }
{
    let (place, elapsed) = arrival_of(field)?;
    Some(Destination {
        place,
        elapsed,
        alternates: Alternates::none(),
    })
}

/// Reads the parts of field 16.
#[inline(always)]
#[tactic(auto, unfolding(crate::specs::Places::destination_of))]
fn destination_of(field: &[u8]) -> Option<Destination>
    ensures value { result ≡ destination_of field.now }
    ensures bound { IfSome result (λ destination.
        IfSome destination.elapsed (λ minutes. minutes < ELAPSED_LIMIT)) }
{
    if field.len() <= 8 {
        return destination_alone(field);
    }
    let mut words = Words::new(field);
    let (place, elapsed) = arrival_of(words.next()?)?;
    let alternates = alternates_of(words)?;
    Some(Destination {
        place,
        elapsed,
        alternates,
    })
}

impl Destination {
    /// Reads field 16: four letters, optionally an elapsed time hhmm of at most 5,999 minutes, and
    /// then at most two words of four letters. Any other text is `BadField(16)`.
    #[inline(always)]
    pub fn read(field: &[u8]) -> Result<Destination, FieldFault>
        ensures value { result ≡ ok_or (destination_of field.now) (FieldFault.BadField 16) }
        ensures bound { IfOk result (λ destination.
            IfSome destination.elapsed (λ minutes. minutes < ELAPSED_LIMIT)) }
    {
        destination_of(field).ok_or(FieldFault::BadField(16))
    }
}
