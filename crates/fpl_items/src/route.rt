//! Field 15: the route, after its speed and level.

ghost use Rattle.std.specs.Prelude.{◌≡◌, ◌≤◌, ◌<◌, ◌+◌, ◌==◌, [], true, None, Some, length};
ghost use Rattle.std.specs.Prelude.{slice_index_or, vec_capacity, MatchOption, IfErr, IsTrue};
ghost use Rattle.std.specs.Prelude.{if◌then◌else◌, take, drop};
ghost use Rattle.std.specs.List.{count_by, list_all, prefix_len};
ghost use Rattle.fpl_text.specs.Words.{words_of};
ghost use Rattle.fpl_items.specs.Speeds.{is_speed_and_level, is_letter_and_digits, is_speed};
ghost use Rattle.fpl_items.specs.Speeds.{is_height, is_level, speed_len};
ghost use Rattle.fpl_text.specs.Bytes.{is_letter, is_letter_or_digit};
ghost use Rattle.fpl_items.specs.Routes.{path_or_fault, is_route, elements_of, total_len};
ghost use Rattle.fpl_items.specs.Routes.{ReadsAs};
ghost use Rattle.fpl_items.specs.Kinds.{is_name, is_coordinate, is_point, is_change};
ghost use Rattle.fpl_items.specs.Kinds.{is_climb_range, is_climb_speed, is_climb_from};
ghost use Rattle.fpl_items.specs.Kinds.{is_climb, is_designator, is_route_byte, kind_of};
ghost use Rattle.fpl_items.specs.Kinds.{before_stroke, height_len};

use crate::fault::ItemFault;
use fpl_text::{
    Measured, Text, Words, all_digits, all_letters, all_letters_or_digits, is_letter_or_digit,
    is_path, leading_letters, space_count,
};
use std::alloc::{Allocator, Global};
use std::marker::Model;

/// The kinds of the words of a route. A word has the first kind that fits.
#[derive(Clone, Copy, Debug, PartialEq, Eq)]
pub enum Kind {
    /// DCT: direct to the next point.
    Dct,
    /// VFR: visual flight rules from here on.
    Vfr,
    /// IFR: instrument flight rules from here on.
    Ifr,
    /// A name, a name with bearing and distance, or a latitude and longitude.
    Point,
    /// A point at which speed and level change.
    Change,
    /// A cruise climb: a point, a speed, and the levels between which it climbs.
    Climb,
    /// A route, or a coded name with a digit.
    Designator,
    /// OAT, GAT, or any other word of letters, digits and strokes.
    Other,
}

/// A word of a route, and its offsets in the field: from the byte at `from` to before the one at
/// `to`.
#[derive(Clone, Copy, Debug, PartialEq, Eq)]
pub struct Element {
    pub kind: Kind,
    pub from: usize,
    pub to: usize,
}

/// Field 15: a speed and a level, and then the elements of the route (ICAO Doc 4444, appendix 3,
/// field type 15).
#[derive(Drop)]
pub struct Route<A: Allocator + Copy = Global> {
    speed: Text<5>,
    level: Text<5>,
    elements: Vec<Element, A>,
}

impl<A: Allocator + Copy> Model for Route<A> {
    ghost use Rattle.fpl_items.specs.Routes.{RouteView};

    ghost Value = { RouteView };

    ghost view = { λ r. record { speed = r.speed; level = r.level; elements = r.elements.items } };
}

/// Whether a word is a name of 2 to 5 letters, optionally with a bearing and a distance.
#[tactic(auto, unfolding(crate::specs::Kinds::is_name))]
fn is_name(word: &[u8]) -> bool
    ensures { result ≡ is_name word.now }
{
    let letters = leading_letters(word);
    letters >= 2
        && letters <= 5
        && all_digits(&word[letters..])
        && (word.len() == letters || word.len() == letters + 6)
}

#[tactic(auto, unfolding(crate::specs::Kinds::is_coordinate))]
fn is_coordinate(north: usize, east: usize, word: &[u8]) -> bool
    requires north { north < 10 }
    requires east { east < 10 }
    ensures { result ≡ is_coordinate north east word.now }
{
    word.len() == north + east + 2
        && all_digits(&word[..north])
        && matches!(word[north], b'N' | b'S')
        && all_digits(&word[north + 1..north + 1 + east])
        && matches!(word[north + east + 1], b'E' | b'W')
}

#[tactic(auto, unfolding(crate::specs::Kinds::is_point))]
fn is_point(word: &[u8]) -> bool
    ensures { result ≡ is_point word.now }
{
    is_name(word) || is_coordinate(2, 3, word) || is_coordinate(4, 5, word)
}

/// The number of bytes before the first stroke.
pub(crate) fn before_stroke(word: &[u8]) -> usize
    ensures value { result ≡ before_stroke word.now }
    ensures bound { result ≤ length word.now }
{
    word.iter().take_while(|byte| **byte != b'/').count()
}

#[tactic(auto, unfolding(crate::specs::Kinds::is_change))]
fn is_change(word: &[u8]) -> bool
    ensures { result ≡ is_change word.now }
{
    let cut = before_stroke(word);
    cut < word.len() && is_point(&word[..cut]) && is_speed_and_level(&word[cut + 1..])
}

fn height_len(text: &[u8]) -> usize
    ensures { result ≡ height_len text.now }
{
    match text.first() {
        Some(b'F' | b'A') => 4,
        _ => 5,
    }
}

/// Whether a text is a level, joined with a second one or PLUS.
#[tactic(auto, unfolding(crate::specs::Kinds::is_climb_range))]
fn is_climb_range(text: &[u8]) -> bool
    ensures { result ≡ is_climb_range text.now }
{
    let (low, high) = text.split_at(height_len(text).min(text.len()));
    is_height(low) && (is_height(high) || high == b"PLUS".as_slice())
}

#[tactic(auto, unfolding(crate::specs::Kinds::is_climb_speed))]
fn is_climb_speed(text: &[u8]) -> bool
    ensures { result ≡ is_climb_speed text.now }
{
    let (speed, range) = text.split_at(speed_len(text).min(text.len()));
    is_speed(speed) && is_climb_range(range)
}

#[tactic(auto, unfolding(crate::specs::Kinds::is_climb_from))]
fn is_climb_from(text: &[u8]) -> bool
    ensures { result ≡ is_climb_from text.now }
{
    let cut = before_stroke(text);
    cut < text.len() && is_point(&text[..cut]) && is_climb_speed(&text[cut + 1..])
}

#[tactic(auto, unfolding(crate::specs::Kinds::is_climb))]
fn is_climb(word: &[u8]) -> bool
    ensures { result ≡ is_climb word.now }
{
    word.len() >= 2 && word[0] == b'C' && word[1] == b'/' && is_climb_from(&word[2..])
}

#[tactic(auto, unfolding(crate::specs::Kinds::is_designator))]
fn is_designator(word: &[u8]) -> bool
    ensures { result ≡ is_designator word.now }
{
    word.len() >= 2 && word.len() <= 7 && all_letters_or_digits(word) && !all_letters(word)
}

#[tactic(auto, unfolding(crate::specs::Kinds::is_route_byte))]
fn is_route_byte(byte: u8) -> bool
    ensures { result ≡ is_route_byte byte }
{
    is_letter_or_digit(byte) || byte == b'/'
}

fn all_route_bytes(word: &[u8]) -> bool
    ensures { result ≡ list_all is_route_byte word.now }
{
    word.iter().all(|byte| is_route_byte(*byte))
}

/// The first kind that fits a word of three letters.
#[tactic(auto, unfolding(crate::specs::Kinds::kind_of))]
fn kind_of_three(word: &[u8]) -> Kind
    requires letters { prefix_len is_letter word.now ≡ length word.now }
    requires three { length word.now ≡ 3 }
    ensures { kind_of word.now ≡ Some result }
{
    if word == b"DCT".as_slice() {
        Kind::Dct
    } else if word == b"VFR".as_slice() {
        Kind::Vfr
    } else if word == b"IFR".as_slice() {
        Kind::Ifr
    } else if word == b"OAT".as_slice() {
        Kind::Other
    } else if word == b"GAT".as_slice() {
        Kind::Other
    } else {
        Kind::Point
    }
}

/// The first kind that fits a word of letters alone.
#[inline]
fn kind_of_letters(word: &[u8]) -> Kind
    requires { prefix_len is_letter word.now ≡ length word.now }
    ensures { kind_of word.now ≡ Some result }
{
    if word.len() == 3 {
        kind_of_three(word)
    } else if word.len() < 2 {
        Kind::Other
    } else if word.len() > 5 {
        Kind::Other
    } else {
        Kind::Point
    }
}

/// The first kind that fits a word of up to 6 letters and digits that has a digit: it is too short
/// for a point.
#[inline]
fn kind_with_digit(word: &[u8]) -> Kind
    requires digit { prefix_len is_letter word.now < length word.now }
    requires alone { prefix_len is_letter_or_digit word.now ≡ length word.now }
    requires short { length word.now < 7 }
    ensures { kind_of word.now ≡ Some result }
{
    if word.len() >= 2 {
        Kind::Designator
    } else {
        Kind::Other
    }
}

/// The first kind that fits a word that isn't of letters alone.
fn kind_with_other(word: &[u8]) -> Option<Kind>
    requires { prefix_len is_letter word.now < length word.now }
    ensures { result ≡ kind_of word.now }
{
    if is_point(word) {
        Some(Kind::Point)
    } else if is_change(word) {
        Some(Kind::Change)
    } else if is_climb(word) {
        Some(Kind::Climb)
    } else if is_designator(word) {
        Some(Kind::Designator)
    } else if all_route_bytes(word) {
        Some(Kind::Other)
    } else {
        None
    }
}

/// The first kind that fits a word.
#[inline]
fn kind_of(measured: &Measured<'_>) -> Option<Kind>
    requires letters { measured.now.letters ≡ prefix_len is_letter measured.now.word.now }
    requires letters_or_digits { measured.now.letters_or_digits
        ≡ prefix_len is_letter_or_digit measured.now.word.now }
    ensures { result ≡ kind_of measured.now.word.now }
{
    let len = measured.word.len();
    if measured.letters == len {
        return Some(kind_of_letters(measured.word));
    }
    if len < 7 && measured.letters_or_digits == len {
        return Some(kind_with_digit(measured.word));
    }
    kind_with_other(measured.word)
}

/// The elements of these words, of which the first is at offset `start`, in this empty buffer,
/// whose capacity is enough for them. `None` if a word has no kind. Allocates nothing.
fn elements_in<A: Allocator + Copy>(
    room: Vec<Element, A>,
    start: usize,
    mut words: Words<'_>,
) -> Option<Vec<Element, A>>
    requires empty { room.items ≡ [] }
    requires room { length words ≤ vec_capacity room }
    requires fits { start + total_len words ≤ usize.MAX }
    ensures { MatchOption result (elements_of start words.entry ≡ None)
        (λ v. elements_of start words.entry ≡ Some v.items) }
{
    let mut elements = room;
    let mut from = start;
    'words: while let Some(measured) = words.next_measured() {
        let kind = kind_of(&measured)?;
        let to = from + measured.word.len();
        elements.push_reserved(Element { kind, from, to });
        from = to + 1;
    }
    Some(elements)
}

/// Whether field 15 can be read, without its elements: a speed and a level, and then words of
/// letters, digits and strokes, each of which has a kind.
pub fn is_route(field: &[u8]) -> bool
    ensures { result ≡ is_route field.now }
{
    let mut words = Words::new(field);
    let Some(first) = words.next() else {
        return false;
    };
    is_speed_and_level(first) && is_path(field)
}

impl<A: Allocator + Copy> Route<A> {
    /// Reads field 15; any text of another form is `BadField(15)`. Allocates one element for each
    /// space of the field, if it has any and its first word is a speed and a level; only then can
    /// it return `OutOfMemory`.
    #[tactic(auto, unfolding(crate::specs::Routes::path_or_fault))]
    pub fn read(alloc: A, field: &[u8]) -> Result<Self, ItemFault>
        ensures value { ReadsAs (λ route. route) result (path_or_fault field.now) }
        ensures memory { IfErr result (λ fault. fault ≡ ItemFault.OutOfMemory
            → (is_speed_and_level (slice_index_or (words_of field.now) 0 []) ≡ true)
            × (0 < count_by (λ b. b == 32) field.now)) }
    {
        let mut words = Words::new(field);
        let Some(first) = words.next() else {
            return Err(ItemFault::BadField(15));
        };
        let Some((speed, level)) = speed_and_level(first) else {
            return Err(ItemFault::BadField(15));
        };
        let Ok(room) = Vec::with_capacity(alloc, space_count(field)) else {
            return Err(ItemFault::OutOfMemory);
        };
        let Some(elements) = elements_in(room, first.len() + 1, words) else {
            return Err(ItemFault::BadField(15));
        };
        Ok(Route {
            speed,
            level,
            elements,
        })
    }

    /// The elements, in order.
    pub fn elements(&self) -> &[Element]
        ensures { result.now ≡ self.now.elements }
    {
        self.elements.as_slice()
    }

    /// The cruising speed, as it was filed.
    pub fn speed(&self) -> &[u8]
        ensures { result.now ≡ self.now.speed }
    {
        self.speed.as_bytes()
    }

    /// The level, as it was filed.
    pub fn level(&self) -> &[u8]
        ensures { result.now ≡ self.now.level }
    {
        self.level.as_bytes()
    }
}

/// Whether a text is this letter and `digits` digits.
#[tactic(auto, unfolding(crate::specs::Speeds::is_letter_and_digits))]
fn is_letter_and_digits(letter: u8, digits: usize, text: &[u8]) -> bool
    requires { digits < 10 }
    ensures fits { IsTrue result → length text.now ≡ digits + 1 }
    ensures value { result ≡ is_letter_and_digits letter digits text.now }
{
    text.len() == digits + 1 && text[0] == letter && all_digits(&text[1..])
}

#[tactic(auto, unfolding(crate::specs::Speeds::is_speed))]
pub(crate) fn is_speed(text: &[u8]) -> bool
    ensures value { result ≡ is_speed text.now }
    ensures fits { IsTrue result → length text.now ≤ 5 }
{
    is_letter_and_digits(b'K', 4, text)
        || is_letter_and_digits(b'N', 4, text)
        || is_letter_and_digits(b'M', 3, text)
}

/// Whether a text is a level other than VFR.
#[tactic(auto, unfolding(crate::specs::Speeds::is_height))]
pub(crate) fn is_height(text: &[u8]) -> bool
    ensures value { result ≡ is_height text.now }
    ensures fits { IsTrue result → length text.now ≤ 5 }
{
    is_letter_and_digits(b'F', 3, text)
        || is_letter_and_digits(b'S', 4, text)
        || is_letter_and_digits(b'A', 3, text)
        || is_letter_and_digits(b'M', 4, text)
}

#[tactic(auto, unfolding(crate::specs::Speeds::is_level))]
pub(crate) fn is_level(text: &[u8]) -> bool
    ensures value { result ≡ is_level text.now }
    ensures fits { IsTrue result → length text.now ≤ 5 }
{
    is_height(text) || text == b"VFR".as_slice()
}

/// The length of a speed that begins with the same letter.
pub(crate) fn speed_len(text: &[u8]) -> usize
    ensures { result ≡ speed_len text.now }
{
    if text.first() == Some(&b'M') { 4 } else { 5 }
}

#[tactic(auto, unfolding(crate::specs::Speeds::is_speed_and_level))]
pub(crate) fn is_speed_and_level(text: &[u8]) -> bool
    ensures { result ≡ is_speed_and_level text.now }
{
    let cut = speed_len(text).min(text.len());
    is_speed(&text[..cut]) && is_level(&text[cut..])
}

/// Cuts a word into its speed and level; `None` for any other word.
#[tactic(auto, unfolding(crate::specs::Speeds::is_speed_and_level))]
pub(crate) fn speed_and_level(word: &[u8]) -> Option<(Text<5>, Text<5>)>
    ensures { result ≡ (if is_speed_and_level word.now
        then Some (take (speed_len word.now) word.now, drop (speed_len word.now) word.now)
        else None) }
{
    let (speed, level) = word.split_at(speed_len(word).min(word.len()));
    if is_speed(speed) && is_level(level) {
        Some((Text::new(speed), Text::new(level)))
    } else {
        None
    }
}
