//! Fields 8, 9 and 10: rules and type of flight, aircraft, equipment.

ghost use Rattle.std.specs.Prelude.{◌≡◌, ◌≤◌, ◌<◌, ◌+◌, ◌-◌, ℕ, true, length, slice_index};
ghost use Rattle.std.specs.Prelude.{List};
ghost use Rattle.std.specs.List.{prefix_len};
ghost use Rattle.std.specs.Option.{ok_or};
ghost use Rattle.fpl_text.specs.Bytes.{is_digit};
ghost use Rattle.fpl_text.specs.Craft.{flight_rules_of, flight_kind_of, flight_kind_in};
ghost use Rattle.fpl_text.specs.Craft.{rules_of, wake_of, craft_number, is_craft_kind};
ghost use Rattle.fpl_text.specs.Craft.{craft_of, is_equipment, ReadsEquipment};

use crate::byte::{all_letters_or_digits, is_digit, is_letter, leading_letters_or_digits};
use crate::fault::FieldFault;
use crate::text::Text;
use crate::time::two_digits;
use std::alloc::{Allocator, Global};
use std::marker::Model;

/// The rules of a flight.
#[derive(Clone, Copy, Debug, PartialEq, Eq)]
pub enum FlightRules {
    /// I: instrument flight rules.
    Instrument,
    /// V: visual flight rules.
    Visual,
    /// Y: instrument flight rules first, and then a change.
    InstrumentFirst,
    /// Z: visual flight rules first, and then a change.
    VisualFirst,
}

/// The type of a flight.
#[derive(Clone, Copy, Debug, PartialEq, Eq)]
pub enum FlightKind {
    /// S: scheduled air service.
    Scheduled,
    /// N: air transport that is not scheduled.
    NonScheduled,
    /// G: general aviation.
    General,
    /// M: military.
    Military,
    /// X: none of these.
    Other,
}

/// Field 8: flight rules, and the type of flight if it is given (ICAO Doc 4444, appendix 3, field
/// type 8).
#[derive(Clone, Copy, Debug, PartialEq, Eq)]
pub struct Rules {
    pub rules: FlightRules,
    pub kind: Option<FlightKind>,
}

/// A wake turbulence category.
#[derive(Clone, Copy, Debug, PartialEq, Eq)]
pub enum Wake {
    /// L.
    Light,
    /// M.
    Medium,
    /// H.
    Heavy,
    /// J.
    Super,
}

/// Field 9: number and type of aircraft, and wake turbulence category (ICAO Doc 4444, appendix 3,
/// field type 9). The number, if given, is from 0 to 99.
#[derive(Debug, Drop, PartialEq, Eq)]
pub struct Craft {
    pub number: Option<u8>,
    pub kind: Text<4>,
    pub wake: Wake,
}

#[tactic(auto, unfolding(crate::specs::Craft::flight_rules_of))]
fn flight_rules_of(byte: u8) -> Option<FlightRules>
    ensures { result ≡ flight_rules_of byte }
{
    match byte {
        b'I' => Some(FlightRules::Instrument),
        b'V' => Some(FlightRules::Visual),
        b'Y' => Some(FlightRules::InstrumentFirst),
        b'Z' => Some(FlightRules::VisualFirst),
        _ => None,
    }
}

#[tactic(auto, unfolding(crate::specs::Craft::flight_kind_of))]
fn flight_kind_of(byte: u8) -> Option<FlightKind>
    ensures { result ≡ flight_kind_of byte }
{
    match byte {
        b'S' => Some(FlightKind::Scheduled),
        b'N' => Some(FlightKind::NonScheduled),
        b'G' => Some(FlightKind::General),
        b'M' => Some(FlightKind::Military),
        b'X' => Some(FlightKind::Other),
        _ => None,
    }
}

/// Reads a type of flight that may be missing.
#[tactic(auto, unfolding(crate::specs::Craft::flight_kind_in))]
fn flight_kind_in(text: &[u8]) -> Option<Option<FlightKind>>
    ensures { result ≡ flight_kind_in text.now }
{
    if text.is_empty() {
        return Some(None);
    }
    if text.len() != 1 {
        return None;
    }
    let kind = flight_kind_of(text[0])?;
    Some(Some(kind))
}

#[tactic(auto, unfolding(crate::specs::Craft::rules_of, crate::specs::Craft::flight_rules_of))]
fn rules_of(text: &[u8]) -> Option<Rules>
    ensures { result ≡ rules_of text.now }
{
    if text.is_empty() {
        return None;
    }
    let rules = flight_rules_of(text[0])?;
    let kind = flight_kind_in(&text[1..])?;
    Some(Rules { rules, kind })
}

impl Rules {
    /// Reads field 8: I, V, Y or Z, then optionally S, N, G, M or X. Any other text is
    /// `BadField(8)`.
    pub fn read(field: &[u8]) -> Result<Rules, FieldFault>
        ensures { result ≡ ok_or (rules_of field.now) (FieldFault.BadField 8) }
    {
        rules_of(field).ok_or(FieldFault::BadField(8))
    }
}

#[tactic(auto, unfolding(crate::specs::Craft::wake_of))]
fn wake_of(byte: u8) -> Option<Wake>
    ensures { result ≡ wake_of byte }
{
    match byte {
        b'L' => Some(Wake::Light),
        b'M' => Some(Wake::Medium),
        b'H' => Some(Wake::Heavy),
        b'J' => Some(Wake::Super),
        _ => None,
    }
}

fn digit_count(text: &[u8]) -> usize
    ensures value { result ≡ prefix_len is_digit text.now }
    ensures bound { result ≤ length text.now }
{
    text.iter().take_while(|byte| is_digit(**byte)).count()
}

/// The number of digits with which a text begins.
fn leading_digits(text: &[u8]) -> usize
    ensures value { result ≡ prefix_len is_digit text.now }
    ensures bound { result ≤ length text.now }
    ensures digits { (k : ℕ) → k < result → is_digit (slice_index text.now k) ≡ true }
{
    digit_count(text)
}

/// The number of aircraft, which the first `digits` bytes spell: none, or 1 or 2 digits. `None` for
/// more.
#[tactic(auto, unfolding(crate::specs::Craft::craft_number, crate::specs::Bytes::is_digit))]
fn craft_number(digits: usize, text: &[u8]) -> Option<Option<u8>>
    requires bound { digits ≤ length text.now }
    requires digits { (k : ℕ) → k < digits → is_digit (slice_index text.now k) ≡ true }
    ensures { result ≡ craft_number digits text.now }
{
    match digits {
        0 => Some(None),
        1 => Some(Some(text[0] - b'0')),
        2 => Some(Some(two_digits(text[0], text[1]))),
        _ => None,
    }
}

/// Whether a text is a type designator: 2 to 4 letters or digits, of which the first is a letter.
#[tactic(auto, unfolding(crate::specs::Craft::is_craft_kind))]
fn is_craft_kind(text: &[u8]) -> bool
    ensures { result ≡ is_craft_kind text.now }
{
    text.len() >= 2 && text.len() <= 4 && is_letter(text[0]) && all_letters_or_digits(text)
}

#[tactic(auto, unfolding(crate::specs::Craft::craft_of, crate::specs::Craft::is_craft_kind))]
fn craft_of(text: &[u8]) -> Option<Craft>
    ensures { result ≡ craft_of text.now }
{
    let digits = leading_digits(text);
    if text.len() < digits + 4 {
        return None;
    }
    let last = text.len() - 1;
    let kind = &text[digits..last - 1];
    if text[last - 1] != b'/' || !is_craft_kind(kind) {
        return None;
    }
    let number = craft_number(digits, text)?;
    let wake = wake_of(text[last])?;
    Some(Craft {
        number,
        kind: Text::new(kind),
        wake,
    })
}

impl Craft {
    /// Reads field 9: optionally 1 or 2 digits, then a type of 2 to 4 letters or digits that begins
    /// with a letter, a stroke, and L, M, H or J. Any other text is `BadField(9)`.
    pub fn read(field: &[u8]) -> Result<Craft, FieldFault>
        ensures { result ≡ ok_or (craft_of field.now) (FieldFault.BadField 9) }
    {
        craft_of(field).ok_or(FieldFault::BadField(9))
    }
}

/// Field 10: equipment and capabilities (ICAO Doc 4444, appendix 3, field type 10), kept as text
/// and not interpreted.
#[derive(Drop)]
pub struct Equipment<A: Allocator + Copy = Global> {
    text: Vec<u8, A>,
}

impl<A: Allocator + Copy> Model for Equipment<A> {
    ghost Value = { List ℕ };

    ghost view = { λ e. e.text.items };
}

/// Whether a text has the form of field 10: letters or digits on either side of a stroke.
#[tactic(auto, unfolding(crate::specs::Craft::is_equipment))]
pub fn is_equipment(text: &[u8]) -> bool
    ensures { result ≡ is_equipment text.now }
{
    let before = leading_letters_or_digits(text);
    if before < 1 || text.len() <= before + 1 {
        return false;
    }
    text[before] == b'/' && all_letters_or_digits(&text[before + 1..])
}

impl<A: Allocator + Copy> Equipment<A> {
    /// Reads field 10: letters or digits on either side of a stroke. Any other text is
    /// `BadField(10)`; `OutOfMemory` is returned only for a text of this form.
    pub fn read(alloc: A, field: &[u8]) -> Result<Self, FieldFault>
        ensures { ReadsEquipment field.now result }
    {
        if !is_equipment(field) {
            return Err(FieldFault::BadField(10));
        }
        match Vec::from_slice(alloc, field) {
            Ok(text) => Ok(Equipment { text }),
            Err(_) => Err(FieldFault::OutOfMemory),
        }
    }

    /// The text as it was filed, squeezed.
    pub fn as_bytes(&self) -> &[u8]
        ensures { result.now ≡ self.now }
    {
        self.text.as_slice()
    }
}
