//! Field 7: aircraft identification.

ghost use Rattle.std.specs.Prelude.{◌≡◌, ◌<◌, ◌-◌, ◌&&◌, true, length, nat_le};
ghost use Rattle.std.specs.List.{list_all};
ghost use Rattle.fpl_text.specs.Bytes.{is_letter_or_digit};
ghost use Rattle.fpl_text.specs.Places.{is_octal, transponder_of, ident_of};
ghost use Rattle.std.specs.Option.{ok_or};

use crate::byte::{are_letters_or_digits, leading_letters_or_digits};
use crate::fault::FieldFault;
use crate::text::Text;

/// Field 7: aircraft identification, and the transponder code if it is given (ICAO Doc 4444,
/// appendix 3, field type 7). The code, four digits 0 to 7, is kept as the octal number that they
/// are; it is no part of a plan's key.
#[derive(Debug, Drop, PartialEq, Eq)]
pub struct Ident {
    pub name: Text<7>,
    pub code: Option<u16>,
}

#[tactic(auto, unfolding(crate::specs::Places::is_octal))]
fn is_octal(byte: u8) -> bool
    ensures { result ≡ is_octal byte }
{
    matches!(byte, b'0'..=b'7')
}

#[tactic(auto, unfolding(crate::specs::Places::is_octal))]
fn octal_digit(byte: u8) -> u16
    requires { is_octal byte ≡ true }
    ensures value { result ≡ byte - 48 }
    ensures bound { result < 8 }
{
    (byte - b'0') as u16
}

/// Reads a transponder code that may be missing: a stroke, an A and four octal digits.
#[tactic(auto, unfolding(crate::specs::Places::transponder_of))]
fn transponder_of(text: &[u8]) -> Option<Option<u16>>
    ensures { result ≡ transponder_of text.now }
{
    if text.is_empty() {
        return Some(None);
    }
    if text.len() != 6 || text[0] != b'/' || text[1] != b'A' {
        return None;
    }
    let digits = &text[2..];
    if !digits.iter().all(|byte| is_octal(*byte)) {
        return None;
    }
    let high = 8 * octal_digit(digits[0]) + octal_digit(digits[1]);
    let low = 8 * octal_digit(digits[2]) + octal_digit(digits[3]);
    Some(Some(64 * high + low))
}

/// Whether a field is a name of 4 to 7 letters or digits, as most are, and has no code.
#[inline(always)]
fn is_name(field: &[u8]) -> bool
    ensures { result ≡ nat_le 4 (length field.now) && (nat_le (length field.now) 7
        && list_all is_letter_or_digit field.now) }
{
    field.len() >= 4 && field.len() <= 7 && are_letters_or_digits(field)
}

/// Reads a field of any form.
#[inline(never)]
#[tactic(auto, unfolding(crate::specs::Places::ident_of))]
fn read_any(field: &[u8]) -> Option<Ident>
    ensures { result ≡ ident_of field.now }
{
    let name_len = leading_letters_or_digits(field);
    if name_len < 1 || name_len > 7 {
        return None;
    }
    let (name, rest) = field.split_at(name_len);
    let code = transponder_of(rest)?;
    let name = Text::new(name);
    Some(Ident { name, code })
}

impl Ident {
    /// Reads field 7: 1 to 7 letters or digits, then optionally `/A` and four digits 0 to 7. Any
    /// other text is `BadField(7)`.
    #[inline]
    pub fn read(field: &[u8]) -> Result<Ident, FieldFault>
        ensures { result ≡ ok_or (ident_of field.now) (FieldFault.BadField 7) }
    {
        if is_name(field) {
            return Ok(Ident {
                name: Text::new(field),
                code: None,
            });
        }
        read_any(field).ok_or(FieldFault::BadField(7))
    }
}
