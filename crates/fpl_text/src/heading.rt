//! Field 3: message type, number and reference.

ghost use Rattle.std.specs.Prelude.{◌≡◌, ◌≤◌, ◌+◌, IsTrue, length};
ghost use Rattle.std.specs.List.{prefix_len};
ghost use Rattle.std.specs.Option.{ok_or};
ghost use Rattle.fpl_text.specs.Bytes.{is_letter};
ghost use Rattle.fpl_text.specs.Headings.{receiver_len, number_len, is_number};
ghost use Rattle.fpl_text.specs.Headings.{number_in, heading_with, heading_of};

use crate::byte::{all_digits, leading_letters};
use crate::fault::FieldFault;
use crate::fields::{Title, title_of};
use crate::text::Text;

/// Field 3: the title, the number of the message, and that of the message to which it refers (ICAO
/// Doc 4444, appendix 3, field type 3). The numbers are kept and have no effect.
#[derive(Debug, Drop, PartialEq, Eq)]
pub struct Heading {
    pub title: Title,
    pub number: Option<Text<12>>,
    pub reference: Option<Text<12>>,
}

/// The number of letters of the receiving unit, which follow the stroke.
fn receiver_len(sender_len: usize, text: &[u8]) -> usize
    requires sender { sender_len ≡ prefix_len is_letter text.now }
    requires bound { sender_len ≤ length text.now }
    ensures value { result ≡ receiver_len text.now }
    ensures bound { sender_len + result ≤ length text.now }
{
    if sender_len < text.len() {
        leading_letters(&text[sender_len + 1..])
    } else {
        0
    }
}

/// The length of the message number with which a text begins.
fn number_len(text: &[u8]) -> usize
    ensures { result ≡ number_len text.now }
{
    let sender_len = leading_letters(text);
    sender_len + receiver_len(sender_len, text) + 4
}

/// Whether a text is a message number.
#[tactic(auto, unfolding(crate::specs::Headings::is_number))]
fn is_number(text: &[u8]) -> bool
    ensures value { result ≡ is_number text.now }
    ensures fits { IsTrue result → length text.now ≤ 12 }
{
    let sender = leading_letters(text);
    let receiver = receiver_len(sender, text);
    if sender < 1 || sender > 4 {
        return false;
    }
    if receiver < 1 || receiver > 4 {
        return false;
    }
    text.len() == sender + receiver + 4
        && text[sender] == b'/'
        && all_digits(&text[sender + 1 + receiver..])
}

/// Reads a message number that may be missing.
#[tactic(auto, unfolding(crate::specs::Headings::number_in))]
fn number_in(text: &[u8]) -> Option<Option<Text<12>>>
    ensures { result ≡ number_in text.now }
{
    if text.is_empty() {
        return Some(None);
    }
    if !is_number(text) {
        return None;
    }
    Some(Some(Text::new(text)))
}

/// Reads what follows the title of a heading. Most messages have no number, so that case comes
/// first.
#[inline(always)]
#[tactic(auto, unfolding(crate::specs::Headings::heading_with, crate::specs::Headings::number_in))]
fn heading_with(title: Title, text: &[u8]) -> Option<Heading>
    ensures { result ≡ heading_with title text.now }
{
    if text.is_empty() {
        return Some(Heading {
            title,
            number: None,
            reference: None,
        });
    }
    numbered_heading(title, text)
}

/// Reads the one or two message numbers that follow a title.
#[tactic(auto, unfolding(crate::specs::Headings::heading_with))]
fn numbered_heading(title: Title, text: &[u8]) -> Option<Heading>
    ensures { result ≡ heading_with title text.now }
{
    let (first, second) = text.split_at(number_len(text).min(text.len()));
    let number = number_in(first)?;
    let reference = number_in(second)?;
    Some(Heading {
        title,
        number,
        reference,
    })
}

#[inline(always)]
#[tactic(auto, unfolding(crate::specs::Headings::heading_of))]
fn heading_of(text: &[u8]) -> Option<Heading>
    ensures { result ≡ heading_of text.now }
{
    let title = title_of(text)?;
    heading_with(title, &text[text.len().min(3)..])
}

impl Heading {
    /// Reads field 3: a title of three letters, and then nothing, a number, or a number and a
    /// reference. Each number is 1 to 4 letters, a stroke, 1 to 4 letters and 3 digits. Any other
    /// text is `BadField(3)`.
    #[inline(always)]
    pub fn read(field: &[u8]) -> Result<Heading, FieldFault>
        ensures { result ≡ ok_or (heading_of field.now) (FieldFault.BadField 3) }
    {
        match heading_of(field) {
            Some(heading) => Ok(heading),
            None => Err(FieldFault::BadField(3)),
        }
    }
}
