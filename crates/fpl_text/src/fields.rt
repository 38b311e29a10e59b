//! The fields of a message.

ghost use Rattle.std.specs.Prelude.{[], ◌≡◌, ◌<◌, List, ℕ};
ghost use Rattle.std.specs.Prelude.{IsTrue, Some, length, slice_get, slice_index_or};
ghost use Rattle.std.specs.Prelude.{IfOk, IfErr, Ok, Err, true, take, ◌≤◌, nat_eq};
ghost use Rattle.std.specs.List.{starts_with};
ghost use Rattle.fpl_text.specs.Words.{words_of};
ghost use Rattle.fpl_text.specs.Squeezing.{Gives};
ghost use Rattle.fpl_text.specs.Borders.{IsNoted, IsMessage};
ghost use Rattle.fpl_text.specs.Fields.{is_bracketed};
ghost use Rattle.fpl_text.specs.Fields.{fields_of, first_field, title_of};
ghost use Rattle.fpl_text.specs.Fields.{begins_amendment, has_its_fields};
ghost use Rattle.fpl_text.specs.Fields.{fields_or_fault, split_or_fault};

use crate::byte::is_digit;
use crate::fault::TextFault;
use crate::squeezed::Squeezed;
use crate::words::Words;
use std::alloc::{Allocator, Global};
use std::marker::Model;
use std::mem::swap;

/// The kinds of messages (ICAO Doc 4444, appendix 3).
#[derive(Clone, Copy, Debug, PartialEq, Eq)]
pub enum Title {
    /// A filed flight plan.
    Fpl,
    /// A delay.
    Dla,
    /// A change of a flight plan.
    Chg,
    /// A cancellation.
    Cnl,
    /// A departure.
    Dep,
}

/// The fields of a message, read where they are: a squeezed text in one pair of brackets, cut at
/// its hyphens.
#[derive(Drop)]
pub struct FieldsRef<'a, A: Allocator + Copy = Global> {
    text: &'a Squeezed<A>,
}

impl<'a, A: Allocator + Copy> Model for FieldsRef<'a, A> {
    ghost Value = { List (List ℕ) };

    ghost view = { λ f. fields_of f.text.now };

    ghost invariant = { λ f. is_bracketed f.text.now ≡ true };
}

/// The fields of a message, with their text.
#[derive(Drop)]
pub struct Fields<A: Allocator + Copy = Global> {
    text: Squeezed<A>,
    title: Title,
}

impl<A: Allocator + Copy> Model for Fields<A> {
    ghost Value = { List (List ℕ) };

    ghost view = { λ f. fields_of f.text };

    ghost invariant = { λ f. IsMessage f.text f.title };
}

/// Whether a text begins with these three letters. Takes fewer instructions than `starts_with`.
#[inline(always)]
fn begins_with(text: &[u8], title: &[u8; 3]) -> bool
    ensures { result ≡ starts_with nat_eq text.now title.now }
{
    text.len() >= 3 && text[0] == title[0] && text[1] == title[1] && text[2] == title[2]
}

/// The title with which the first field begins.
#[tactic(auto, unfolding(crate::specs::Fields::title_of))]
pub(crate) fn title_of(field: &[u8]) -> Option<Title>
    ensures { result ≡ title_of field.now }
{
    if begins_with(field, b"FPL") {
        Some(Title::Fpl)
    } else if begins_with(field, b"DLA") {
        Some(Title::Dla)
    } else if begins_with(field, b"CHG") {
        Some(Title::Chg)
    } else if begins_with(field, b"CNL") {
        Some(Title::Cnl)
    } else if begins_with(field, b"DEP") {
        Some(Title::Dep)
    } else {
        None
    }
}

/// Whether a field begins as an amended field of a CHG does, with a field type number and a stroke.
#[tactic(auto, unfolding(crate::specs::Fields::begins_amendment))]
pub fn begins_amendment(field: &[u8]) -> bool
    ensures { result ≡ begins_amendment field.now }
{
    match field {
        [first, b'/', ..] => is_digit(*first),
        [first, second, b'/', ..] => is_digit(*first) && is_digit(*second),
        _ => false,
    }
}

/// Whether a message of this title may have these fields.
fn has_its_fields<A: Allocator + Copy>(title: Title, text: &Squeezed<A>) -> bool
    requires { is_bracketed text.now ≡ true }
    ensures { result ≡ has_its_fields title (fields_of text.now) }
{
    let count = text.field_count();
    match title {
        Title::Fpl => count == 9,
        Title::Dla | Title::Cnl | Title::Dep => count == 4 || count == 5,
        Title::Chg => count > 5 || (count == 5 && begins_amendment(text.field(4))),
    }
}

impl<'a, A: Allocator + Copy> FieldsRef<'a, A> {
    /// The number of fields.
    pub fn count(&self) -> usize
        ensures { result ≡ length self.now }
    {
        self.text.field_count()
    }

    /// Field `i`, counted from 0.
    #[inline]
    pub fn field(&self, i: usize) -> &'a [u8]
        requires { i < length self.now }
        ensures { slice_get self.now i ≡ Some result.now }
    {
        self.text.field(i)
    }
}

impl<A: Allocator + Copy> Fields<A> {
    /// The fields of a text that is a message of this title.
    pub fn new(text: Squeezed<A>, title: Title) -> Self
        requires { IsMessage text title }
        ensures { result ≡ fields_of text }
    {
        Fields { text, title }
    }

    /// Exchanges the text of these fields for another, which is a message of this title. Their own
    /// is left in its place. Doesn't allocate.
    pub fn exchange(&mut self, text: &mut Squeezed<A>, title: Title)
        requires { IsMessage text.old title }
        ensures fields { self.new ≡ fields_of text.old }
        ensures left { fields_of text.new ≡ self.old }
        ensures bracketed { is_bracketed text.new ≡ true }
    {
        swap(&mut self.text, text);
        self.title = title;
    }

    /// The title of the message. The message has a number of fields that this title allows.
    pub fn title(&self) -> Title
        ensures title { title_of (first_field self.now) ≡ Some result }
        ensures counted { IsTrue (has_its_fields result self.now) }
    {
        self.title
    }

    /// The fields, without their text.
    pub fn by_ref(&self) -> FieldsRef<'_, A>
        ensures { result ≡ self.now }
    {
        FieldsRef { text: &self.text }
    }

    /// The number of fields.
    pub fn count(&self) -> usize
        ensures { result ≡ length self.now }
    {
        self.by_ref().count()
    }

    /// Field `i`, counted from 0.
    pub fn field(&self, i: usize) -> &[u8]
        requires { i < length self.now }
        ensures { slice_get self.now i ≡ Some result.now }
    {
        self.by_ref().field(i)
    }

    /// The words of field `i`, counted from 0.
    pub fn words(&self, i: usize) -> Words<'_>
        requires { i < length self.now }
        ensures { result ≡ words_of (slice_index_or self.now i []) }
    {
        Words::new(self.field(i))
    }
}

impl<A: Allocator + Copy> Squeezed<A> {
    /// The title of this message. Refuses, in this order, a text that isn't in one pair of
    /// brackets, an unknown title, and a number of fields that the title doesn't have.
    #[tactic(auto, unfolding(crate::specs::Fields::fields_or_fault))]
    pub fn title(&self) -> Result<Title, TextFault>
        ensures ok { IfOk result (λ title. IsMessage self.now title) }
        ensures fields { IfOk result (λ _. fields_or_fault self.now ≡ Ok (fields_of self.now)) }
        ensures err { IfErr result (λ fault. fields_or_fault self.now ≡ Err fault) }
    {
        if !self.is_bracketed() {
            return Err(TextFault::NoBracket);
        }
        let Some(title) = title_of(self.field(0)) else {
            return Err(TextFault::UnknownTitle);
        };
        if !has_its_fields(title, self) {
            return Err(TextFault::FieldCount);
        }
        Ok(title)
    }

    /// The fields of this message, where they are.
    pub fn fields(&self) -> FieldsRef<'_, A>
        requires { is_bracketed self.now ≡ true }
        ensures { result ≡ fields_of self.now }
    {
        FieldsRef { text: self }
    }
}

/// Squeezes a message text and cuts it into fields, or returns its first fault: `Empty` for blanks
/// alone, `BadByte`, `NoBracket`, `UnknownTitle`, `FieldCount`. Returns `OutOfMemory` if allocation
/// fails.
#[tactic(auto, unfolding(crate::specs::Fields::split_or_fault))]
pub fn split<A: Allocator + Copy>(alloc: A, text: &[u8]) -> Result<Fields<A>, TextFault>
    ensures { Gives result (split_or_fault text.now) }
{
    let text = Squeezed::read(alloc, text)?;
    let title = text.title()?;
    Ok(Fields::new(text, title))
}
