//! The items of field 18.

ghost use Rattle.std.specs.Prelude.{◌≡◌, ◌≤◌, ◌==◌, ◌&&◌, ◌∷◌, ◌++◌, []};
ghost use Rattle.std.specs.Prelude.{nat_le, nat_lt, List, ℕ, true, length};
ghost use Rattle.std.specs.Prelude.{take, slice_index, MatchOption, IfSome, IfNone, false};
ghost use Rattle.std.specs.Iterator.{YieldsFirst, YieldsFirstRef, item_count};
ghost use Rattle.std.specs.List.{prefix_len};
ghost use Rattle.std.specs.Str.{bytes_eq};
ghost use Rattle.fpl_text.specs.Bytes.{is_letter, is_letter_or_digit};
ghost use Rattle.fpl_text.specs.Words.{words_of};
ghost use Rattle.fpl_items.specs.Kinds.{before_stroke};
ghost use Rattle.fpl_items.specs.Items.{begins_item, own_words, own_list, words_before, items_of};
ghost use Rattle.fpl_items.specs.Items.{is_estimate, item_at, items_with, BeginsItem};
ghost use Rattle.fpl_items.specs.Items.{from_effect, eet_of, BeginAtItem, BeginWithOther};
ghost use Rattle.std.specs.Prelude.{slice_index_or, drop};

use fpl_text::{Measured, Words, is_letter, leading_letters_or_digits};
use std::marker::Model;

/// Whether a stroke is at this offset of a word, after a name of 2 to 9 bytes that begins with a
/// letter.
#[inline]
fn has_name(stroke: usize, word: &[u8]) -> bool
    ensures { result ≡ (nat_lt stroke (length word.now)
        && (slice_index word.now stroke == 47) && nat_le 2 stroke
        && nat_le stroke 9 && is_letter (slice_index word.now 0)) }
{
    stroke < word.len() && word[stroke] == b'/' && stroke >= 2 && stroke <= 9 && is_letter(word[0])
}

/// Whether a word begins an item: a name of letters and digits, and a stroke after it.
#[inline]
pub(crate) fn begins_item(measured: &Measured<'_>) -> bool
    requires { measured.now.letters_or_digits
        ≡ prefix_len is_letter_or_digit measured.now.word.now }
    ensures value { result ≡ begins_item measured.now.word.now }
    ensures stroke { result ≡ true
        → measured.now.letters_or_digits ≡ before_stroke measured.now.word.now }
{
    has_name(measured.letters_or_digits, measured.word)
}

/// Whether the first word of a field begins an item.
#[inline(always)]
pub(crate) fn field_begins(field: &[u8]) -> bool
    ensures { result ≡ begins_item (slice_index_or (words_of field.now) 0 []) }
{
    has_name(leading_letters_or_digits(field), field)
}

/// Whether an item has this name.
#[inline]
pub(crate) fn is_name(name: &[u8], known: &[u8; 3]) -> bool
    ensures { result ≡ bytes_eq name.now known.now }
{
    if name.len() != 3 {
        return false;
    }
    name[0] == known[0] && name[1] == known[1] && name[2] == known[2]
}

/// Takes the next word if one look shows that it is an estimate, as it shows of most; takes none
/// else.
#[inline(always)]
#[tactic(auto, using(crate::proofs::OtherLemmas::four_letter_estimate, crate::proofs::OtherLemmas::four_letter_no_item,))]
pub(crate) fn next_estimate<'a>(words: &mut Words<'a>) -> Option<&'a [u8]>
    ensures next { MatchOption result (words.new ≡ words.old)
        (λ word. words.old ≡ word.now ∷ words.new) }
    ensures is { IfSome result (λ word. is_estimate word.now ≡ true) }
    ensures within { IfSome result (λ word. begins_item word.now ≡ false) }
{
    words.next_estimate()
}

/// Iterates over the words of an item, which end before the next item.
#[derive(Drop)]
pub struct ItemWords<'a> {
    pub(crate) own: Option<&'a [u8]>,
    pub(crate) following: Words<'a>,
}

impl<'a> Model for ItemWords<'a> {
    ghost Value = { List (List ℕ) };

    ghost view = { λ w. own_list w.own ++ words_before w.following };
}

impl<'a> Iterator for ItemWords<'a> {
    type Item = &'a [u8];

    ghost next_gives = { YieldsFirstRef (λ w. w) };

    ghost remaining = { item_count (λ w. w) };

    #[inline(always)]
    #[tactic(auto, unfolding(fpl_text::specs::Words::words_of))]
    fn next(&mut self) -> Option<&'a [u8]> {
        if let Some(own) = self.own {
            self.own = None;
            return Some(own);
        }
        let measured = self.following.next_measured()?;
        if begins_item(&measured) {
            self.following = Words::new(&[]);
            return None;
        }
        Some(measured.word)
    }
}

/// An item, by its first word and the words after it.
#[derive(Drop)]
pub struct Item<'a> {
    first: Measured<'a>,
    following: Words<'a>,
}

impl<'a> Model for Item<'a> {
    ghost use Rattle.fpl_items.specs.Items.{ItemView, item_at, BeginsItem};

    ghost Value = { ItemView };

    ghost view = { λ i. item_at i.first.word.now i.following };

    ghost invariant = { λ i. BeginsItem i.first };
}

/// The first word of an item after the stroke, unless it is empty.
#[inline(always)]
#[tactic(auto, unfolding(crate::specs::Items::begins_item))]
pub(crate) fn own_word<'a>(first: &Measured<'a>) -> Option<&'a [u8]>
    requires { BeginsItem first.now }
    ensures { own_list result ≡ own_words first.now.word.now }
{
    let own = &first.word[first.letters_or_digits + 1..];
    if own.is_empty() { None } else { Some(own) }
}

/// The name of an item, by its first word.
#[inline(always)]
#[tactic(auto, unfolding(crate::specs::Items::begins_item))]
pub(crate) fn name_of<'a>(first: &Measured<'a>) -> &'a [u8]
    requires { BeginsItem first.now }
    ensures { result.now ≡ take (before_stroke first.now.word.now) first.now.word.now }
{
    &first.word[..first.letters_or_digits]
}

impl<'a> Item<'a> {
    /// The item with this first word.
    #[inline(always)]
    pub(crate) fn new(first: &Measured<'a>, following: &Words<'a>) -> Item<'a>
        requires { BeginsItem first.now }
        ensures { result ≡ item_at first.now.word.now following.now }
    {
        Item {
            first: *first,
            following: following.duplicate(),
        }
    }

    /// The name, which precedes the stroke.
    pub fn name(&self) -> &'a [u8]
        ensures { result.now ≡ self.now.name }
    {
        name_of(&self.first)
    }

    /// The words up to the next item.
    pub fn words(&self) -> ItemWords<'a>
        ensures { result ≡ self.now.words }
    {
        ItemWords {
            own: own_word(&self.first),
            following: self.following.duplicate(),
        }
    }
}

/// Skips all before the next item that has an effect. With the first word of each item measured
/// instead, a day takes 3 % more instructions.
#[inline(always)]
pub(crate) fn skip_to_effect(words: &mut Words<'_>)
    ensures items { items_of words.new ≡ from_effect (items_of words.old) }
    ensures begin { BeginAtItem words.new }
{
    words.skip_to_named(b"DOF", b"EET", b"STS");
}

/// Takes the name and the stroke of the next item, if that is an EET, and nothing else.
#[inline(always)]
pub(crate) fn take_eet(words: &mut Words<'_>) -> bool
    requires { BeginAtItem words.old }
    ensures yes { result ≡ true
        → items_of words.old ≡ eet_of words.new ∷ items_of (drop 1 words.new) }
    ensures no { result ≡ false → (words.new ≡ words.old) × BeginWithOther (items_of words.old) }
{
    if words.is_named(b"EET") {
        words.skip_bytes(4);
        return true;
    }
    false
}

/// Takes the next word, which begins an item.
#[inline(always)]
pub(crate) fn take_first<'a>(words: &mut Words<'a>) -> Option<Measured<'a>>
    requires { BeginAtItem words.old }
    ensures items { items_of words.old ≡ items_with result words.new }
    ensures begins { IfSome result (λ first. BeginsItem first) }
{
    words.next_measured()
}

/// Takes the first word of the next item, after skipping the words before it.
fn next_first<'a>(words: &mut Words<'a>) -> Option<Measured<'a>>
    ensures items { items_of words.old ≡ items_with result words.new }
    ensures begins { IfSome result (λ first. BeginsItem first) }
    ensures none { IfNone result (words.new ≡ []) }
{
    'words: while let Some(measured) = words.next_measured() {
        if begins_item(&measured) {
            return Some(measured);
        }
    }
    None
}

/// Iterates over the items of a list of words.
#[derive(Drop)]
pub struct Items<'a> {
    words: Words<'a>,
}

impl<'a> Model for Items<'a> {
    ghost use Rattle.fpl_items.specs.Items.{ItemView, items_of};
    ghost use Rattle.std.specs.Prelude.{List};

    ghost Value = { List ItemView };

    ghost view = { λ i. items_of i.words };
}

impl<'a> Items<'a> {
    /// The items of a field 18.
    pub fn new(field: &'a [u8]) -> Items<'a>
        ensures { result ≡ items_of (words_of field.now) }
    {
        Items {
            words: Words::new(field),
        }
    }
}

impl<'a> Iterator for Items<'a> {
    type Item = Item<'a>;

    ghost next_gives = { YieldsFirst (λ i. i) };

    ghost remaining = { item_count (λ i. i) };

    #[inline(always)]
    fn next(&mut self) -> Option<Item<'a>> {
        let first = next_first(&mut self.words)?;
        Some(Item::new(&first, &self.words))
    }
}
