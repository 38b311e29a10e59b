//! The estimates of field 18, as a plan keeps them.

ghost use Rattle.std.specs.Prelude.{◌≡◌, ◌≤◌, ◌<◌, ◌+◌, length, IfOk, IfSome, OnErr, None};
ghost use Rattle.std.specs.Prelude.{true, List, ℕ, IsSome, vec_len, vec_capacity, drop, ◌∷◌, []};
ghost use Rattle.std.specs.List.{list_all};
ghost use Rattle.fpl_items.specs.Points.{may_have};
ghost use Rattle.fpl_items.specs.Items.{words_before, is_estimate, items_of, field_fault};
ghost use Rattle.fpl_items.specs.Items.{own_of, words_after};
ghost use Rattle.fpl_items.specs.Estimates.{first_for, HasPlacesOf, AreEstimatesOf};
ghost use Rattle.fpl_items.specs.Estimates.{AddsWords, AddsFirst, estimate_count};
ghost use Rattle.fpl_items.specs.Estimates.{has_estimates};
ghost use Rattle.fpl_text.specs.Words.{words_of};
ghost use Rattle.fpl_text.specs.declared.time.TheConstants.{ELAPSED_LIMIT};

use crate::estimate::{Estimate, may_have, name_of, with_place};
use crate::item::{begins_item, next_estimate, skip_to_effect, take_eet, take_first};
use fpl_text::{Words, minutes_of_elapsed};
use std::alloc::{AllocError, Allocator, Global};
use std::marker::Model;

/// The estimates of the EET items, in order, in an allocation without spare capacity: there are
/// many plans, and some have no estimates. Contracts see the list of them.
#[derive(Drop)]
pub struct Estimates<A: Allocator + Copy = Global> {
    /// A bit set of the points, by which most other points are excluded without a search.
    places: u64,
    notes: Vec<Estimate, A>,
}

impl<A: Allocator + Copy> Model for Estimates<A> {
    ghost use Rattle.std.specs.Prelude.{List};
    ghost use Rattle.fpl_items.specs.declared.estimate.Estimate.{Estimate as Note};
    ghost use Rattle.fpl_items.specs.Estimates.{HasPlacesOf};

    ghost Value = { List Note };

    ghost view = { λ e. e.notes.items };

    ghost invariant = { λ e. HasPlacesOf e.places e.notes.items };
}

impl<A: Allocator + Copy> Estimates<A> {
    /// Reads the estimates of a field 18 that has its form, which are `count`. Returns `Err` if
    /// allocation fails, which it doesn't for a field without estimates.
    pub(crate) fn read(alloc: A, field: &[u8], count: usize) -> Result<Self, AllocError>
        requires faultless { field_fault field.now ≡ None }
        requires count { count ≡ estimate_count (items_of (words_of field.now)) }
        ensures items { IfOk result (AreEstimatesOf (items_of (words_of field.now))) }
        ensures memory { OnErr result (0 < count) }
    {
        let mut notes = Vec::with_capacity(alloc, count)?;
        let places = note_items(&mut notes, Words::new(field), count);
        Ok(Estimates { places, notes })
    }

    /// A copy. Returns `Err` if allocation fails.
    pub fn copied<B: Allocator + Copy>(&self, alloc: B) -> Result<Estimates<B>, AllocError>
        ensures { IfOk result (λ e. e ≡ self.now) }
    {
        let notes = Vec::from_slice(alloc, &self.notes)?;
        Ok(Estimates {
            places: self.places,
            notes,
        })
    }

    /// The elapsed time, in minutes, of the first estimate for the point `place`.
    #[inline]
    pub fn elapsed(&self, place: &[u8]) -> Option<u32>
        ensures value { result ≡ first_for place.now self.now }
        ensures bound { IfSome result (λ minutes. minutes < ELAPSED_LIMIT) }
    {
        elapsed_in(self.places, &self.notes, place)
    }

    /// A bit set of the points of the estimates, to be asked by [`may_have`](crate::may_have).
    #[inline]
    pub fn places(&self) -> u64
        ensures { (place : List ℕ) → IsSome (first_for place self.now)
            → may_have result place ≡ true }
    {
        self.places
    }

    /// The minutes of the longest of the estimates, or 0.
    pub fn longest(&self) -> u32
        ensures { (place : List ℕ)
            → IfSome (first_for place self.now) (λ minutes. minutes ≤ result) }
    {
        longest_of(&self.notes)
    }
}

/// The minutes of the longest of these estimates, or 0.
fn longest_of(notes: &[Estimate]) -> u32
    ensures { (place : List ℕ) → IfSome (first_for place notes.now) (λ minutes. minutes ≤ result) }
{
    let mut longest = 0;
    for note in notes {
        longest = longest.max(note.minutes());
    }
    longest
}

/// Appends the estimate that a word is, and returns the set of points with its point.
#[inline(always)]
#[tactic(auto, unfolding(crate::specs::Items::is_estimate))]
fn note<A: Allocator + Copy>(notes: &mut Vec<Estimate, A>, places: u64, word: &[u8]) -> u64
    requires is { is_estimate word.now ≡ true }
    requires room { vec_len notes.old < vec_capacity notes.old }
    requires places { HasPlacesOf places notes.old.items }
    ensures noted { AddsFirst notes.old.items notes.new.items (word.now ∷ []) }
    ensures count { vec_len notes.new ≡ vec_len notes.old + 1 }
    ensures room { vec_capacity notes.new ≡ vec_capacity notes.old }
    ensures places { HasPlacesOf result notes.new.items }
{
    let (place, time) = word.split_at(word.len() - 4);
    notes.push_reserved(Estimate::new(place, minutes_of_elapsed(time)));
    with_place(places, place)
}

/// Appends the estimates that the words before the next item are, and takes them.
fn note_before_item<A: Allocator + Copy>(
    notes: &mut Vec<Estimate, A>,
    places: u64,
    words: &mut Words<'_>,
) -> u64
    requires are { list_all is_estimate (words_before words.old) ≡ true }
    requires room { vec_len notes.old + length (words_before words.old)
        ≤ vec_capacity notes.old }
    requires places { HasPlacesOf places notes.old.items }
    ensures noted { AddsWords notes.old.items notes.new.items (words_before words.old) }
    ensures count { vec_len notes.new ≡ vec_len notes.old + length (words_before words.old) }
    ensures room { vec_capacity notes.new ≡ vec_capacity notes.old }
    ensures places { HasPlacesOf result notes.new.items }
    ensures items { items_of words.new ≡ items_of words.old }
{
    let mut places = places;
    // When the list is full, the next word begins an item.
    'words: while notes.len() < notes.capacity() {
        if let Some(word) = next_estimate(words) {
            places = note(notes, places, word);
            continue;
        }
        let mut after = words.duplicate();
        let Some(measured) = after.next_measured() else {
            return places;
        };
        if begins_item(&measured) {
            return places;
        }
        places = note(notes, places, measured.word);
        *words = after;
    }
    places
}

/// Appends the estimate that the text after the stroke of an EET item is, unless it is empty, and
/// takes it.
#[inline(always)]
fn note_own<A: Allocator + Copy>(
    notes: &mut Vec<Estimate, A>,
    places: u64,
    words: &mut Words<'_>,
) -> u64
    requires are { list_all is_estimate (own_of words.old) ≡ true }
    requires room { vec_len notes.old + length (own_of words.old) ≤ vec_capacity notes.old }
    requires places { HasPlacesOf places notes.old.items }
    ensures noted { AddsFirst notes.old.items notes.new.items (own_of words.old) }
    ensures count { vec_len notes.new ≡ vec_len notes.old + length (own_of words.old) }
    ensures room { vec_capacity notes.new ≡ vec_capacity notes.old }
    ensures places { HasPlacesOf result notes.new.items }
    ensures rest { words.new ≡ drop 1 words.old }
{
    if let Some(word) = next_estimate(words) {
        return note(notes, places, word);
    }
    let Some(own) = words.next_measured() else {
        return places;
    };
    if own.word.is_empty() {
        return places;
    }
    note(notes, places, own.word)
}

/// Appends the estimates that the words of an EET item are, and takes them. The first is what
/// follows the stroke.
fn note_words<A: Allocator + Copy>(
    notes: &mut Vec<Estimate, A>,
    places: u64,
    words: &mut Words<'_>,
) -> u64
    requires are { list_all is_estimate (words_after words.old) ≡ true }
    requires room { vec_len notes.old + length (words_after words.old) ≤ vec_capacity notes.old }
    requires places { HasPlacesOf places notes.old.items }
    ensures noted { AddsWords notes.old.items notes.new.items (words_after words.old) }
    ensures count { vec_len notes.new ≡ vec_len notes.old + length (words_after words.old) }
    ensures room { vec_capacity notes.new ≡ vec_capacity notes.old }
    ensures places { HasPlacesOf result notes.new.items }
    ensures items { items_of words.new ≡ items_of (drop 1 words.old) }
{
    let more = note_own(notes, places, words);
    note_before_item(notes, more, words)
}

/// Appends the estimates of the items of words, which are `count`, to a list that is empty. Stops
/// at the last, whatever follows it.
fn note_items<A: Allocator + Copy>(
    notes: &mut Vec<Estimate, A>,
    mut words: Words<'_>,
    count: usize,
) -> u64
    requires empty { vec_len notes.old ≡ 0 }
    requires room { count ≤ vec_capacity notes.old }
    requires count { count ≡ estimate_count (items_of words) }
    requires are { list_all has_estimates (items_of words) ≡ true }
    ensures noted { AreEstimatesOf (items_of words.entry) notes.new.items }
    ensures places { HasPlacesOf result notes.new.items }
{
    let mut places = 0;
    'items: while notes.len() < count {
        skip_to_effect(&mut words);
        if take_eet(&mut words) {
            places = note_words(notes, places, &mut words);
            continue;
        }
        let Some(_first) = take_first(&mut words) else {
            return places;
        };
    }
    places
}

/// The minutes of the first of these estimates for the point `place`. `places` has the bit of each
/// of their points.
#[inline]
pub(crate) fn elapsed_in(places: u64, notes: &[Estimate], place: &[u8]) -> Option<u32>
    requires { HasPlacesOf places notes.now }
    ensures value { result ≡ first_for place.now notes.now }
    ensures bound { IfSome result (λ minutes. minutes < ELAPSED_LIMIT) }
{
    if !may_have(places, place) {
        return None;
    }
    if place.len() > 11 {
        return None;
    }
    first_for(notes, place)
}

/// The minutes of the first of these estimates for the point `place`.
#[inline(never)]
fn first_for(notes: &[Estimate], place: &[u8]) -> Option<u32>
    requires { length place.now ≤ 11 }
    ensures value { result ≡ first_for place.now notes.now }
    ensures bound { IfSome result (λ minutes. minutes < ELAPSED_LIMIT) }
{
    let name = name_of(place);
    for note in notes {
        if note.is_for(place, &name) {
            return Some(note.minutes());
        }
    }
    None
}
