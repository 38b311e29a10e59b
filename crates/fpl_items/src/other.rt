//! Field 18: other information.

ghost use Rattle.std.specs.Prelude.{◌≡◌, ◌≢◌, ◌≤◌, ◌<◌, ◌+◌, ◌-◌, true, is_some};
ghost use Rattle.std.specs.Prelude.{◌++◌, slice_index_or, length, drop, false, codes};
ghost use Rattle.std.specs.Prelude.{[], None, Some, IfSome, IfOk, IfErr, OnErr, List};
ghost use Rattle.std.specs.Prelude.{MatchOption, pos};
ghost use Rattle.jiff_core.specs.Date.{epoch_day};
ghost use Rattle.std.specs.List.{list_all, list_any, prefix_len};
ghost use Rattle.fpl_text.specs.Bytes.{is_letter_or_digit};
ghost use Rattle.fpl_text.specs.Times.{elapsed_time};
ghost use Rattle.fpl_items.specs.Estimates.{estimates_in, estimate_count};
ghost use Rattle.fpl_items.specs.Estimates.{AreEstimatesOf, first_for, HasEstimate};
ghost use Rattle.fpl_items.specs.Kinds.{is_text};
ghost use Rattle.fpl_text.specs.Words.{words_of};
ghost use Rattle.fpl_items.specs.Items.{begins_item, words_before, is_estimate, own_of};
ghost use Rattle.fpl_items.specs.Items.{words_after};
ghost use Rattle.fpl_items.specs.Items.{item_at, items_with, BeginsItem};
ghost use Rattle.fpl_items.specs.Items.{is_day, item_fault, first_fault};
ghost use Rattle.fpl_items.specs.Items.{items_of, field_fault, items_or_fault};
ghost use Rattle.fpl_items.specs.Items.{elapsed_to, is_exempt, day_of_words};
ghost use Rattle.fpl_items.specs.Items.{ItemView, day_of_items, SaysAfter};
ghost use Rattle.fpl_items.specs.Routes.{ReadsAs};
ghost use Rattle.fpl_items.specs.Other18.{TellsOf, TellsAllOf};
ghost use Rattle.fpl_text.specs.declared.time.TheConstants.{ELAPSED_LIMIT};

use crate::estimates::Estimates;
use crate::fault::ItemFault;
use crate::item::{
    Item, ItemWords, Items, begins_item, field_begins, is_name, next_estimate, skip_to_effect,
    take_eet, take_first,
};
use fpl_text::{Day, Measured, Words, read_elapsed};
use jiff::civil::Date;
use std::alloc::{AllocError, Allocator, Global};
use std::marker::Model;

/// Whether a word of 5 bytes or more ends with an elapsed time.
#[inline(always)]
fn ends_with_time(word: &[u8]) -> bool
    requires { 5 ≤ length word.now }
    ensures { result ≡ is_some (elapsed_time (drop (length word.now - 4) word.now)) }
{
    read_elapsed(&word[word.len() - 4..]).is_some()
}

/// Whether a measured word is an estimate.
#[inline]
fn is_measured_estimate(measured: &Measured<'_>) -> bool
    requires { measured.now.letters_or_digits
        ≡ prefix_len is_letter_or_digit measured.now.word.now }
    ensures { result ≡ is_estimate measured.now.word.now }
{
    let word = measured.word;
    if word.len() < 5 {
        return false;
    }
    if word.len() > 15 {
        return false;
    }
    if measured.letters_or_digits < word.len() - 4 {
        return false;
    }
    ends_with_time(word)
}

/// The number of the words before the next item, if all are estimates. Takes them.
#[inline(always)]
fn estimates_before_item(words: &mut Words<'_>) -> Option<usize>
    requires { length (words_before words.old) ≤ usize.MAX }
    ensures all { is_some result ≡ list_all is_estimate (words_before words.old) }
    ensures count { IfSome result (λ count. count ≡ length (words_before words.old)) }
    ensures items { IfSome result (λ _. items_of words.old ≡ items_of words.new) }
{
    let mut count = 0;
    'words: loop {
        if next_estimate(words).is_some() {
            count += 1;
            continue;
        }
        let mut after = words.duplicate();
        let Some(measured) = after.next_measured() else {
            return Some(count);
        };
        if begins_item(&measured) {
            return Some(count);
        }
        if !is_measured_estimate(&measured) {
            return None;
        }
        *words = after;
        count += 1;
    }
}

/// The number of estimates that the text after the stroke of an EET item is: 1, or 0 if it is
/// empty; `None` if it is no estimate. Takes it.
#[inline(always)]
fn own_estimates(words: &mut Words<'_>) -> Option<usize>
    ensures all { is_some result ≡ list_all is_estimate (own_of words.old) }
    ensures count { IfSome result (λ count. count ≡ length (own_of words.old)) }
    ensures rest { IfSome result (λ _. words.new ≡ drop 1 words.old) }
{
    if next_estimate(words).is_some() {
        return Some(1);
    }
    let Some(own) = words.next_measured() else {
        return Some(0);
    };
    if own.word.is_empty() {
        return Some(0);
    }
    if is_measured_estimate(&own) {
        Some(1)
    } else {
        None
    }
}

/// The number of the words of an EET item, if all are estimates. Takes them; the first is what
/// follows the stroke.
#[inline(always)]
fn count_estimates(words: &mut Words<'_>) -> Option<usize>
    requires { length (words_after words.old) ≤ usize.MAX }
    ensures all { is_some result ≡ list_all is_estimate (words_after words.old) }
    ensures count { IfSome result (λ count. count ≡ length (words_after words.old)) }
    ensures items { IfSome result (λ _. items_of (drop 1 words.old) ≡ items_of words.new) }
{
    let own = own_estimates(words)?;
    let count = estimates_before_item(words)?;
    Some(own + count)
}

/// The day of exactly one word, which is a date.
#[tactic(auto, unfolding(crate::specs::Items::is_day))]
fn only_day(mut words: ItemWords<'_>) -> Option<Day>
    ensures some { is_some result ≡ is_day words.entry }
    ensures day { IfSome result (λ day. day_of_words words.entry ≡ Some day) }
{
    let word = words.next()?;
    if words.next().is_some() {
        return None;
    }
    Day::read(word)
}

fn has_word(mut words: ItemWords<'_>, word: &[u8]) -> bool
    ensures { result ≡ list_any (is_text word.now) words.entry }
{
    words.any(|other| other == word)
}

/// What the items of field 18 say of a flight, and how many estimates they have. Contracts relate
/// it to the items of the text.
#[derive(Clone, Copy)]
pub struct Effects {
    /// The day of the first DOF item.
    day: Option<Day>,
    exempt: bool,
    /// The number of estimates of the EET items.
    estimates: usize,
}

impl Effects {
    /// The effects with one more item that is no EET, or the fault of that item.
    #[tactic(auto, unfolding(crate::specs::Items::item_fault))]
    fn with(self, item: &Item<'_>) -> Result<Effects, ItemFault>
        requires { is_text (codes "EET") item.now.name ≡ false }
        ensures says { IfOk result
            (λ next. SaysAfter self.day self.exempt item.now next.day next.exempt) }
        ensures count { IfOk result (λ next. next.estimates ≡ self.estimates) }
        ensures fault { IfErr result
            (λ fault. item_fault (is_some self.day) item.now ≡ Some fault) }
        ensures memory { IfErr result (λ fault. fault ≢ ItemFault.OutOfMemory) }
    {
        let name = item.name();
        if is_name(name, b"DOF") {
            if self.day.is_some() {
                return Err(ItemFault::DuplicateItem);
            }
            let Some(day) = only_day(item.words()) else {
                return Err(ItemFault::BadDate);
            };
            return Ok(Effects {
                day: Some(day),
                exempt: self.exempt,
                estimates: self.estimates,
            });
        }
        let exempts = is_name(name, b"STS") && has_word(item.words(), b"ATFMX");
        Ok(Effects {
            day: self.day,
            exempt: self.exempt || exempts,
            estimates: self.estimates,
        })
    }

    /// What no items say.
    fn none() -> Effects
        ensures { TellsOf [] result }
    {
        Effects {
            day: None,
            exempt: false,
            estimates: 0,
        }
    }

    /// Checks field 18: `0`, or one or more items. Refuses the first fault from the left:
    /// `BadField(18)` for a field that doesn't begin with an item, and for an EET item with a word
    /// that is no point with an elapsed time; `BadDate` for a DOF item that is not exactly one
    /// date; `DuplicateItem` for a second DOF. Doesn't allocate.
    #[tactic(auto, unfolding(crate::specs::Items::field_fault))]
    pub fn read(field: &[u8]) -> Result<Effects, ItemFault>
        ensures value { ReadsAs (λ _. items_of (words_of field.now)) result
            (items_or_fault field.now) }
        ensures faultless { IfOk result (λ _. field_fault field.now ≡ None) }
        ensures tells { IfOk result (TellsOf (items_of (words_of field.now))) }
        ensures memory { IfErr result (λ fault. fault ≢ ItemFault.OutOfMemory) }
    {
        if field == b"0".as_slice() {
            return Ok(Effects::none());
        }
        if !field_begins(field) {
            return Err(ItemFault::BadField(18));
        }
        read_items(Words::new(field))
    }

    /// The day of flight of the first DOF item.
    pub fn day(&self) -> Option<Day>
        ensures value { result ≡ self.now.day }
        ensures items { (items : List ItemView) → TellsOf items self.now → result
            ≡ day_of_items items }
    {
        self.day
    }

    /// The day of flight as a date.
    pub fn date(&self) -> Option<Date>
        ensures { MatchOption result (self.now.day ≡ None)
            (λ date. IfSome self.now.day (λ day. epoch_day date ≡ pos day)
            × (is_some self.now.day ≡ true)) }
    {
        match self.day {
            Some(day) => Some(day.date()),
            None => None,
        }
    }

    /// Whether an STS item exempts the flight from slot allocation: STS/ATFMX (EUROCONTROL ATFCM
    /// Users Manual).
    pub fn exempt(&self) -> bool
        ensures value { result ≡ self.now.exempt }
        ensures items { (items : List ItemView) → TellsOf items self.now
            → result ≡ is_exempt items }
    {
        self.exempt
    }

    /// Reads the estimates of the EET items. `field` must be the text from which this was read,
    /// which isn't kept here. Returns `Err` if allocation fails, which it doesn't for a field
    /// without estimates.
    pub fn estimates<A: Allocator + Copy>(
        &self,
        alloc: A,
        field: &[u8],
    ) -> Result<Estimates<A>, AllocError>
        requires faultless { field_fault field.now ≡ None }
        requires tells { TellsOf (items_of (words_of field.now)) self.now }
        ensures items { IfOk result (AreEstimatesOf (items_of (words_of field.now))) }
        ensures memory { OnErr result (HasEstimate (items_of (words_of field.now))) }
    {
        Estimates::read(alloc, field, self.estimates)
    }
}

/// Reads the items of words, of which those without an effect are skipped. Stops at the first fault
/// from the left.
fn read_items(mut words: Words<'_>) -> Result<Effects, ItemFault>
    requires { estimate_count (items_of words) ≤ usize.MAX }
    ensures faultless { IfOk result (λ _. first_fault false (items_of words.entry) ≡ None) }
    ensures tells { IfOk result (TellsOf (items_of words.entry)) }
    ensures fault { IfErr result
        (λ fault. first_fault false (items_of words.entry) ≡ Some fault) }
    ensures memory { IfErr result (λ fault. fault ≢ ItemFault.OutOfMemory) }
{
    let mut effects = Effects::none();
    'items: loop {
        skip_to_effect(&mut words);
        if take_eet(&mut words) {
            let Some(count) = count_estimates(&mut words) else {
                return Err(ItemFault::BadField(18));
            };
            effects.estimates += count;
            continue;
        }
        let Some(first) = take_first(&mut words) else {
            return Ok(effects);
        };
        match effects.with(&Item::new(&first, &words)) {
            Ok(next) => effects = next,
            Err(fault) => return Err(fault),
        }
    }
}

/// What field 18 says (ICAO Doc 4444, appendix 3, field type 18), with its estimates, kept without
/// its text. Contracts relate it to the items of the text.
#[derive(Drop)]
pub struct Other18<A: Allocator + Copy = Global> {
    effects: Effects,
    estimates: Estimates<A>,
}

impl<A: Allocator + Copy> Model for Other18<A> {
    ghost use Rattle.fpl_items.specs.Other18.{Other18View};

    ghost Value = { Other18View };

    ghost view = { λ o. record {
      effects = o.effects;
      estimates = o.estimates;
    } };
}

impl<A: Allocator + Copy> Other18<A> {
    /// Reads field 18, as [`Effects::read`] does, with its estimates. `OutOfMemory` comes only for
    /// a field that isn't refused and has estimates.
    pub fn read(alloc: A, field: &[u8]) -> Result<Self, ItemFault>
        ensures value { ReadsAs (λ other. items_of (words_of field.now)) result
            (items_or_fault field.now) }
        ensures tells { IfOk result (TellsAllOf (items_of (words_of field.now))) }
        ensures memory { IfErr result
            (λ fault. fault ≡ ItemFault.OutOfMemory → field_fault field.now ≡ None) }
        ensures estimates { IfErr result (λ fault. fault ≡ ItemFault.OutOfMemory
            → HasEstimate (items_of (words_of field.now))) }
    {
        let effects = Effects::read(field)?;
        let Ok(estimates) = effects.estimates(alloc, field) else {
            return Err(ItemFault::OutOfMemory);
        };
        Ok(Other18 { effects, estimates })
    }

    /// The day of flight of the first DOF item.
    pub fn day(&self) -> Option<Day>
        ensures value { result ≡ self.now.effects.day }
        ensures items { (items : List ItemView) → TellsAllOf items self.now
            → result ≡ day_of_items items }
    {
        self.effects.day()
    }

    /// The day of flight as a date.
    pub fn date(&self) -> Option<Date>
        ensures { MatchOption result (self.now.effects.day ≡ None)
            (λ date. IfSome self.now.effects.day (λ day. epoch_day date ≡ pos day)
            × (is_some self.now.effects.day ≡ true)) }
    {
        self.effects.date()
    }

    /// The items, in order. `field` must be the text from which this was read, which isn't kept
    /// here.
    pub fn items<'a>(&self, field: &'a [u8]) -> Items<'a>
        requires { TellsAllOf (items_of (words_of field.now)) self.now }
        ensures { result ≡ items_of (words_of field.now) }
    {
        Items::new(field)
    }

    /// The estimates of the EET items.
    pub fn estimates(&self) -> &Estimates<A>
        ensures value { result.now ≡ self.now.estimates }
        ensures items { (items : List ItemView) → TellsAllOf items self.now
            → AreEstimatesOf items result.now }
    {
        &self.estimates
    }

    /// The elapsed time, in minutes, of the first estimate for the point `place`.
    pub fn elapsed(&self, place: &[u8]) -> Option<u32>
        ensures value { result ≡ first_for place.now self.now.estimates }
        ensures items { (items : List ItemView) → TellsAllOf items self.now
            → result ≡ elapsed_to place.now items }
        ensures bound { IfSome result (λ minutes. minutes < ELAPSED_LIMIT) }
    {
        self.estimates.elapsed(place)
    }

    /// Whether an STS item exempts the flight from slot allocation.
    pub fn exempt(&self) -> bool
        ensures value { result ≡ self.now.effects.exempt }
        ensures items { (items : List ItemView) → TellsAllOf items self.now → result
            ≡ is_exempt items }
    {
        self.effects.exempt()
    }
}
