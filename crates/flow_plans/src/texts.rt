//! The field texts of a plan, and the masks of the points that its flight enters.
//!
//! A caller's table of bit masks has 64 rows each for departures, arrivals and route points, by a
//! bit of the name.

ghost use Rattle.std.specs.Prelude.{◌≡◌, ◌≤◌, ◌<◌, ◌+◌, ◌++◌, true, length, List, ℕ};
ghost use Rattle.std.specs.Prelude.{MatchOption, IfOk, IfSome, IsSome};
ghost use Rattle.fpl_text.specs.Words.{words_of};
ghost use Rattle.fpl_items.specs.Items.{items_of, elapsed_to};
ghost use Rattle.fpl_items.specs.Estimates.{AreEstimatesOf};
ghost use Rattle.fpl_message.specs.KeptChanges.{items_at};
ghost use Rattle.flow_plans.specs.Changes.{texts_after};
ghost use Rattle.flow_plans.specs.Plans.{TextsView, texts_or};
ghost use Rattle.flow_plans.specs.Near.{word_at, HasBitsOf, table_row};
ghost use Rattle.fpl_items.specs.Points.{bit_of, may_have};
ghost use Rattle.fpl_text.specs.declared.time.TheConstants.{ELAPSED_LIMIT};
ghost use Rattle.std.specs.Int.{bit_at};

use crate::amended_values::text_after;
use fpl_items::{Estimates, bit_of};
use fpl_message::{Chg, Spot};
use std::alloc::{AllocError, Allocator, Global};
use std::marker::Model;
use std::mem;

/// The squeezed texts of fields 8, 9, 10, 15 and 18, one after the other in one buffer. Plans are
/// many, so each of their end offsets takes two bytes.
#[derive(Drop)]
pub(crate) struct Texts<A: Allocator + Copy = Global> {
    estimates: Estimates<A>,
    bytes: Vec<u8, A>,
    end8: u16,
    end9: u16,
    end10: u16,
    end15: u16,
}

impl<A: Allocator + Copy> Model for Texts<A> {
    ghost use Rattle.std.specs.Prelude.{◌≤◌, length, slice_range};
    ghost use Rattle.flow_plans.specs.Plans.{TextsView};
    ghost use Rattle.fpl_text.specs.Words.{words_of};
    ghost use Rattle.fpl_items.specs.Items.{items_of};
    ghost use Rattle.fpl_items.specs.Estimates.{AreEstimatesOf};

    ghost Value = { TextsView };

    ghost view = { λ t. record {
      field8 = slice_range t.bytes.items 0 t.end8;
      field9 = slice_range t.bytes.items t.end8 t.end9;
      field10 = slice_range t.bytes.items t.end9 t.end10;
      field15 = slice_range t.bytes.items t.end10 t.end15;
      field18 = slice_range t.bytes.items t.end15 (length t.bytes.items);
    } };

    ghost invariant = { λ t. (t.end8 ≤ t.end9) × (t.end9 ≤ t.end10) × (t.end10 ≤ t.end15)
        × (t.end15 ≤ length t.bytes.items)
        × AreEstimatesOf (items_of
        (words_of (slice_range t.bytes.items t.end15 (length t.bytes.items)))) t.estimates };
}

/// The squeezed texts of the same fields, as a message or a plan holds them.
#[derive(Drop)]
pub(crate) struct FieldTexts<'a> {
    pub field8: &'a [u8],
    pub field9: &'a [u8],
    pub field10: &'a [u8],
    pub field15: &'a [u8],
    pub field18: &'a [u8],
}

impl<'a> Model for FieldTexts<'a> {
    ghost use Rattle.flow_plans.specs.Plans.{TextsView};

    ghost Value = { TextsView };

    ghost view = { λ t. record {
      field8 = t.field8.now;
      field9 = t.field9.now;
      field10 = t.field10.now;
      field15 = t.field15.now;
      field18 = t.field18.now;
    } };
}

/// Appends a text, and returns the offset of its end. Returns `Err` if an allocation fails, or at
/// more than 65,535 bytes, which no filing reaches: each has at most 2,000.
fn push_text<A: Allocator>(bytes: &mut Vec<u8, A>, text: &[u8]) -> Result<u16, AllocError>
    ensures items { IfOk result (λ end. bytes.new.items ≡ bytes.old.items ++ text.now) }
    ensures end { IfOk result (λ end. end ≡ length (bytes.old.items ++ text.now)) }
{
    bytes.extend_from_slice(text)?;
    u16::try_from(bytes.len()).map_err(|_| AllocError)
}

/// Whether a message amends none of these texts.
#[tactic(auto, unfolding(crate::specs::Changes::texts_after))]
fn keeps_texts<A: Allocator + Copy>(message: &Chg<A>) -> bool
    ensures { result ≡ true → (held : TextsView) → texts_after held message.now ≡ held }
{
    message.field8().is_none()
        && message.field9().is_none()
        && message.field10().is_none()
        && message.field15().is_none()
        && message.field18().is_none()
}

/// The estimates of an amended field 18, or else a copy of those held.
fn estimates_after<A: Allocator + Copy>(
    alloc: A,
    held: &Estimates<A>,
    message: &Chg<A>,
) -> Result<Estimates<A>, AllocError>
    ensures value { IfOk result (λ after. MatchOption message.now.items (after ≡ held.now)
        (λ items. AreEstimatesOf items after)) }
    ensures items { message.now.items ≡ items_at message.now.field18 }
{
    match message.estimates(alloc)? {
        Some(estimates) => Ok(estimates),
        None => held.copied(alloc),
    }
}

/// Exchanges the texts of a plan with others, if there are any.
pub(crate) fn exchange_texts<A: Allocator + Copy>(
    held: &mut Texts<A>,
    others: &mut Option<Box<Texts<A>, A>>,
)
    ensures changed { held.new ≡ texts_or others.old held.old }
    ensures back { texts_or others.new held.new ≡ held.old }
{
    if let Some(texts) = others {
        mem::swap(held, &mut **texts);
    }
}

impl<A: Allocator + Copy> Texts<A> {
    /// A copy of these texts, with the estimates of field 18.
    pub(crate) fn new(
        alloc: A,
        fields: &FieldTexts<'_>,
        estimates: Estimates<A>,
    ) -> Result<Self, AllocError>
        requires { AreEstimatesOf (items_of (words_of fields.now.field18)) estimates }
        ensures { IfOk result (λ t. t ≡ fields.now) }
    {
        let small = fields
            .field8
            .len()
            .saturating_add(fields.field9.len())
            .saturating_add(fields.field10.len());
        let all = small
            .saturating_add(fields.field15.len())
            .saturating_add(fields.field18.len());
        let mut bytes = Vec::with_capacity(alloc, all)?;
        let end8 = push_text(&mut bytes, fields.field8)?;
        let end9 = push_text(&mut bytes, fields.field9)?;
        let end10 = push_text(&mut bytes, fields.field10)?;
        let end15 = push_text(&mut bytes, fields.field15)?;
        let _end = push_text(&mut bytes, fields.field18)?;
        Ok(Texts {
            bytes,
            end8,
            end9,
            end10,
            end15,
            estimates,
        })
    }

    /// The texts after a message that replaces some; `None` if it amends none.
    pub(crate) fn amended(
        &self,
        alloc: A,
        message: &Chg<A>,
    ) -> Result<Option<Box<Self, A>>, AllocError>
        ensures { IfOk result (λ texts.
            texts_or texts self.now ≡ texts_after self.now message.now) }
    {
        if keeps_texts(message) {
            return Ok(None);
        }
        Ok(Some(self.rewritten(alloc, message)?))
    }

    /// The same if the message amends some. It is a function of its own, so that most messages,
    /// which amend none, don't set up its locals.
    #[inline(never)]
    #[tactic(auto, unfolding(crate::specs::Changes::texts_after))]
    fn rewritten(&self, alloc: A, message: &Chg<A>) -> Result<Box<Self, A>, AllocError>
        ensures { IfOk result (λ texts. texts.value ≡ texts_after self.now message.now) }
    {
        let estimates = estimates_after(alloc, self.estimates(), message)?;
        let fields = FieldTexts {
            field8: text_after(self.field8(), message.field8()),
            field9: text_after(self.field9(), message.field9()),
            field10: text_after(self.field10(), message.field10()),
            field15: text_after(self.field15(), message.field15()),
            field18: text_after(self.field18(), message.field18()),
        };
        let texts = Texts::new(alloc, &fields, estimates)?;
        Ok(Box::new(alloc, texts)?)
    }

    pub(crate) fn field8(&self) -> &[u8]
        ensures { result.now ≡ self.now.field8 }
    {
        &self.bytes[..usize::from(self.end8)]
    }

    pub(crate) fn field9(&self) -> &[u8]
        ensures { result.now ≡ self.now.field9 }
    {
        &self.bytes[usize::from(self.end8)..usize::from(self.end9)]
    }

    pub(crate) fn field10(&self) -> &[u8]
        ensures { result.now ≡ self.now.field10 }
    {
        &self.bytes[usize::from(self.end9)..usize::from(self.end10)]
    }

    pub(crate) fn field15(&self) -> &[u8]
        ensures { result.now ≡ self.now.field15 }
    {
        &self.bytes[usize::from(self.end10)..usize::from(self.end15)]
    }

    pub(crate) fn field18(&self) -> &[u8]
        ensures { result.now ≡ self.now.field18 }
    {
        &self.bytes[usize::from(self.end15)..]
    }

    fn estimates(&self) -> &Estimates<A>
        ensures { AreEstimatesOf (items_of (words_of self.now.field18)) result.now }
    {
        &self.estimates
    }

    /// The minutes from take-off to a route point, by the first estimate for it in the EET items of
    /// field 18.
    #[inline]
    pub(crate) fn elapsed(&self, place: &[u8]) -> Option<u32>
        ensures value { result ≡ elapsed_to place.now (items_of (words_of self.now.field18)) }
        ensures bound { IfSome result (λ minutes. minutes < ELAPSED_LIMIT) }
    {
        self.estimates.elapsed(place)
    }

    /// The bits in the table's rows of the route points, by the EET items of field 18.
    #[inline]
    pub(crate) fn near(&self, table: &[u64]) -> u64
        ensures { (place : List ℕ)
            → IsSome (elapsed_to place (items_of (words_of self.now.field18)))
            → HasBitsOf result (word_at table.now (128 + bit_of place)) }
    {
        words_on_way(table, self.estimates.places())
    }

    /// A set that has each route point, by the EET items of field 18.
    pub(crate) fn way(&self) -> u64
        ensures { (place : List ℕ)
            → IsSome (elapsed_to place (items_of (words_of self.now.field18)))
            → may_have result place ≡ true }
    {
        self.estimates.places()
    }

    /// The minutes from take-off to the last route point, by the EET items of field 18, or more.
    pub(crate) fn longest(&self) -> u32
        ensures { (place : List ℕ)
            → IfSome (elapsed_to place (items_of (words_of self.now.field18)))
            (λ minutes. minutes ≤ result) }
    {
        self.estimates.longest()
    }
}

/// The number of rows of a table of masks.
pub const ROWS: u32 = 192;

/// Returns the row of an aerodrome or route point in a table of masks.
#[tactic(auto, unfolding(crate::specs::Near::table_row))]
pub fn row_of(spot: &Spot) -> usize
    ensures value { result ≡ table_row spot.now }
    ensures bound { result < ROWS }
{
    match spot {
        Spot::Dep(place) => bit_of(place.as_bytes()) as usize,
        Spot::Arr(place) => 64 + bit_of(place.as_bytes()) as usize,
        Spot::Via(place) => 128 + bit_of(place.as_bytes()) as usize,
    }
}

/// The word of a row. A row that the table doesn't have has each bit.
#[inline]
fn word_at(table: &[u64], row: usize) -> u64
    ensures { result ≡ word_at table.now row }
{
    match table.get(row) {
        Some(word) => *word,
        None => u64::MAX,
    }
}

/// The masks of a departure and a destination.
pub(crate) fn words_of_ends(table: &[u64], dep: &[u8], dest: &[u8]) -> u64
    ensures dep { HasBitsOf result (word_at table.now (bit_of dep.now)) }
    ensures dest { HasBitsOf result (word_at table.now (64 + bit_of dest.now)) }
{
    word_at(table, bit_of(dep) as usize) | word_at(table, 64 + bit_of(dest) as usize)
}

/// The index of the next set bit from `from` on, 64 or more if there is none.
#[inline]
fn next_bit(word: u64, from: usize) -> usize
    ensures from { from ≤ result }
    ensures passed { (i : ℕ) → from ≤ i → i < result → bit_at word i ≡ 0 }
{
    if from >= 64 {
        return from;
    }
    let later = word >> from;
    if later == 0 {
        return 64;
    }
    from + later.trailing_zeros() as usize
}

/// The masks of a set of route points.
pub(crate) fn words_on_way(table: &[u64], places: u64) -> u64
    ensures { (b : ℕ) → b < 64 → bit_at places b ≡ 1
        → HasBitsOf result (word_at table.now (128 + b)) }
{
    let mut words = 0;
    let mut bit = next_bit(places, 0);
    while bit < 64 {
        words |= word_at(table, 128 + bit);
        bit = next_bit(places, bit + 1);
    }
    words
}
