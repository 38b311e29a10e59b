//! Which regulations may hold flights: for each flight, by its number, a bit mask of the
//! regulations that may hold it. If a bit isn't set, the flight isn't held there, and the slot list
//! need not be searched.
//!
//! A mask is a word in which each bit is for one of the first 64 open regulations, in the order of
//! opening. Nothing is said of the regulations from the 65th on, and a list of masks says nothing
//! at an index that it doesn't have.

ghost use Rattle.std.specs.Prelude.{◌≡◌, ◌<◌, ◌++◌, ◌∷◌, [], ℕ, List, false, map, ◌≤◌, true};
ghost use Rattle.std.specs.List.{remove};
ghost use Rattle.flow_regulations.specs.Listing.{RegulationView, without_in};
ghost use Rattle.flow_regulations.specs.Marks.{may_stand, mask_of, IsMarked, AreMarked};
ghost use Rattle.flow_regulations.specs.Marks.{KeepsMask, KeepsBelow, IsOut, IsOpenedTo};
ghost use Rattle.flow_regulations.specs.Marks.{MaskMovesUp};

use crate::regulation::Regulation;
use std::alloc::{AllocError, Allocator, Global};
use std::marker::Model;

/// For each flight a bit mask of the regulations that may hold it. Contracts see the masks, by
/// number.
#[derive(Drop)]
pub(crate) struct HeldMarks<A: Allocator + Copy = Global> {
    words: Vec<u64, A>,
}

impl<A: Allocator + Copy> Model for HeldMarks<A> {
    ghost use Rattle.std.specs.Prelude.{ℕ, List};

    ghost Value = { List ℕ };

    ghost view = { λ m. m.words.items };
}

impl<A: Allocator + Copy> HeldMarks<A> {
    /// No masks: each flight may be held in each regulation. Allocates nothing.
    pub(crate) fn new(alloc: A) -> Self
        ensures { (lists : List RegulationView) → AreMarked result lists }
    {
        HeldMarks {
            words: Vec::new(alloc),
        }
    }

    /// The mask of a flight.
    #[inline]
    pub(crate) fn of(&self, flight: u32) -> u64
        ensures { (lists : List RegulationView) → AreMarked self.now lists
            → IsMarked result flight 0 lists }
    {
        word_of(&self.words, flight)
    }

    /// Makes the masks of the flights up to number `last`, if there are none. Returns `Err` if
    /// allocation fails.
    pub(crate) fn make(&mut self, alloc: A, last: u32) -> Result<(), AllocError>
        ensures { (lists : List RegulationView) → AreMarked self.old lists
            → AreMarked self.new lists }
    {
        make_room(&mut self.words, alloc, last)
    }

    /// Sets the mask of a flight, the only one that the regulations changed since.
    pub(crate) fn set(&mut self, flight: u32, word: u64)
        ensures { (before lists : List RegulationView)
            → map (without_in flight) lists ≡ map (without_in flight) before
            → IsMarked word flight 0 lists → AreMarked self.old before → AreMarked self.new lists }
    {
        set_word(&mut self.words, flight, word);
    }

    /// Sets the bits for a regulation that is opened after these.
    pub(crate) fn open(&mut self, regulations: &[Regulation<A>], opened: &Regulation<A>)
        ensures { AreMarked self.old regulations.now
            → AreMarked self.new (regulations.now ++ opened.now ∷ []) }
    {
        open_place(&mut self.words, regulations.len(), opened);
    }

    /// Removes the bits of the regulation at this index, which is closed.
    pub(crate) fn close(&mut self, index: usize)
        ensures { (lists : List RegulationView) → AreMarked self.old lists
            → AreMarked self.new (remove lists index) }
    {
        close_place(&mut self.words, index);
    }

    /// Discards the masks: each flight may be held in each regulation.
    pub(crate) fn clear(&mut self)
        ensures { (lists : List RegulationView) → AreMarked self.new lists }
    {
        self.words.clear();
    }
}

/// Sets the mask of a flight, if it has one.
pub(crate) fn set_word(words: &mut [u64], flight: u32, word: u64)
    ensures others { (f : ℕ) → (f ≡ flight → ⊥) → mask_of words.new f ≡ mask_of words.old f }
    ensures one { KeepsMask word (mask_of words.new flight) }
{
    let place = flight as usize;
    if place < words.len() {
        words[place] = word;
    }
}

/// Sets the bits for a regulation that is opened at this index, the last.
fn open_place<A: Allocator + Copy>(words: &mut [u64], index: usize, regulation: &Regulation<A>)
    ensures { (f : ℕ) → IsOpenedTo index regulation.now f (mask_of words.old f)
        (mask_of words.new f) }
{
    if index >= 64 {
        return;
    }
    clear_from(words, index);
    mark_held(words, index, regulation);
}

/// Clears the bits from this index on, if all masks have the first of them set. No flight has the
/// number 0, so its mask shows that: it has the bits that all flights were given when the masks
/// were made or a regulation was closed, and no others.
fn clear_from(words: &mut [u64], index: usize)
    requires { index < 64 }
    ensures { (f : ℕ) → KeepsBelow index (mask_of words.old f) (mask_of words.new f) }
{
    if !may_stand(word_of(words, 0), index) {
        return;
    }
    for word in words.iter_mut() {
        *word %= 1 << index;
    }
}

/// Sets the bit of the regulation at this index in the masks of the flights that it holds.
fn mark_held<A: Allocator + Copy>(words: &mut [u64], index: usize, regulation: &Regulation<A>)
    ensures kept { (f : ℕ) → KeepsMask (mask_of words.old f) (mask_of words.new f) }
    ensures marked { (f : ℕ) → may_stand (mask_of words.new f) index ≡ false
        → IsOut f regulation.now }
{
    let last = regulation.last();
    let mut number = regulation.next_held(0);
    while number <= last {
        let word = with_mark(word_of(words, number), index);
        set_word(words, number, word);
        number = regulation.next_held(number + 1);
    }
}

/// The mask at an index.
#[inline]
pub(crate) fn word_of(words: &[u64], index: u32) -> u64
    ensures { result ≡ mask_of words.now index }
{
    match words.get(index as usize) {
        Some(word) => *word,
        None => u64::MAX,
    }
}

/// Whether the regulation at this index may hold the flight of this mask.
#[inline]
#[tactic(auto, unfolding(crate::specs::Marks::may_stand))]
pub(crate) fn may_stand(word: u64, index: usize) -> bool
    ensures { result ≡ may_stand word index }
{
    if index < 64 {
        (word >> index) % 2 == 1
    } else {
        true
    }
}

/// The first index from `index` on of a regulation that may hold the flight of this mask.
#[inline]
pub(crate) fn next_marked(word: u64, index: usize) -> usize
    ensures from { index ≤ result }
    ensures passed { (i : ℕ) → index ≤ i → i < result → may_stand word i ≡ false }
    ensures marked { may_stand word result ≡ true }
{
    if index >= 64 {
        return index;
    }
    let later = word >> index;
    if later == 0 {
        return 64;
    }
    index + later.trailing_zeros() as usize
}

/// The mask with bit `index` set.
#[inline]
pub(crate) fn with_mark(word: u64, index: usize) -> u64
    ensures marked { may_stand result index ≡ true }
    ensures kept { KeepsMask word result }
{
    if index < 64 { word | 1 << index } else { word }
}

/// The mask with bit `index` set if the flight is held there.
#[inline]
pub(crate) fn mark_where(word: u64, index: usize, is_held: bool) -> u64
    ensures marked { is_held ≡ true → may_stand result index ≡ true }
    ensures kept { KeepsMask word result }
{
    if is_held {
        with_mark(word, index)
    } else {
        word
    }
}

/// The mask after one more regulation is opened, at `index`, that holds the flight or not. No bit
/// after it is set.
pub(crate) fn with_place(word: u64, index: usize, is_held: bool) -> u64
    ensures before { KeepsBelow index word result }
    ensures marked { is_held ≡ true → may_stand result index ≡ true }
{
    if index >= 64 {
        return word;
    }
    mark_where(word % (1 << index), index, is_held)
}

/// The mask after the regulation at `index` is closed: the later bits move down by one. Bit 63 is
/// set, since nothing is known of the 65th regulation.
#[inline]
fn without_place(word: u64, index: usize) -> u64
    requires { index < 64 }
    ensures { MaskMovesUp index word result }
{
    let before = word % (1 << index);
    let after = word / 2 >> index;
    with_mark(after << index | before, 63)
}

/// Makes the masks of the flights up to number `last`, if there are none, with all bits set.
/// Returns `Err` if allocation fails.
pub(crate) fn make_room<A: Allocator + Copy>(
    words: &mut Vec<u64, A>,
    alloc: A,
    last: u32,
) -> Result<(), AllocError>
    ensures { (f : ℕ) → mask_of words.new.items f ≡ mask_of words.old.items f }
{
    if words.is_empty() {
        *words = vec![in alloc; u64::MAX; last as usize + 1]?;
    }
    Ok(())
}

/// Moves the later bits of all masks down by one, after the regulation at `index` was closed.
pub(crate) fn close_place(words: &mut [u64], index: usize)
    ensures { (f : ℕ) → MaskMovesUp index (mask_of words.old f) (mask_of words.new f) }
{
    if index >= 64 {
        return;
    }
    for word in words.iter_mut() {
        *word = without_place(*word, index);
    }
}
