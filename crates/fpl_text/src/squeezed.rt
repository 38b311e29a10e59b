//! Texts with their blanks squeezed, in one pass over 32 or 64 bytes at a time, which also records
//! where the fields of a message begin and end.

ghost use Rattle.std.specs.Prelude.{◌≡◌, ◌++◌, [], List, ℕ, IfOk, ◌<◌, ◌≤◌, ◌+◌, ◌-◌, take, length};
ghost use Rattle.std.specs.Prelude.{slice_index, IfErr, IfSome, Ok, Err, ◌/◌, ◌%◌, ◌==◌, nat_le};
ghost use Rattle.std.specs.Prelude.{if◌then◌else◌, true, false, ◌∷◌, slice_get, Some};
ghost use Rattle.std.specs.Prelude.{option_copied, nat_lt, OnOk, OnErr};
ghost use Rattle.fpl_text.specs.Squeezing.{squeezed_or_fault, Gives, GivesAs};
ghost use Rattle.fpl_text.specs.Borders.{IsNoted, parts, AreBorders};
ghost use Rattle.fpl_text.specs.Passes.{IsPass};
ghost use Rattle.fpl_text.specs.Looks.{IsLook, HasClasses, HasSpaces, AreSpaced, IsBits};
ghost use Rattle.fpl_text.specs.Looks.{behind, is_kept};
ghost use Rattle.fpl_text.specs.declared.fault.TextFault.TheVariants.{Empty, BadByte};
ghost use Rattle.std.specs.Int.{bit_at};
ghost use Rattle.fpl_text.specs.Bytes.{is_border};
ghost use Rattle.fpl_text.specs.declared.squeezed.TheConstants.{BY_LOW_HALF, BY_HIGH_HALF};
ghost use Rattle.fpl_text.specs.Fields.{stands_in_brackets, is_bracketed, inside, fields_of};

use crate::byte::is_blank;
use crate::fault::TextFault;
use arrayvec::ArrayVec;
use std::alloc::{AllocError, Allocator, Global};
use std::marker::Model;
use std::simd::prelude::*;

/// A text in which each run of blanks is one space, with none at the ends or beside a hyphen or a
/// bracket.
#[derive(Drop)]
pub struct Squeezed<A: Allocator + Copy = Global> {
    /// The buffer, which begins with the text. What follows is left from the pass and from longer
    /// texts before.
    bytes: Vec<u8, A>,
    len: usize,
    borders: Borders,
}

impl<A: Allocator + Copy> Model for Squeezed<A> {
    ghost use Rattle.std.specs.Prelude.{◌≤◌, List, ℕ, length, take};
    ghost use Rattle.fpl_text.specs.Borders.{IsNoted};

    ghost Value = { List ℕ };

    ghost view = { λ s. take s.len s.bytes.items };

    ghost invariant = { λ s. (s.len ≤ length s.bytes.items)
        × IsNoted (take s.len s.bytes.items) (length s.borders.places.items) s.borders };
}

/// Grows a buffer to this length, if it is shorter; returns `Err` if that allocation fails.
fn grow<A: Allocator + Copy>(bytes: &mut Vec<u8, A>, len: usize) -> Result<(), AllocError>
    ensures { OnOk result (len ≤ length bytes.new.items) }
{
    let more = len.saturating_sub(bytes.len());
    if more > 0 {
        bytes.reserve_exact(more)?;
        bytes.resize(len, 0)?;
    }
    Ok(())
}

/// Squeezes a text to the beginning of a buffer, which grows if it is too short, and records its
/// borders in place of others. Returns the length of the squeezed text, or why there is none.
#[inline(always)]
fn squeeze_over<A: Allocator + Copy>(
    text: &[u8],
    bytes: &mut Vec<u8, A>,
    borders: &mut Borders,
) -> Result<usize, TextFault>
    ensures within { IfOk result (λ len. len ≤ length bytes.new.items) }
    ensures text { GivesAs (λ len. take len bytes.new.items) result
        (squeezed_or_fault text.now) }
    ensures borders { IfOk result (λ len.
        IsNoted (take len bytes.new.items) (length borders.new.places.items) borders.new) }
{
    // A squeezed text is no longer than the text. A look writes up to 64 bytes.
    let Ok(()) = grow(bytes, text.len() + 64) else {
        return Err(TextFault::OutOfMemory);
    };
    *borders = Borders::new();
    let len = match squeeze(text, bytes.as_mut_slice(), borders) {
        Ok(len) => len,
        Err(place) => return Err(TextFault::BadByte(place)),
    };
    if len == 0 {
        return Err(TextFault::Empty);
    }
    Ok(len)
}

impl<A: Allocator + Copy> Squeezed<A> {
    /// The empty text. Doesn't allocate.
    pub fn new(alloc: A) -> Self
        ensures { result ≡ [] }
    {
        Squeezed {
            bytes: Vec::new(alloc),
            len: 0,
            borders: Borders::new(),
        }
    }

    /// Squeezes a text in one pass over its bytes. A text of blanks alone is `Empty`; else the
    /// first byte that isn't accepted is `BadByte`. Returns `OutOfMemory` if allocation fails.
    pub fn read(alloc: A, text: &[u8]) -> Result<Self, TextFault>
        ensures { Gives result (squeezed_or_fault text.now) }
    {
        let mut squeezed = Squeezed::new(alloc);
        squeezed.renew(text)?;
        Ok(squeezed)
    }

    /// Squeezes a text as `read` does, over this one. After an `Err` this is the empty text.
    pub fn renew(&mut self, text: &[u8]) -> Result<(), TextFault>
        ensures value { GivesAs (λ _. self.new) result (squeezed_or_fault text.now) }
        ensures empty { OnErr result (self.new ≡ []) }
    {
        match squeeze_over(text, &mut self.bytes, &mut self.borders) {
            Ok(len) => {
                self.len = len;
                Ok(())
            }
            Err(fault) => {
                self.len = 0;
                self.borders = Borders::new();
                Err(fault)
            }
        }
    }

    /// The squeezed text.
    pub fn as_bytes(&self) -> &[u8]
        ensures { result.now ≡ self.now }
    {
        &self.bytes[..self.len]
    }

    /// Whether the text is in one pair of brackets.
    pub(crate) fn is_bracketed(&self) -> bool
        ensures { result ≡ is_bracketed self.now }
    {
        self.borders.are_bracketed(&self.bytes[..self.len])
    }

    /// The number of fields, if the text is in one pair of brackets.
    pub(crate) fn field_count(&self) -> usize
        requires { is_bracketed self.now ≡ true }
        ensures { result ≡ length (fields_of self.now) }
    {
        self.borders.field_count(&self.bytes[..self.len])
    }

    /// Field `i`, counted from 0, if the text is in one pair of brackets.
    pub(crate) fn field(&self, i: usize) -> &[u8]
        requires bracketed { is_bracketed self.now ≡ true }
        requires place { i < length (fields_of self.now) }
        ensures { slice_get (fields_of self.now) i ≡ Some result.now }
    {
        self.borders.field(&self.bytes[..self.len], i)
    }
}

/// Copies bytes over as many others.
#[inline(always)]
fn put_over(to: &mut [u8], bytes: &[u8])
    requires { length to.old ≡ length bytes.now }
    ensures { to.new ≡ bytes.now }
{
    let len = bytes.len();
    // Two copies of a fixed length, which may overlap, cost less than one of any length.
    if len < 8 {
        to[..len].copy_from_slice(bytes);
    } else if len < 16 {
        to[..8].copy_from_slice(&bytes[..8]);
        to[len - 8..len].copy_from_slice(&bytes[len - 8..]);
    } else if len <= 32 {
        to[..16].copy_from_slice(&bytes[..16]);
        to[len - 16..len].copy_from_slice(&bytes[len - 16..]);
    } else {
        to[..len].copy_from_slice(bytes);
    }
}

/// Copies bytes to the end of a longer slice.
#[inline(always)]
fn put_last(to: &mut [u8], bytes: &[u8])
    requires { length bytes.now ≤ length to.old }
    ensures { to.new ≡ take (length to.old - length bytes.now) to.old ++ bytes.now }
{
    let from = to.len() - bytes.len();
    put_over(&mut to[from..], bytes);
}

/// The last 32 bytes of a text, or zeros and a shorter text, and 32 zeros after them.
#[inline(always)]
fn last_bytes(text: &[u8]) -> [u8; 64]
    ensures { (k : ℕ) → length text.now ≤ k + 32
        → slice_index result (k + 32 - length text.now) ≡ slice_index text.now k }
{
    let mut last = [0; 64];
    if text.len() >= 32 {
        last[..32].copy_from_slice(&text[text.len() - 32..]);
    } else {
        put_last(&mut last[..32], text);
    }
    last
}

/// How far a pass has come in a text.
#[derive(Clone, Copy)]
struct Pass {
    /// The offset of the next byte to look at.
    place: usize,
    /// The number of bytes that are kept.
    made: usize,
    /// Whether the last of these is a border, or there is none.
    border: bool,
    /// Whether a blank was dropped after them.
    dropped: bool,
}

impl Pass {
    /// Goes on by what a look at the next bytes shows, which stand after the kept ones in `out`,
    /// with spaces for other blanks: keeps the first of them, notes their borders, and drops a
    /// blank after them. Returns `Err` with the offset of a byte that isn't accepted.
    #[inline(always)]
    fn take(
        self,
        look: Look,
        text: &[u8],
        out: &[u8],
        borders: &mut Borders,
        most: usize,
    ) -> Result<Pass, usize>
        requires pass { IsPass text.now out.now self.place self.made self.border }
        requires more { self.place < length text.now }
        requires look { IsLook look (λ k. slice_index text.now (self.place + k)) }
        requires spaced { AreSpaced out.now self.made look.len (λ k.
            slice_index text.now (self.place + k)) }
        requires noted { IsNoted (take self.made out.now) most borders.old }
        requires most { most ≤ 13 }
        requires fits { 0 < most → length text.now ≤ 65536 }
        ensures pass { IfOk result (λ next.
            IsPass text.now out.now next.place next.made next.border) }
        ensures further { IfOk result (λ next. self.place < next.place) }
        ensures noted { IfOk result (λ next. IsNoted (take next.made out.now) most borders.new) }
        ensures bad { IfErr result (λ place. squeezed_or_fault text.now ≡ Err (BadByte place)) }
    {
        let (count, border) = look.kept(self.border);
        borders.note(out, self.made, look.borders, count, most);
        let made = self.made + count;
        let mut place = self.place + count;
        let mut dropped = false;
        if count + 1 < look.len && place < text.len() {
            if !is_blank(text[place]) {
                return Err(place);
            }
            // No space is kept for this blank.
            place += 1;
            dropped = true;
        }
        Ok(Pass {
            place,
            made,
            border,
            dropped,
        })
    }

    /// Goes on by looks at 64 bytes, until one drops a blank or shows a byte that isn't accepted.
    #[inline(always)]
    fn take_long(
        self,
        text: &[u8],
        out: &mut [u8],
        borders: &mut Borders,
        most: usize,
    ) -> Result<Pass, usize>
        requires pass { IsPass text.now out.old self.place self.made self.border }
        requires noted { IsNoted (take self.made out.old) most borders.old }
        requires most { most ≤ 13 }
        requires fits { 0 < most → length text.now ≤ 65536 }
        ensures long { length out.new ≡ length out.old }
        ensures pass { IfOk result (λ next.
            IsPass text.now out.new next.place next.made next.border) }
        ensures further { IfOk result (λ next. self.place ≤ next.place) }
        ensures noted { IfOk result (λ next. IsNoted (take next.made out.new) most borders.new) }
        ensures bad { IfErr result (λ place. squeezed_or_fault text.now ≡ Err (BadByte place)) }
    {
        let mut pass = self;
        'longs: while pass.place + 64 <= text.len() {
            let first = put_spaced(text, pass.place, out, pass.made);
            let second = put_spaced(text, pass.place + 32, out, pass.made + 32);
            let Some(look) = Look::of_two(first, second) else {
                return Ok(pass);
            };
            let next = pass.take(look, text, out, borders, most)?;
            if next.dropped {
                return Ok(next);
            }
            pass = next;
        }
        Ok(pass)
    }
}

/// Squeezes a text to the beginning of `out`, which is longer by at least 64 bytes, and records its
/// borders. Returns the length of the squeezed text, or the offset of the first byte that isn't
/// accepted.
fn squeeze(text: &[u8], out: &mut [u8], borders: &mut Borders) -> Result<usize, usize>
    requires fits { length text.now + 64 ≤ length out.old }
    requires none { (most : ℕ) → IsNoted [] most borders.old }
    ensures long { length out.new ≡ length out.old }
    ensures within { IfOk result (λ kept. kept ≤ length text.now) }
    ensures empty { IfOk result (λ kept. kept ≡ 0 → squeezed_or_fault text.now ≡ Err Empty) }
    ensures some { IfOk result (λ kept. 0 < kept
        → squeezed_or_fault text.now ≡ Ok (take kept out.new)) }
    ensures borders { IfOk result (λ kept.
        IsNoted (take kept out.new) (length borders.new.places.items) borders.new) }
    ensures bad { IfErr result (λ place. squeezed_or_fault text.now ≡ Err (BadByte place)) }
{
    let most = most_recorded(text.len());
    let mut pass = Pass {
        place: 0,
        made: 0,
        border: true,
        dropped: false,
    };
    'wholes: while pass.place + 32 <= text.len() {
        let look = Look::of(put_spaced(text, pass.place, out, pass.made));
        let next = pass.take(look, text, out, borders, most)?;
        // A longer look saves work only if it drops no blank: mostly after one that drops none.
        pass = if next.dropped {
            next
        } else {
            next.take_long(text, out, borders, most)?
        };
    }
    let last = last_bytes(text);
    'rests: while pass.place < text.len() {
        let look = Look::of(put_spaced(&last, pass.place + 32 - text.len(), out, pass.made));
        pass = pass.take(look, text, out, borders, most)?;
    }
    Ok(pass.made)
}

/// The classes that a byte may have by its low half, in either half of a vector. A border has class
/// 128, a plain byte one of 8 to 64, a blank 2 or 4, and any other byte none.
const BY_LOW_HALF: [u8; 32] = [
    84, 112, 112, 112, 112, 112, 112, 120, 240, 240, 114, 40, 40, 178, 40, 56, 84, 112, 112, 112,
    112, 112, 112, 120, 240, 240, 114, 40, 40, 178, 40, 56,
];

/// The classes that it may have by its high half.
const BY_HIGH_HALF: [u8; 32] = [
    2, 0, 140, 16, 32, 64, 0, 0, 0, 0, 0, 0, 0, 0, 0, 0, 2, 0, 140, 16, 32, 64, 0, 0, 0, 0, 0, 0,
    0, 0, 0, 0,
];

/// What a look at bytes shows. Bit k is for byte k. A pass takes at most all but the last: that
/// shows what follows the others.
#[derive(Clone, Copy)]
struct Look {
    /// The number of bytes, 32 or 64.
    len: usize,
    /// The hyphens and brackets.
    borders: u64,
    /// These and the plain bytes.
    solid: u64,
    /// These and the blanks.
    accepted: u64,
}

/// The classes that each byte may have by its low half.
#[inline(always)]
fn by_low_half(v: u8x32) -> u8x32
    ensures long { length result ≡ 32 }
    ensures each { (k : ℕ) → k < 32
        → slice_index result k ≡ slice_index BY_LOW_HALF (slice_index v k % 16) }
{
    u8x32::from_array(BY_LOW_HALF).swizzle_dyn_within::<16>(v & u8x32::splat(15))
}

/// The classes that it may have by its high half.
#[inline(always)]
fn by_high_half(v: u8x32) -> u8x32
    ensures long { length result ≡ 32 }
    ensures each { (k : ℕ) → k < 32
        → slice_index result k ≡ slice_index BY_HIGH_HALF (slice_index v k / 16) }
{
    u8x32::from_array(BY_HIGH_HALF).swizzle_dyn_within::<16>(v >> u8x32::splat(4))
}

/// The class of each byte.
#[inline(always)]
fn classes(v: u8x32) -> u8x32
    ensures { HasClasses result (λ k. slice_index v k) }
{
    by_low_half(v) & by_high_half(v)
}

/// Puts spaces for the bytes below the space.
#[inline(always)]
fn spaced(v: u8x32) -> u8x32
    ensures { HasSpaces result (λ k. slice_index v k) }
{
    v.simd_max(u8x32::splat(b' '))
}

/// The lanes whose class is this one or a higher one, as bits. No class is above 128.
#[inline(always)]
fn bits_from(classes: u8x32, low: u8) -> u64
    requires classes { (k : ℕ) → k < 32 → slice_index classes k ≤ 128 }
    requires some { 1 ≤ low }
    requires low { low ≤ 128 }
    ensures bits { IsBits 32 result (λ k. nat_le low (slice_index classes k)) }
    ensures small { result < 4294967296 }
{
    let raised = classes + u8x32::splat(128 - low);
    raised.simd_ge(u8x32::splat(128)).to_bitmask()
}

/// Copies 32 bytes of a text into a buffer, with spaces for other blanks. Returns their classes.
#[inline(always)]
fn put_spaced(text: &[u8], place: usize, out: &mut [u8], made: usize) -> u8x32
    requires text { place + 32 ≤ length text.now }
    requires room { made + 32 ≤ length out.old }
    ensures long { length out.new ≡ length out.old }
    ensures front { take made out.new ≡ take made out.old }
    ensures spaced { AreSpaced out.new made 32 (λ k. slice_index text.now (place + k)) }
    ensures classes { HasClasses result (λ k. slice_index text.now (place + k)) }
{
    let lanes = u8x32::from_slice(&text[place..]);
    spaced(lanes).copy_to_slice(&mut out[made..]);
    classes(lanes)
}

/// The bits of 32 lanes and of 32 more.
#[inline(always)]
fn joined(first: u64, second: u64) -> u64
    requires first { first < 4294967296 }
    requires second { second < 4294967296 }
    ensures first { (k : ℕ) → k < 32 → bit_at result k ≡ bit_at first k }
    ensures second { (k : ℕ) → bit_at result (32 + k) ≡ bit_at second k }
{
    first | (second << 32)
}

/// Whether all bytes of two vectors of classes are accepted.
#[inline(always)]
fn are_accepted(first: u8x32, second: u8x32) -> bool
    requires first { (k : ℕ) → k < 32 → slice_index first k ≤ 128 }
    requires second { (k : ℕ) → k < 32 → slice_index second k ≤ 128 }
    ensures first { result ≡ true → (k : ℕ) → k < 32 → 2 ≤ slice_index first k }
    ensures second { result ≡ true → (k : ℕ) → k < 32 → 2 ≤ slice_index second k }
{
    bits_from(first.simd_min(second), 2) == 0xffff_ffff
}

impl Look {
    /// Looks at 32 bytes of these classes.
    #[inline(always)]
    fn of(classes: u8x32) -> Self
        requires classes { (k : ℕ) → k < 32 → slice_index classes k ≤ 128 }
        ensures len { result.len ≡ 32 }
        ensures look { (f : ℕ → ℕ) → HasClasses classes f → IsLook result f }
    {
        Look {
            len: 32,
            borders: bits_from(classes, 128),
            solid: bits_from(classes, 8),
            accepted: bits_from(classes, 2),
        }
    }

    /// Looks at 64 bytes of these classes, if all are accepted.
    #[inline(always)]
    fn of_two(first: u8x32, second: u8x32) -> Option<Self>
        requires first { (k : ℕ) → k < 32 → slice_index first k ≤ 128 }
        requires second { (k : ℕ) → k < 32 → slice_index second k ≤ 128 }
        ensures len { IfSome result (λ look. look.len ≡ 64) }
        ensures look { IfSome result (λ look. (f : ℕ → ℕ) → HasClasses first f
            → HasClasses second (λ k. f (32 + k)) → IsLook look f) }
    {
        if !are_accepted(first, second) {
            return None;
        }
        Some(Look {
            len: 64,
            borders: joined(bits_from(first, 128), bits_from(second, 128)),
            solid: joined(bits_from(first, 8), bits_from(second, 8)),
            accepted: u64::MAX,
        })
    }

    /// Counts the first bytes, but not the last of the look, that a pass keeps: borders, plain
    /// bytes, and a blank before a plain byte and not after a border. `border` says whether the
    /// byte before all is a border; the second result says so of the last that is kept, or repeats
    /// `border` if none is.
    #[inline(always)]
    fn kept(self, border: bool) -> (usize, bool)
        requires some { 0 < self.len }
        requires few { self.len ≤ 64 }
        ensures bound { result.0 < self.len }
        ensures each { (f : ℕ → ℕ) → IsLook self f → (k : ℕ) → k < result.0
            → is_kept border f k ≡ true }
        ensures stops { (f : ℕ → ℕ) → IsLook self f → result.0 + 1 < self.len
            → is_kept border f result.0 ≡ false }
        ensures last { (f : ℕ → ℕ) → IsLook self f
            → result.1 ≡ behind border (λ k. is_border (f k)) result.0 }
    {
        let behind = bits_behind(border, self.borders);
        let spaces = self.accepted & (self.solid >> 1) & !((self.borders >> 1) | behind);
        let most = (1 << (self.len - 1)) - 1;
        let count = ((self.solid | spaces) & most).trailing_ones() as usize;
        (count, bit_is_set(behind, count))
    }
}

/// Shifts bits up by one, with `first` as the lowest bit.
#[inline(always)]
fn bits_behind(first: bool, bits: u64) -> u64
    ensures first { bit_at result 0 ≡ (if first then 1 else 0) }
    ensures others { (k : ℕ) → k < 63 → bit_at result (k + 1) ≡ bit_at bits k }
{
    (bits << 1) | u64::from(first)
}

/// Whether bit `place` is set.
#[inline(always)]
fn bit_is_set(bits: u64, place: usize) -> bool
    requires { place < 64 }
    ensures { result ≡ (bit_at bits place == 1) }
{
    (bits >> place) & 1 == 1
}

/// The borders of a squeezed text, its hyphens and brackets. An accepted message has at most 13.
#[derive(Drop)]
pub(crate) struct Borders {
    /// The offsets of the first of them.
    places: ArrayVec<u16, 13>,
    /// How many there are after these.
    others: usize,
    /// How many of all are brackets.
    brackets: usize,
}

/// How many offsets of borders are recorded for a text of this length: none if they could need more
/// than 16 bits.
#[inline(always)]
pub(crate) fn most_recorded(len: usize) -> usize
    ensures most { result ≤ 13 }
    ensures fits { 0 < result → len ≤ 65536 }
{
    if len <= 65_536 { 13 } else { 0 }
}

impl Borders {
    /// No borders yet.
    #[inline(always)]
    pub(crate) fn new() -> Self
        ensures { (most : ℕ) → IsNoted [] most result }
    {
        Borders {
            places: ArrayVec::new(),
            others: 0,
            brackets: 0,
        }
    }

    /// Records the offset of the next border, or counts it if as many as may be are recorded.
    #[inline(always)]
    fn push(&mut self, place: usize, most: usize)
        requires most { most ≤ 13 }
        requires fits { length self.old.places.items < most → place < 65536 }
        requires room { self.old.others < 18446744073709551615 }
        ensures places { self.new.places.items ≡ (if nat_lt (length self.old.places.items) most
            then self.old.places.items ++ place ∷ [] else self.old.places.items) }
        ensures others { self.new.others ≡ (if nat_lt (length self.old.places.items) most
            then self.old.others else self.old.others + 1) }
        ensures brackets { self.new.brackets ≡ self.old.brackets }
    {
        if self.places.len() < most {
            self.places.push(place as u16);
        } else {
            self.others += 1;
        }
    }

    /// Records the borders among the `count` bytes at `made`. Bit k of `bits` is set if the byte at
    /// `made + k` is one.
    #[inline(always)]
    pub(crate) fn note(&mut self, text: &[u8], made: usize, bits: u64, count: usize, most: usize)
        requires inside { made + count ≤ length text.now }
        requires few { count ≤ 63 }
        requires bits { (k : ℕ) → k < count
            → (bit_at bits k == 1) ≡ is_border (slice_index text.now (made + k)) }
        requires noted { IsNoted (take made text.now) most self.old }
        requires most { most ≤ 13 }
        requires fits { 0 < most → made + count ≤ 65536 }
        ensures { IsNoted (take (made + count) text.now) most self.new }
    {
        let mut later = bits & ((1 << count) - 1);
        if later == 0 {
            return;
        }
        // The offset after the last border.
        let mut after = made;
        // The number of brackets stays in a register.
        let mut brackets = self.brackets;
        'borders: while later != 0 {
            let index = later.trailing_zeros() as usize;
            let place = made + index;
            self.push(place, most);
            brackets += usize::from(text[place] != b'-');
            later &= later - 1;
            after = place + 1;
        }
        self.brackets = brackets;
    }

    /// Whether the text is in one pair of brackets.
    fn are_bracketed(&self, text: &[u8]) -> bool
        requires { IsNoted text.now (length self.now.places.items) self.now }
        ensures { result ≡ is_bracketed text.now }
    {
        stands_in_brackets(text) && self.brackets == 2
    }

    /// The number of fields of a text in one pair of brackets.
    fn field_count(&self, text: &[u8]) -> usize
        requires noted { IsNoted text.now (length self.now.places.items) self.now }
        requires bracketed { is_bracketed text.now ≡ true }
        ensures { result ≡ length (fields_of text.now) }
    {
        self.places.len() + self.others - 1
    }

    /// Returns part `place`, counted from 0, of what these borders cut. Only a part after the
    /// recorded borders needs a scan, and no accepted message has one.
    fn part<'a>(&self, inside: &'a [u8], place: usize) -> &'a [u8]
        requires cut { AreBorders inside.now self.now.places.items }
        requires few { length (parts inside.now) ≤ length inside.now + 1 }
        requires place { place < length (parts inside.now) }
        ensures { slice_get (parts inside.now) place ≡ Some result.now }
    {
        if place + 1 < self.places.len() {
            let from = usize::from(self.places[place]);
            let border = usize::from(self.places[place + 1]);
            &inside[from..border - 1]
        } else {
            scanned_part(inside, place).unwrap_or(&[])
        }
    }

    /// Field `i`, counted from 0, of a text in one pair of brackets.
    #[tactic(auto, unfolding(crate::specs::Fields::fields_of))]
    fn field<'a>(&self, text: &'a [u8], i: usize) -> &'a [u8]
        requires noted { IsNoted text.now (length self.now.places.items) self.now }
        requires bracketed { is_bracketed text.now ≡ true }
        requires place { i < length (fields_of text.now) }
        ensures { slice_get (fields_of text.now) i ≡ Some result.now }
    {
        self.part(inside(text), i)
    }
}

/// Whether a text has an opening bracket first and a closing one last.
#[tactic(auto, unfolding(crate::specs::Fields::stands_in_brackets))]
fn stands_in_brackets(text: &[u8]) -> bool
    ensures { result ≡ stands_in_brackets text.now }
{
    matches!(text, [b'(', .., b')'])
}

/// What is between the brackets of a text.
#[tactic(auto, unfolding(crate::specs::Fields::is_bracketed, crate::specs::Fields::stands_in_brackets))]
fn inside(text: &[u8]) -> &[u8]
    requires { is_bracketed text.now ≡ true }
    ensures { result.now ≡ inside text.now }
{
    &text[1..text.len() - 1]
}

/// Finds a part by a scan from the first one on.
fn scanned_part(text: &[u8], place: usize) -> Option<&[u8]>
    ensures { option_copied result ≡ slice_get (parts text.now) place }
{
    text.split(|byte| *byte == b'-').nth(place)
}
