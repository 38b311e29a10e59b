//! The kinds of bytes of a message (ICAO Doc 4444, appendix 3, and the characters that Annex 10
//! allows in it), of one byte and of 16 in a vector. Only this file speaks of bits of a vector.

ghost use Rattle.std.specs.Prelude.{◌≡◌, ◌≤◌, length, ◌<◌, ◌+◌, ◌-◌, ◌%◌, ◌++◌, ◌↔◌};
ghost use Rattle.std.specs.Prelude.{◌==◌, ◌&&◌, ◌||◌};
ghost use Rattle.std.specs.Prelude.{if◌then◌else◌, nat_le, not, ℕ, Bool, true, false};
ghost use Rattle.std.specs.Prelude.{slice_index, take, drop, count_by};
ghost use Rattle.std.specs.List.{list_all, prefix_len};
ghost use Rattle.fpl_text.specs.Bytes.{is_letter, is_digit, is_letter_or_digit, is_blank};
ghost use Rattle.fpl_text.specs.Bytes.{is_border, is_other_mark, is_plain, is_path_byte};
ghost use Rattle.std.specs.Int.{bit_at};
ghost use Rattle.fpl_text.specs.Lanes.{HasLanes, HasFlags};
ghost use Rattle.fpl_text.specs.Words.{may_begin};

use std::simd::prelude::*;

/// A letter, A to Z.
#[tactic(auto, unfolding(crate::specs::Bytes::is_letter))]
pub fn is_letter(byte: u8) -> bool
    ensures { result ≡ is_letter byte }
{
    byte.is_ascii_uppercase()
}

/// A digit, 0 to 9.
#[tactic(auto, unfolding(crate::specs::Bytes::is_digit))]
pub(crate) fn is_digit(byte: u8) -> bool
    ensures { result ≡ is_digit byte }
{
    byte.is_ascii_digit()
}

/// Whether each byte is a letter or a digit.
const LETTERS_AND_DIGITS: [bool; 256] = [
    false, false, false, false, false, false, false, false, false, false, false, false, false,
    false, false, false, false, false, false, false, false, false, false, false, false, false,
    false, false, false, false, false, false, false, false, false, false, false, false, false,
    false, false, false, false, false, false, false, false, false, true, true, true, true, true,
    true, true, true, true, true, false, false, false, false, false, false, false, true, true,
    true, true, true, true, true, true, true, true, true, true, true, true, true, true, true, true,
    true, true, true, true, true, true, true, true, false, false, false, false, false, false,
    false, false, false, false, false, false, false, false, false, false, false, false, false,
    false, false, false, false, false, false, false, false, false, false, false, false, false,
    false, false, false, false, false, false, false, false, false, false, false, false, false,
    false, false, false, false, false, false, false, false, false, false, false, false, false,
    false, false, false, false, false, false, false, false, false, false, false, false, false,
    false, false, false, false, false, false, false, false, false, false, false, false, false,
    false, false, false, false, false, false, false, false, false, false, false, false, false,
    false, false, false, false, false, false, false, false, false, false, false, false, false,
    false, false, false, false, false, false, false, false, false, false, false, false, false,
    false, false, false, false, false, false, false, false, false, false, false, false, false,
    false, false, false, false, false, false, false, false, false, false, false, false, false,
    false, false, false, false, false, false, false, false, false, false, false, false, false,
    false, false, false,
];

/// A letter or a digit.
pub fn is_letter_or_digit(byte: u8) -> bool
    ensures { result ≡ is_letter_or_digit byte }
{
    LETTERS_AND_DIGITS[usize::from(byte)]
}

/// A space, a carriage return or a line feed.
#[tactic(auto, unfolding(crate::specs::Bytes::is_blank))]
pub(crate) fn is_blank(byte: u8) -> bool
    ensures { result ≡ is_blank byte }
{
    matches!(byte, b' ' | b'\r' | b'\n')
}

/// A hyphen or a bracket: no space is kept beside it.
#[tactic(auto, unfolding(crate::specs::Bytes::is_border))]
pub(crate) fn is_border(byte: u8) -> bool
    ensures { result ≡ is_border byte }
{
    matches!(byte, b'-' | b'(' | b')')
}

/// An accepted mark other than a hyphen and the brackets.
#[tactic(auto, unfolding(crate::specs::Bytes::is_other_mark))]
pub(crate) fn is_other_mark(byte: u8) -> bool
    ensures { result ≡ is_other_mark byte }
{
    matches!(byte, b'/' | b'.' | b':' | b',' | b'\'' | b'?' | b'+' | b'=')
}

/// A letter, a digit or a mark that is no border.
#[tactic(auto, unfolding(crate::specs::Bytes::is_plain))]
pub(crate) fn is_plain(byte: u8) -> bool
    ensures { result ≡ is_plain byte }
{
    is_letter_or_digit(byte) || is_other_mark(byte)
}

/// Whether all bytes are digits.
pub fn all_digits(text: &[u8]) -> bool
    ensures { result ≡ list_all is_digit text.now }
{
    text.iter().all(|byte| is_digit(*byte))
}

/// Whether all bytes are letters or digits. Of 4 to 8 bytes two looks show it.
pub fn all_letters_or_digits(text: &[u8]) -> bool
    ensures { result ≡ list_all is_letter_or_digit text.now }
{
    if text.len() >= 4 {
        if text.len() <= 8 {
            return are_letters_or_digits(text);
        }
    }
    text.iter().all(|byte| is_letter_or_digit(*byte))
}

/// Whether all bytes are letters.
pub fn all_letters(text: &[u8]) -> bool
    ensures { result ≡ list_all is_letter text.now }
{
    text.iter().all(|byte| is_letter(*byte))
}

/// The number of letters with which a text begins.
pub fn leading_letters(text: &[u8]) -> usize
    ensures value { result ≡ prefix_len is_letter text.now }
    ensures bound { result ≤ length text.now }
{
    text.iter().take_while(|byte| is_letter(**byte)).count()
}

/// The number of letters and digits with which a text begins, byte by byte.
#[inline(always)]
fn few_letters_or_digits(text: &[u8]) -> usize
    ensures value { result ≡ prefix_len is_letter_or_digit text.now }
    ensures bound { result ≤ length text.now }
{
    text.iter()
        .take_while(|byte| is_letter_or_digit(**byte))
        .count()
}

/// The number of letters and digits with which a text begins. Looks at 16 bytes at a time.
pub fn leading_letters_or_digits(text: &[u8]) -> usize
    ensures value { result ≡ prefix_len is_letter_or_digit text.now }
    ensures bound { result ≤ length text.now }
{
    let mut place = 0;
    'lanes: while text.len() - place >= 16 {
        let count = letters_or_digits_at(text, place);
        place += count;
        if count < 16 {
            return place;
        }
    }
    place + few_letters_or_digits(&text[place..])
}

/// Loads the 16 bytes at `at`.
#[inline(always)]
pub(crate) fn load(text: &[u8], at: usize) -> u8x16
    requires { at + 16 ≤ length text.now }
    ensures lanes { HasLanes result (λ k. slice_index text.now (at + k)) }
    ensures chunk { result ≡ take 16 (drop at text.now) }
{
    u8x16::from_slice(&text[at..])
}

/// Flags the lanes that hold this byte.
#[inline(always)]
fn equal_to(v: u8x16, byte: u8) -> u8x16
    ensures { HasFlags result (λ k. slice_index v k == byte) }
{
    v.simd_eq(u8x16::splat(byte))
        .select(u8x16::splat(255), u8x16::splat(0))
}

/// Flags the lanes that hold this byte or a greater one.
#[inline(always)]
fn at_least(v: u8x16, low: u8) -> u8x16
    ensures { HasFlags result (λ k. nat_le low (slice_index v k)) }
{
    u8x16::splat(low)
        .simd_le(v)
        .select(u8x16::splat(255), u8x16::splat(0))
}

/// Flags the lanes that hold this byte or a lower one.
#[inline(always)]
fn at_most(v: u8x16, high: u8) -> u8x16
    ensures { HasFlags result (λ k. nat_le (slice_index v k) high) }
{
    v.simd_le(u8x16::splat(high))
        .select(u8x16::splat(255), u8x16::splat(0))
}

/// Flags the lanes that both vectors flag.
#[inline(always)]
fn both(a: u8x16, b: u8x16) -> u8x16
    ensures { (p q : ℕ → Bool) → HasFlags a p → HasFlags b q → HasFlags result (λ k. p k && q k) }
{
    a & b
}

/// Flags the lanes that one of the vectors flags.
#[inline(always)]
fn either(a: u8x16, b: u8x16) -> u8x16
    ensures { (p q : ℕ → Bool) → HasFlags a p → HasFlags b q → HasFlags result (λ k. p k || q k) }
{
    a | b
}

/// Flags the lanes that hold a byte from `low` to `high`.
#[inline(always)]
fn between(v: u8x16, low: u8, high: u8) -> u8x16
    ensures { HasFlags result (λ k. nat_le low (slice_index v k) && nat_le (slice_index v k) high) }
{
    both(at_least(v, low), at_most(v, high))
}

/// Adds to the flags the lanes that hold this byte.
#[inline(always)]
fn or_equal_to(flags: u8x16, v: u8x16, byte: u8) -> u8x16
    ensures { (p : ℕ → Bool) → HasFlags flags p
        → HasFlags result (λ k. p k || (slice_index v k == byte)) }
{
    either(flags, equal_to(v, byte))
}

/// Flags the letters.
#[inline(always)]
pub(crate) fn letter_lanes(v: u8x16) -> u8x16
    ensures { HasFlags result (λ k. is_letter (slice_index v k)) }
{
    between(v, b'A', b'Z')
}

/// Flags the letters and digits, given the flags of the letters.
#[inline(always)]
pub(crate) fn letter_or_digit_lanes(letters: u8x16, v: u8x16) -> u8x16
    requires { HasFlags letters (λ k. is_letter (slice_index v k)) }
    ensures { HasFlags result (λ k. is_letter_or_digit (slice_index v k)) }
{
    either(letters, between(v, b'0', b'9'))
}

/// Flags the bytes that a path may have.
#[inline(always)]
pub(crate) fn path_lanes(v: u8x16) -> u8x16
    ensures { HasFlags result (λ k. is_path_byte (slice_index v k)) }
{
    let letters_or_digits = letter_or_digit_lanes(letter_lanes(v), v);
    or_equal_to(or_equal_to(letters_or_digits, v, b'/'), v, b' ')
}

/// Flags the lanes that hold any other byte.
#[inline(always)]
pub(crate) fn other_lanes(v: u8x16, byte: u8) -> u8x16
    ensures { HasFlags result (λ k. not (slice_index v k == byte)) }
{
    v.simd_eq(u8x16::splat(byte))
        .select(u8x16::splat(0), u8x16::splat(255))
}

/// The number of consecutive lanes from `place` on that are flagged.
#[inline(always)]
pub(crate) fn set_lanes_from(flags: u8x16, place: usize) -> usize
    requires { place ≤ 16 }
    ensures bound { place + result ≤ 16 }
    ensures set { (p : ℕ → Bool) → HasFlags flags p → (k : ℕ) → k < result → p (place + k) ≡ true }
    ensures stops { (p : ℕ → Bool) → HasFlags flags p → place + result < 16
        → p (place + result) ≡ false }
{
    (top_bits(flags) >> place).trailing_ones() as usize
}

/// The number of bytes before the first space among the 8 bytes at `at`, or 8.
#[inline(always)]
pub(crate) fn before_space(text: &[u8], at: usize) -> usize
    requires { at + 8 ≤ length text.now }
    ensures bound { result ≤ 8 }
    ensures none { (k : ℕ) → k < result → (slice_index text.now (at + k) == 32) ≡ false }
    ensures found { result < 8 → (slice_index text.now (at + result) == 32) ≡ true }
{
    let here = u8x8::from_slice(&text[at..]);
    let spaces = here.simd_eq(u8x8::splat(b' ')).to_bitmask();
    (spaces | 256).trailing_zeros() as usize
}

/// The number of offsets from `from` on, of the 16 from `at` on, before one at which a name may
/// begin: one of three bytes, and a stroke as the third byte after it.
#[inline(always)]
pub(crate) fn before_name(text: &[u8], at: usize, from: usize, a: u8, b: u8, c: u8) -> usize
    requires before { at ≤ from }
    requires behind { from ≤ at + 16 }
    requires inside { at + 19 ≤ length text.now }
    ensures bound { from + result ≤ at + 16 }
    ensures none { (k : ℕ) → k < result → may_begin a b c text.now (from + k) ≡ false }
    ensures found { from + result < at + 16 → may_begin a b c text.now (from + result) ≡ true }
{
    let first = load(text, at);
    let two = or_equal_to(equal_to(first, a), first, b);
    let three = or_equal_to(two, first, c);
    let names = both(equal_to(load(text, at + 3), b'/'), three);
    set_lanes_from(other_lanes(names, 255), from - at)
}

/// The number of letters and digits with which the 16 bytes at `at` begin.
#[inline(always)]
pub(crate) fn letters_or_digits_at(text: &[u8], at: usize) -> usize
    requires { at + 16 ≤ length text.now }
    ensures bound { result ≤ 16 }
    ensures are { (k : ℕ) → k < result
        → is_letter_or_digit (slice_index text.now (at + k)) ≡ true }
    ensures stops { result < 16
        → is_letter_or_digit (slice_index text.now (at + result)) ≡ false }
{
    let lanes = load(text, at);
    set_lanes_from(letter_or_digit_lanes(letter_lanes(lanes), lanes), 0)
}

/// The lowest byte of each lane of an estimate: four letters, a time of four digits, and the space
/// after it.
const ESTIMATE_LOW: [u8; 16] = [65, 65, 65, 65, 48, 48, 48, 48, 32, 0, 0, 0, 0, 0, 0, 0];

/// By how much the highest byte of each is above it. The tens of the minutes are at most `5`.
const ESTIMATE_WIDTH: [u8; 16] = [
    25, 25, 25, 25, 9, 9, 5, 9, 0, 255, 255, 255, 255, 255, 255, 255,
];

/// By how much each lane is above that of `low`, modulo 256.
#[inline(always)]
fn above_lanes(v: u8x16, low: u8x16) -> u8x16
    ensures { HasLanes result (λ k. (slice_index v k + (256 - slice_index low k)) % 256) }
{
    v - low
}

/// Flags the lanes in which `low` is no more than `high`.
#[inline(always)]
fn in_order(low: u8x16, high: u8x16) -> u8x16
    ensures { HasFlags result (λ k. nat_le (slice_index low k) (slice_index high k)) }
{
    low.simd_le(high).select(u8x16::splat(255), u8x16::splat(0))
}

/// Whether the 16 bytes at `at` begin with four letters, an elapsed time and a space.
#[inline(always)]
#[tactic(auto, unfolding(crate::specs::Bytes::is_letter, crate::specs::Bytes::is_digit))]
pub(crate) fn begins_estimate(text: &[u8], at: usize) -> bool
    requires { at + 16 ≤ length text.now }
    ensures letters { result ≡ true → (k : ℕ) → k < 4
        → is_letter (slice_index text.now (at + k)) ≡ true }
    ensures digits { result ≡ true → (k : ℕ) → k < 4
        → is_digit (slice_index text.now (at + 4 + k)) ≡ true }
    ensures tens { result ≡ true → slice_index text.now (at + 6) ≤ 53 }
    ensures space { result ≡ true → slice_index text.now (at + 8) ≡ 32 }
{
    let above = above_lanes(load(text, at), u8x16::from_array(ESTIMATE_LOW));
    set_lanes_from(in_order(above, u8x16::from_array(ESTIMATE_WIDTH)), 0) >= 9
}

/// Whether four bytes are all from `low` to `high`.
#[inline(always)]
fn are_between(text: &[u8], low: u8, high: u8) -> bool
    requires four { length text.now ≡ 4 }
    requires some { low ≤ high }
    ensures { result ≡ list_all (λ b. nat_le low b && nat_le b high) text.now }
{
    let above = u8x4::from_slice(text) - u8x4::splat(low);
    above.simd_le(u8x4::splat(high - low)).to_bitmask() == 15
}

/// Whether four bytes are all letters.
#[inline(always)]
#[tactic(auto, unfolding(crate::specs::Bytes::is_letter))]
pub(crate) fn are_letters(text: &[u8]) -> bool
    requires { length text.now ≡ 4 }
    ensures { result ≡ list_all is_letter text.now }
{
    are_between(text, b'A', b'Z')
}

/// The first and the last four of 4 to 8 bytes, which together are all of them.
#[inline(always)]
fn both_ends(text: &[u8]) -> u8x8
    requires { 4 ≤ length text.now }
    ensures { result ≡ take 4 text.now ++ take 4 (drop (length text.now - 4) text.now) }
{
    let last = u8x4::from_slice(&text[text.len() - 4..]);
    u8x4::from_slice(text).shuffle(last, [0, 1, 2, 3, 4, 5, 6, 7])
}

/// Whether 4 to 8 bytes are all letters or digits.
#[inline(always)]
pub(crate) fn are_letters_or_digits(text: &[u8]) -> bool
    requires some { 4 ≤ length text.now }
    requires few { length text.now ≤ 8 }
    ensures { result ≡ list_all is_letter_or_digit text.now }
{
    let ends = both_ends(text);
    let letters = (ends - u8x8::splat(b'A')).simd_le(u8x8::splat(25));
    let digits = (ends - u8x8::splat(b'0')).simd_le(u8x8::splat(9));
    (letters | digits).to_bitmask() == 255
}

/// The number of lanes that hold this byte.
#[inline(always)]
pub(crate) fn count_in(v: u8x16, byte: u8) -> usize
    ensures value { result ≡ count_by (λ b. b == byte) v }
    ensures bound { result ≤ 16 }
{
    v.simd_eq(u8x16::splat(byte)).to_bitmask().count_ones() as usize
}

/// Collects the top bit of each lane: bit k for lane k.
#[inline(always)]
fn top_bits(v: u8x16) -> u64
    ensures bits { (k : ℕ) → (bit_at result k ≡ 1) ↔ (128 ≤ slice_index v k) }
    ensures small { result < 65536 }
{
    v.simd_ge(u8x16::splat(128)).to_bitmask()
}

/// A letter, a digit, a stroke or a space.
#[tactic(auto, unfolding(crate::specs::Bytes::is_path_byte))]
fn is_path_byte(byte: u8) -> bool
    ensures { result ≡ is_path_byte byte }
{
    is_letter_or_digit(byte) || byte == b'/' || byte == b' '
}

/// Whether all bytes are letters, digits, strokes and spaces, one by one.
fn all_of_path(text: &[u8]) -> bool
    ensures { result ≡ list_all is_path_byte text.now }
{
    text.iter().all(|byte| is_path_byte(*byte))
}

/// Whether the 16 bytes at `at` are letters, digits, strokes and spaces.
#[inline(always)]
fn is_path_at(text: &[u8], at: usize) -> bool
    requires { at + 16 ≤ length text.now }
    ensures all { result ≡ true → (k : ℕ) → at ≤ k → k < at + 16
        → is_path_byte (slice_index text.now k) ≡ true }
    ensures other { result ≡ false → list_all is_path_byte text.now ≡ false }
{
    set_lanes_from(path_lanes(load(text, at)), 0) == 16
}

/// Whether all bytes of a text are letters, digits, strokes and spaces. Looks at 16 bytes at a
/// time, of which the last 16 may overlap those before.
pub fn is_path(text: &[u8]) -> bool
    ensures { result ≡ list_all is_path_byte text.now }
{
    if text.len() < 16 {
        return all_of_path(text);
    }
    let last = text.len() - 16;
    let mut place = 0;
    'looks: while place < last {
        if !is_path_at(text, place) {
            return false;
        }
        place += 16;
    }
    is_path_at(text, last)
}
