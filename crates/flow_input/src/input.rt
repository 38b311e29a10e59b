//! The bytes of an input in one buffer, and its frames, each a slice of that buffer.
//!
//! Frames are taken from the unread bytes. If these show no end of the first frame, its bytes, at
//! most 2,000, move to the beginning of the buffer, and more are read after them. The bytes of a
//! longer frame are dropped as they come. Most frames are whole in the buffer, and are taken in one
//! step.

ghost use Rattle.std.specs.Prelude.{◌≡◌, ◌≢◌, ◌≤◌, ◌<◌, ◌+◌, [], length, drop, false, true};
ghost use Rattle.std.specs.Prelude.{IsTrue, OnOk, IfOk, IsErrOf, Err, MatchOption, None, Some};
ghost use Rattle.std.specs.Prelude.{slice_range, IfSome, List, Option, ℕ, ◌-◌, ◌++◌, OnErr};
ghost use Rattle.std.specs.Prelude.{MatchResult, IfNone};
ghost use Rattle.std.specs.Io.KnownBytes.{Consumes, IsAtEnd};
ghost use Rattle.flow_input.specs.Frames.{first_cut, kept_of, is_not_blank, cut};
ghost use Rattle.flow_input.specs.NextFrame.{GaveFirst, filing_kept};
ghost use Rattle.flow_input.specs.Reader.{Agrees, Came, CameTooMuch, Filled};
ghost use Rattle.flow_input.specs.Source.{counted_up, failures_after};
ghost use Rattle.flow_input.specs.declared.input.TheConstants.{MAX_INPUT, PIECE};
ghost use Rattle.fpl_message.specs.declared.filing.TheConstants.{MAX_BYTES};
ghost use Rattle.std.specs.List.{position};
ghost use Rattle.memchr.specs.Find.{is_byte2};
ghost use Rattle.flow_input.specs.Until.{stops_at};
ghost use Rattle.flow_input.specs.FirstFrame.{EndsAt, Shows};

use crate::counted::Counted;
use crate::fault::IntakeFault;
use fpl_message::MAX_BYTES;
use std::alloc::{AllocError, Allocator, Global};
use std::io;
use std::io::Read;
use std::marker::Model;
use std::simd::prelude::*;

/// The length limit of an input, in bytes.
pub const MAX_INPUT: u64 = 4_000_000_000;

/// The number of bytes that one read asks for.
const PIECE: usize = 65_536;

/// Moves the bytes `at..end` of a buffer to its beginning, and reads more bytes after it. Returns
/// the number of bytes read.
fn read_after<R: Read>(
    reader: &mut Counted<R>,
    buffer: &mut [u8],
    at: usize,
    end: usize,
) -> io::Result<usize>
    requires order { at ≤ end }
    requires within { end ≤ length buffer.old }
    requires fits { end - at + PIECE ≤ length buffer.old }
    ensures len { length buffer.new ≡ length buffer.old }
    ensures most { IfOk result (λ n. n ≤ PIECE) }
    ensures came { IfOk result (λ n. (came : List ℕ)
        × Consumes (R.remaining reader.old.device) (R.remaining reader.new.device) came
        × (length came ≡ n)
        × (slice_range buffer.new 0 (end - at + n) ≡ slice_range buffer.old at end ++ came)) }
    ensures end { IfOk result (λ n. n ≡ 0 → IsAtEnd (R.remaining reader.new.device)) }
    ensures err { OnErr result
        ((slice_range buffer.new 0 (end - at) ≡ slice_range buffer.old at end)
        × Consumes (R.remaining reader.old.device) (R.remaining reader.new.device) []) }
    ensures failures { MatchResult result (λ _. reader.new.failures ≡ reader.old.failures) (λ _.
        reader.new.failures ≡ counted_up reader.old.failures) }
{
    buffer.copy_within(at..end, 0);
    let kept = end - at;
    reader.read(&mut buffer[kept..kept + PIECE])
}

/// The buffer of an input: the unread bytes, after the current frame. A frame is current from the
/// call that takes it to the next one.
#[derive(Drop)]
pub struct Input<A: Allocator = Global> {
    buffer: Vec<u8, A>,
    /// The offset of the current frame, which ends at `at`.
    begin: usize,
    /// Whether the current frame has more than 2,000 bytes.
    is_long: bool,
    at: usize,
    end: usize,
    total: u64,
    ended: bool,
}

impl<A: Allocator> Model for Input<A> {
    ghost use Rattle.std.specs.Prelude.{◌≡◌, ◌≤◌, ◌-◌, ◌+◌, length, slice_range};
    ghost use Rattle.std.specs.Prelude.{false, if◌then◌else◌, None, Some};
    ghost use Rattle.flow_input.specs.Reader.{InputView};
    ghost use Rattle.flow_input.specs.declared.input.TheConstants.{MAX_INPUT, PIECE};
    ghost use Rattle.fpl_message.specs.declared.filing.TheConstants.{MAX_BYTES};

    ghost Value = { InputView };

    ghost view = { λ p. record {
      unread = slice_range p.buffer.items p.at p.end;
      taken = p.total - (p.end - p.at);
      ended = p.ended;
      item = if p.is_long then None else Some (slice_range p.buffer.items p.begin p.at);
    } };

    ghost invariant = { λ p. (p.begin ≤ p.at) × (p.at ≤ p.end) × (p.end ≤ length p.buffer.items)
        × (length p.buffer.items ≡ MAX_BYTES + PIECE) × (p.end - p.at ≤ p.total)
        × (p.total ≤ MAX_INPUT)
        × (p.is_long ≡ false → p.at - p.begin ≤ MAX_BYTES) };
}

impl<A: Allocator> Input<A> {
    /// Allocates the buffer, about 66 KiB; returns `Err` if that fails.
    pub fn new(alloc: A) -> Result<Self, AllocError>
        ensures { IfOk result (λ p.
            p ≡ record { unread = []; taken = 0; ended = false; item = Some [] }) }
    {
        let mut buffer = Vec::with_capacity(alloc, MAX_BYTES + PIECE)?;
        buffer.resize(MAX_BYTES + PIECE, 0)?;
        Ok(Input {
            buffer,
            begin: 0,
            is_long: false,
            at: 0,
            end: 0,
            total: 0,
            ended: false,
        })
    }

    /// Returns the bytes of the current frame, at most 2,000; `None` if it is too long.
    pub fn frame(&self) -> Option<&[u8]>
        ensures { MatchOption result (self.now.item ≡ None) (λ bytes.
            (self.now.item ≡ Some bytes.now)
            × (length bytes.now ≤ MAX_BYTES)) }
    {
        if self.is_long {
            return None;
        }
        Some(&self.buffer[self.begin..self.at])
    }

    /// Takes the next frame if the buffer shows its end. Returns `false`, and takes nothing, if it
    /// doesn't.
    pub fn take_whole(&mut self) -> bool
        ensures gave { result ≡ true → (rest : Option (List ℕ)) → Agrees self.old rest
            → GaveFirst (filing_kept self.new.item) self.old self.new rest rest }
        ensures agrees { (rest : Option (List ℕ)) → Agrees self.old rest → Agrees self.new rest }
        ensures nearer { result ≡ true → self.old.taken < self.new.taken }
        ensures within { self.new.taken ≤ MAX_INPUT }
        ensures none { result ≡ false → (self.new ≡ self.old)
            × IfSome (first_cut self.old.unread) (λ c. c.ended ≡ false) }
    {
        let _total = &self.total;
        let Some(span) = first_frame(self.unread()) else {
            return false;
        };
        self.take(span);
        true
    }

    /// The bytes that were read and not yet taken.
    pub(crate) fn unread(&self) -> &[u8]
        ensures { result.now ≡ self.now.unread }
    {
        &self.buffer[self.at..self.end]
    }

    /// Whether the reader has no more.
    pub(crate) fn has_ended(&self) -> bool
        ensures ended { result ≡ self.now.ended }
        ensures within { self.now.taken ≤ MAX_INPUT }
    {
        self.ended
    }

    /// Takes the unread bytes to the end of this frame, which is the current one then.
    pub(crate) fn take(&mut self, span: Span)
        requires order { span.begin ≤ span.end }
        requires within { span.end ≤ length self.old.unread }
        ensures unread { self.new.unread ≡ drop span.end self.old.unread }
        ensures taken { self.new.taken ≡ self.old.taken + span.end }
        ensures ended { self.new.ended ≡ self.old.ended }
        ensures item { self.new.item ≡ kept_of (slice_range self.old.unread span.begin span.end) }
        ensures within { self.new.taken ≤ MAX_INPUT }
    {
        self.begin = self.at + span.begin;
        self.at += span.end;
        self.is_long = span.end - span.begin > MAX_BYTES;
    }

    /// Drops the first `count` unread bytes, which are of no frame that is to be shown.
    pub(crate) fn skip(&mut self, count: usize)
        requires { count ≤ length self.old.unread }
        ensures unread { self.new.unread ≡ drop count self.old.unread }
        ensures taken { self.new.taken ≡ self.old.taken + count }
        ensures ended { self.new.ended ≡ self.old.ended }
        ensures item { self.new.item ≡ None }
        ensures within { self.new.taken ≤ MAX_INPUT }
    {
        self.at += count;
        self.is_long = true;
    }

    /// Reads more bytes after the unread ones, which move to the beginning of the buffer.
    pub(crate) fn fill<R: Read>(&mut self, reader: &mut Counted<R>) -> Result<(), IntakeFault>
        requires short { length self.old.unread ≤ MAX_BYTES }
        requires going { self.old.ended ≡ false }
        ensures filled { OnOk result (Filled self.old self.new (R.remaining reader.old.device)
            (R.remaining reader.new.device)) }
        ensures more { OnOk result (self.new.ended ≡ false
            → length self.old.unread < length self.new.unread) }
        ensures end { OnOk result (IsTrue self.new.ended → (self.new.unread ≡ self.old.unread)
            × IsAtEnd (R.remaining reader.new.device)) }
        ensures taken { self.new.taken ≡ self.old.taken }
        ensures within { OnOk result (self.new.taken + length self.new.unread ≤ MAX_INPUT) }
        ensures err { OnErr result
            (Came (R.remaining reader.old.device) (R.remaining reader.new.device)) }
        ensures read { IsErrOf result IntakeFault.Read → (self.new.unread ≡ self.old.unread)
            × (self.new.ended ≡ false)
            × (Consumes (R.remaining reader.old.device) (R.remaining reader.new.device) []) }
        ensures much { IsErrOf result IntakeFault.TooMuch
            → CameTooMuch self.old (R.remaining reader.old.device) (R.remaining reader.new.device) }
        ensures memory { result ≢ Err IntakeFault.OutOfMemory }
        ensures failures { reader.new.failures ≡ failures_after result reader.old.failures }
    {
        let kept = self.end - self.at;
        let read = read_after(reader, self.buffer.as_mut_slice(), self.at, self.end);
        self.begin = 0;
        self.at = 0;
        self.is_long = true;
        self.end = kept;
        match read {
            Err(_) => Err(IntakeFault::Read),
            Ok(0) => {
                self.ended = true;
                Ok(())
            }
            Ok(n) => {
                if n as u64 > MAX_INPUT - self.total {
                    return Err(IntakeFault::TooMuch);
                }
                self.total += n as u64;
                self.end = kept + n;
                Ok(())
            }
        }
    }
}

/// What ends a run of bytes.
#[derive(Clone, Copy)]
pub(crate) enum Until {
    /// A message ends at a bracket.
    Bracket,
    /// An order ends at a line feed or an opening bracket.
    OrderEnd,
}

/// The index of the first byte that is no blank. Few blanks precede a frame, so vector loads would
/// gain nothing.
#[inline]
pub(crate) fn text_in(bytes: &[u8]) -> Option<usize>
    ensures { result ≡ position is_not_blank bytes.now }
{
    bytes.iter().position(|byte| !(*byte == b' ' || *byte == b'\r' || *byte == b'\n'))
}

/// The index of the first byte that ends the run.
#[inline]
pub(crate) fn stop_in(bytes: &[u8], until: Until) -> Option<usize>
    ensures { result ≡ position (stops_at until) bytes.now }
{
    match until {
        Until::Bracket => first_of(b'(', b')', bytes),
        Until::OrderEnd => first_of(b'\n', b'(', bytes),
    }
}

/// The index of the first of two bytes, compared byte by byte.
#[inline]
fn first_of_few(byte: u8, other: u8, bytes: &[u8]) -> Option<usize>
    ensures { result ≡ position (is_byte2 byte other) bytes.now }
{
    bytes.iter().position(|it| *it == byte || *it == other)
}

/// The index of the first of two bytes, compared in 32-byte vectors. Frames are short, so the wider
/// vectors of the crate `memchr` gain nothing.
pub(crate) fn first_of(byte: u8, other: u8, bytes: &[u8]) -> Option<usize>
    ensures { result ≡ position (is_byte2 byte other) bytes.now }
{
    let mut at = 0;
    // The offset after the last at which 32 bytes are left.
    let end = bytes.len().saturating_sub(31);
    'looks: while at < end {
        let lanes = u8x32::from_slice(&bytes[at..]);
        let found = lanes.simd_eq(u8x32::splat(byte)) | lanes.simd_eq(u8x32::splat(other));
        let bits = found.to_bitmask();
        if bits != 0 {
            return Some(at + bits.trailing_zeros() as usize);
        }
        at += 32;
    }
    let rest = first_of_few(byte, other, &bytes[at..])?;
    Some(at + rest)
}

/// The range of the first frame in a slice.
#[derive(Clone, Copy)]
pub(crate) struct Span {
    /// The offset of its first byte, after the blanks.
    pub begin: usize,
    /// The offset after its last byte.
    pub end: usize,
}

/// The length of the frame at the beginning of a slice, if the slice shows its end.
#[inline(always)]
fn frame_len(bytes: &[u8]) -> Option<usize>
    ensures shows { IfSome result (λ len. EndsAt bytes.now len) }
    ensures none { IfNone result (IfSome (cut bytes.now) (λ c. c.ended ≡ false)) }
{
    if bytes.is_empty() {
        return None;
    }
    let behind = &bytes[1..];
    if bytes[0] != b'(' {
        return match stop_in(behind, Until::OrderEnd) {
            Some(at) => Some(at + 1),
            None => None,
        };
    }
    match stop_in(behind, Until::Bracket) {
        Some(at) if behind[at] == b')' => Some(at + 2),
        Some(at) => Some(at + 1),
        None => None,
    }
}

/// The range of the first frame, if the slice shows its end.
#[inline(always)]
pub(crate) fn first_frame(bytes: &[u8]) -> Option<Span>
    ensures shows { IfSome result (λ span. Shows bytes.now span.begin span.end) }
    ensures none { IfNone result (IfSome (first_cut bytes.now) (λ c. c.ended ≡ false)) }
{
    let begin = text_in(bytes)?;
    let len = frame_len(&bytes[begin..])?;
    Some(Span {
        begin,
        end: begin + len,
    })
}
