//! A block of frames that wait to be filed.
ghost use Rattle.std.specs.Prelude.{◌≡◌, ◌≤◌, ◌<◌, ◌++◌, ◌∷◌, [], length, drop, take};
ghost use Rattle.std.specs.Prelude.{MatchOption, IfOk, OnOk, OnErr, IsTrue, IsFalse, option_copied};
ghost use Rattle.flow_input.specs.NextFrame.{second};
ghost use Rattle.fpl_message.specs.declared.filing.TheConstants.{MAX_BYTES};

use fpl_message::MAX_BYTES;
use std::alloc::{AllocError, Allocator, Global};
use std::marker::Model;

/// The most bytes of a block. The C library gives a buffer of this length pages of its own, which
/// go back to the system when it is freed.
const BLOCK: usize = 131_072;

/// A part of a queue of frames of at most 2,000 bytes, one after the other in one buffer. Contracts
/// see the filings of the frames in it, by the current edition.
#[derive(Drop)]
pub struct FrameBlock<A: Allocator + Copy = Global> {
    /// The frames, after those that were removed.
    bytes: Vec<u8, A>,
    /// Their lengths.
    lens: Vec<u16, A>,
    /// The number of frames removed.
    removed: usize,
    /// The offset of the first frame.
    from: usize,
}

impl<A: Allocator + Copy> Model for FrameBlock<A> {
    ghost use Rattle.std.specs.Prelude.{List, drop};
    ghost use Rattle.flow_input.specs.Queues.{queued, IsQueue};
    ghost use Rattle.fpl_message.specs.Filings.{FilingView};

    ghost Value = { List FilingView };

    ghost view = { λ q. queued (drop q.removed q.lens.items) (drop q.from q.bytes.items) };

    ghost invariant = { λ q. IsQueue q.lens.items q.bytes.items q.removed q.from };
}

impl<A: Allocator + Copy> FrameBlock<A> {
    /// An empty block. Doesn't allocate.
    pub fn new(alloc: A) -> Self
        ensures { result ≡ [] }
    {
        FrameBlock {
            bytes: Vec::new(alloc),
            lens: Vec::new(alloc),
            removed: 0,
            from: 0,
        }
    }

    /// An empty block with the capacity of a full one.
    pub fn with_capacity(alloc: A) -> Result<Self, AllocError>
        ensures { IfOk result (λ b. b ≡ []) }
    {
        Ok(FrameBlock {
            bytes: Vec::with_capacity(alloc, BLOCK)?,
            lens: Vec::new(alloc),
            removed: 0,
            from: 0,
        })
    }

    /// The number of frames in the block.
    fn len(&self) -> usize
        ensures { result ≡ length self.now }
    {
        self.lens.len() - self.removed
    }

    /// Whether no frame is in the block.
    pub fn is_empty(&self) -> bool
        ensures none { IsTrue result → self.now ≡ [] }
        ensures some { IsFalse result → 0 < length self.now }
    {
        self.len() == 0
    }

    /// Whether one more frame of this length lies in the same block.
    pub fn has_room(&self, len: usize) -> bool
        ensures { IsFalse result → 0 < length self.now }
    {
        self.is_empty() || self.bytes.len().saturating_add(len) <= BLOCK
    }

    /// Appends a frame. The memory of an empty block is used again from its beginning. After an
    /// `Err` all is unchanged.
    pub fn push(&mut self, frame: &[u8]) -> Result<(), AllocError>
        requires { length frame.now ≤ MAX_BYTES }
        ensures ok { OnOk result (self.new ≡ self.old ++ second frame.now ∷ []) }
        ensures err { OnErr result (self.new ≡ self.old) }
    {
        if self.is_empty() {
            self.clear();
        }
        self.lens.reserve(1)?;
        self.bytes.extend_from_slice(frame)?;
        self.lens.push_reserved(frame.len() as u16);
        Ok(())
    }

    /// The first frame of the block, if there is one.
    pub fn first(&self) -> Option<&[u8]>
        ensures { MatchOption (option_copied result) (self.now ≡ []) (λ frame.
            (take 1 self.now ≡ second frame ∷ []) × (length frame ≤ MAX_BYTES)) }
    {
        if self.is_empty() {
            return None;
        }
        let len = self.lens[self.removed] as usize;
        Some(&self.bytes[self.from..self.from + len])
    }

    /// Removes the first frame of the block.
    pub fn remove_first(&mut self)
        requires { 0 < length self.old }
        ensures { self.new ≡ drop 1 self.old }
    {
        self.from += self.lens[self.removed] as usize;
        self.removed += 1;
    }

    /// Removes all frames. Keeps their memory.
    fn clear(&mut self)
        ensures { self.new ≡ [] }
    {
        self.bytes.clear();
        self.lens.clear();
        self.removed = 0;
        self.from = 0;
    }
}
