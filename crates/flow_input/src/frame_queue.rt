//! Frames that wait to be filed.
ghost use Rattle.std.specs.Prelude.{◌≡◌, ◌≤◌, ◌<◌, ◌++◌, ◌∷◌, [], length, drop, take};
ghost use Rattle.std.specs.Prelude.{MatchOption, OnOk, OnErr, IsTrue, IsFalse, option_copied};
ghost use Rattle.std.specs.List.{All};
ghost use Rattle.flow_input.specs.NextFrame.{second};
ghost use Rattle.flow_input.specs.Queues.{joined};
ghost use Rattle.fpl_message.specs.declared.filing.TheConstants.{MAX_BYTES};

use crate::frame_block::FrameBlock;
use std::alloc::{AllocError, Allocator, Global};
use std::collections::VecDeque;
use std::marker::Model;
use std::mem::replace;

/// A queue of frames of at most 2,000 bytes, in blocks of up to 128 KiB: the memory of a block is
/// freed with its last frame, but for that of the last block. Contracts see the filings of the
/// frames, by the current edition.
#[derive(Drop)]
pub struct FrameQueue<A: Allocator + Copy = Global> {
    alloc: A,
    /// The blocks before the last one. None is empty.
    full: VecDeque<FrameBlock<A>, A>,
    last: FrameBlock<A>,
    len: usize,
}

impl<A: Allocator + Copy> Model for FrameQueue<A> {
    ghost use Rattle.std.specs.Prelude.{List, ◌≡◌, ◌<◌, length};
    ghost use Rattle.std.specs.List.{All};
    ghost use Rattle.flow_input.specs.Queues.{joined};
    ghost use Rattle.fpl_message.specs.Filings.{FilingView};

    ghost Value = { List FilingView };

    ghost view = { λ q. joined q.full.items q.last };

    ghost invariant = { λ q. All (λ b. 0 < length b) q.full.items
        × (q.len ≡ length (joined q.full.items q.last)) };
}

impl<A: Allocator + Copy> FrameQueue<A> {
    /// The empty queue. Doesn't allocate.
    pub fn new(alloc: A) -> Self
        ensures { result ≡ [] }
    {
        FrameQueue {
            alloc,
            full: VecDeque::new(alloc),
            last: FrameBlock::new(alloc),
            len: 0,
        }
    }

    /// The number of frames in the queue.
    pub fn len(&self) -> usize
        ensures { result ≡ length self.now }
    {
        self.len
    }

    /// Whether no frame is in the queue.
    pub fn is_empty(&self) -> bool
        ensures none { IsTrue result → self.now ≡ [] }
        ensures some { IsFalse result → 0 < length self.now }
    {
        self.len == 0
    }

    /// Appends a frame. The memory of an empty queue is used again from its beginning. After an
    /// `Err` all is unchanged.
    pub fn push(&mut self, frame: &[u8]) -> Result<(), AllocError>
        requires { length frame.now ≤ MAX_BYTES }
        ensures ok { OnOk result (self.new ≡ self.old ++ second frame.now ∷ []) }
        ensures err { OnErr result (self.new ≡ self.old) }
    {
        let Some(len) = self.len.checked_add(1) else {
            return Err(AllocError);
        };
        if !self.last.has_room(frame.len()) {
            begin_block(self.alloc, &mut self.full, &mut self.last)?;
        }
        self.last.push(frame)?;
        self.len = len;
        Ok(())
    }

    /// The first frame of the queue, if there is one.
    pub fn first(&self) -> Option<&[u8]>
        ensures { MatchOption (option_copied result) (self.now ≡ []) (λ frame.
            (take 1 self.now ≡ second frame ∷ []) × (length frame ≤ MAX_BYTES)) }
    {
        match self.full.front() {
            Some(block) => block.first(),
            None => self.last.first(),
        }
    }

    /// Removes the first frame of the queue.
    pub fn remove_first(&mut self)
        requires { 0 < length self.old }
        ensures { self.new ≡ drop 1 self.old }
    {
        if !remove_of(&mut self.full) {
            self.last.remove_first();
        }
        self.len -= 1;
    }
}

/// Begins a new block after the last one, which isn't empty. After an `Err` all is unchanged.
fn begin_block<A: Allocator + Copy>(
    alloc: A,
    full: &mut VecDeque<FrameBlock<A>, A>,
    last: &mut FrameBlock<A>,
) -> Result<(), AllocError>
    requires { 0 < length last.old }
    ensures same { joined full.new.items last.new ≡ joined full.old.items last.old }
    ensures some { All (λ b. 0 < length b) full.old.items
        → All (λ b. 0 < length b) full.new.items }
{
    full.reserve(1)?;
    let next = FrameBlock::with_capacity(alloc)?;
    full.push_back_reserved(replace(last, next));
    Ok(())
}

/// Removes the first frame of full blocks, and the first block if it is empty then. Returns `false`
/// if there is no block.
fn remove_of<A: Allocator + Copy>(full: &mut VecDeque<FrameBlock<A>, A>) -> bool
    requires { All (λ b. 0 < length b) full.old.items }
    ensures some { All (λ b. 0 < length b) full.new.items }
    ensures removed { (last : _) → IsTrue result
        → joined full.new.items last ≡ drop 1 (joined full.old.items last) }
    ensures none { IsFalse result → (full.new.items ≡ []) × (full.old.items ≡ []) }
{
    let Some(block) = full.front_mut() else {
        return false;
    };
    block.remove_first();
    if block.is_empty() {
        let _freed = full.pop_front();
    }
    true
}
