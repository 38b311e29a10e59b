//! The frames of an input, as filings.
ghost use Rattle.std.specs.Prelude.{◌≡◌, ◌≢◌, ◌≤◌, ◌<◌, ◌+◌, Some};
ghost use Rattle.std.specs.Prelude.{None, false, length, IfErr, IfOk};
ghost use Rattle.std.specs.Prelude.{IfNone, IfSome, IsOkAnd, OnErr, OnOk};
ghost use Rattle.std.specs.Prelude.{IsErrOf, Err, IsTrue, IsNone, ◌-◌};
ghost use Rattle.flow_input.specs.InTurn.{EndsWithin, GivesNext};
ghost use Rattle.flow_input.specs.NextFrame.{Cuts, GivesFrame, Misses, Starves};
ghost use Rattle.flow_input.specs.NextFrame.{filing_in, filing_kept};
ghost use Rattle.flow_input.specs.Source.{CutsFirst, KeepsTotal, MissesFirst, failures_after};
ghost use Rattle.flow_input.specs.Reader.{Agrees, Came, CameTooMuch, Finished, Unfinished};
ghost use Rattle.flow_input.specs.declared.input.TheConstants.{MAX_INPUT};

use crate::counted::Counted;
use crate::fault::IntakeFault;
use crate::input::Input;
use crate::next_frame::take_frame;
use fpl_message::{Filing, FilingFault};
use std::alloc::{AllocError, Allocator, Global};
use std::io::Read;
use std::marker::Model;

/// A frame of the input: a filing, or one that is too long.
#[derive(Drop)]
pub enum Frame<A: Allocator + Copy = Global> {
    Whole(Filing<A>),
    /// It has more than 2,000 bytes.
    TooLong,
}

/// The current frame as a filing.
fn frame_of<A: Allocator + Copy>(alloc: A, input: &Input<A>) -> Result<Frame<A>, IntakeFault>
    ensures ok { IfOk result (λ frame. filing_in frame ≡ filing_kept input.now.item) }
    ensures err { IfErr result (λ e. e ≡ IntakeFault.OutOfMemory) }
    ensures whole { OnErr result (input.now.item ≢ None) }
{
    let Some(bytes) = input.frame() else {
        return Ok(Frame::TooLong);
    };
    match Filing::new(alloc, bytes) {
        Ok(filing) => Ok(Frame::Whole(filing)),
        Err(FilingFault::OutOfMemory) => Err(IntakeFault::OutOfMemory),
        Err(FilingFault::TooLong) => unreachable!(),
    }
}

/// Takes the next frame of the input. Bytes stay in `input` from one call to the next.
fn next_frame<R: Read, A: Allocator + Copy>(
    alloc: A,
    reader: &mut Counted<R>,
    input: &mut Input<A>,
) -> Result<Option<Frame<A>>, IntakeFault>
    requires { Agrees input.old (R.remaining reader.old.device) }
    ensures gives { IfOk result (λ frame.
        GivesFrame frame input.old input.new (R.remaining reader.old.device)
        (R.remaining reader.new.device)) }
    ensures ended { IsTrue input.old.ended → IfOk result (λ frame. IsNone frame) }
    ensures unchanged { IsTrue input.old.ended → (input.new ≡ input.old) × (reader.new
        ≡ reader.old) }
    ensures agrees { OnOk result (Agrees input.new (R.remaining reader.new.device)) }
    ensures most { OnOk result (input.new.taken ≤ MAX_INPUT) }

    // When each fault comes.
    ensures going { OnErr result (input.old.ended ≡ false) }
    ensures much { IsErrOf result IntakeFault.TooMuch
        → CameTooMuch input.old (R.remaining reader.old.device) (R.remaining reader.new.device) }
    ensures failures { reader.new.failures ≡ failures_after result reader.old.failures }
    ensures memory { IsErrOf result IntakeFault.OutOfMemory
        → Misses input.old input.new (R.remaining reader.old.device) (R.remaining reader.new.device)
        × Agrees input.new (R.remaining reader.new.device) }
    ensures room { IsErrOf result IntakeFault.OutOfMemory → input.new.taken ≤ MAX_INPUT }
{
    if !take_frame(reader, input)? {
        return Ok(None);
    }
    Ok(Some(frame_of(alloc, input)?))
}

/// The frames of an input, one after the other.
#[derive(Drop)]
pub struct Intake<R: Read, A: Allocator + Copy = Global> {
    alloc: A,
    reader: Counted<R>,
    input: Input<A>,
    failed: bool,
}

impl<R: Read, A: Allocator + Copy> Model for Intake<R, A> {
    ghost use Rattle.std.specs.Prelude.{◌≡◌, false};
    ghost use Rattle.std.specs.Io.KnownBytes.{prepend_known};
    ghost use Rattle.flow_input.specs.Reader.{Agrees};
    ghost use Rattle.flow_input.specs.Source.{IntakeView};

    ghost Value = { IntakeView };

    ghost view = { λ a. record {
      left = prepend_known a.input.unread (R.remaining a.reader.device);
      taken = a.input.taken;
      failures = a.reader.failures;
      ended = a.input.ended;
      failed = a.failed;
    } };

    ghost invariant = { λ a. a.failed ≡ false → Agrees a.input (R.remaining a.reader.device) };
}

impl<R: Read, A: Allocator + Copy> Intake<R, A> {
    /// Creates the frames of this reader's input. Allocates the buffer; returns `Err` if that
    /// fails.
    pub fn new(alloc: A, reader: Counted<R>) -> Result<Self, AllocError>
    where
        R: Drop,
        ensures { IfOk result (λ intake.
            intake ≡ record {
              left = R.remaining reader.device;
              taken = 0;
              failures = reader.failures;
              ended = false;
              failed = false;
            }) }
    {
        let input = Input::new(alloc)?;
        Ok(Intake {
            alloc,
            reader,
            input,
            failed: false,
        })
    }

    /// Returns how many calls of the reader failed.
    pub fn failures(&self) -> u64
        ensures { result ≡ self.now.failures }
    {
        self.reader.failures()
    }

    /// Returns the next frame; `None` at the end of the input, however often it is called.
    ///
    /// # Errors
    ///
    /// - `Read` if the reader failed, or a call before failed: nothing is read after a fault.
    /// - `TooMuch` if the input has more than 4,000,000,000 bytes.
    /// - `OutOfMemory` if an allocation failed.
    pub fn next(&mut self) -> Result<Option<Frame<A>>, IntakeFault>
        ensures cuts { IfOk result (λ frame. CutsFirst frame self.old.left self.new.left) }
        ensures frames { IfOk result (λ frame. GivesNext frame self.old.left self.new.left) }
        ensures taken { OnOk result (KeepsTotal self.old self.new) }
        ensures none { IfOk result (λ frame. IfNone frame (IsTrue self.new.ended)) }
        ensures ended { IsTrue self.old.ended → self.old.failed ≡ false
            → IsOkAnd result (λ frame. IsNone frame)
            × (self.new ≡ self.old) }

        // A fault is final: each later call returns `Read`.
        ensures ok { OnOk result (self.new.failed ≡ false) }
        ensures err { OnErr result (IsTrue self.new.failed) }
        ensures failed { IsTrue self.old.failed
            → IsErrOf result IntakeFault.Read × (self.new ≡ self.old) }

        // When the first fault comes.
        ensures failures { self.old.failed ≡ false
            → self.new.failures ≡ failures_after result self.old.failures }
        ensures much { IsErrOf result IntakeFault.TooMuch
            → IfSome self.old.left (λ bytes. MAX_INPUT < self.old.taken + length bytes) }
        ensures memory { IsErrOf result IntakeFault.OutOfMemory
            → MissesFirst self.old.left self.new.left × KeepsTotal self.old self.new
            × (self.new.taken ≤ MAX_INPUT) }

        // No call returns the end of an input of more than 4,000,000,000 bytes.
        ensures most { OnOk result (self.new.taken ≤ MAX_INPUT) }
        ensures end { IfOk result (λ frame. EndsWithin frame self.old.taken self.old.left) }
    {
        if self.failed {
            return Err(IntakeFault::Read);
        }
        let result = next_frame(self.alloc, &mut self.reader, &mut self.input);
        self.failed = result.is_err();
        result
    }
}
