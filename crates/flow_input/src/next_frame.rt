//! The next frame of an input, for the end of which more bytes may have to be read.
ghost use Rattle.std.specs.Prelude.{◌≡◌, ◌≢◌, ◌≤◌, ◌<◌, ◌+◌, [], length};
ghost use Rattle.std.specs.Prelude.{false, true, IsTrue, OnErr, OnOk};
ghost use Rattle.std.specs.Prelude.{IfOk, IsErrOf, Err, None, Some, IfSome};
ghost use Rattle.std.specs.Io.KnownBytes.{Consumes, IsAtEnd};
ghost use Rattle.flow_input.specs.Frames.{first_cut, is_not_blank, kept_of};
ghost use Rattle.flow_input.specs.NextFrame.{Cuts, GaveFirst, Starves, filing_kept};
ghost use Rattle.flow_input.specs.Reader.{Agrees, BeginsWithStop, Came};
ghost use Rattle.flow_input.specs.Reader.{CameTooMuch, Filled, Finished, TakesIf};
ghost use Rattle.flow_input.specs.Reader.{Took, TookRun, Unfinished};
ghost use Rattle.flow_input.specs.Source.{failures_after};
ghost use Rattle.flow_input.specs.Until.{stops_at};
ghost use Rattle.flow_input.specs.declared.input.TheConstants.{MAX_INPUT};
ghost use Rattle.fpl_message.specs.declared.filing.TheConstants.{MAX_BYTES};

use crate::counted::Counted;
use crate::fault::IntakeFault;
use crate::input::{Input, Span, Until, stop_in, text_in};
use fpl_message::MAX_BYTES;
use std::alloc::Allocator;
use std::io::Read;

/// Reads more bytes if all were taken and the reader hasn't ended.
fn make_ready<R: Read, A: Allocator>(
    reader: &mut Counted<R>,
    input: &mut Input<A>,
) -> Result<(), IntakeFault>
    requires { Agrees input.old (R.remaining reader.old.device) }
    ensures filled { OnOk result (Filled input.old input.new (R.remaining reader.old.device)
        (R.remaining reader.new.device)) }
    ensures end { OnOk result (input.new.unread ≡ [] → IsTrue input.new.ended) }
    ensures agrees { OnOk result (Agrees input.new (R.remaining reader.new.device)) }
    ensures taken { input.new.taken ≡ input.old.taken }
    ensures read { IsErrOf result IntakeFault.Read → (input.new.unread ≡ [])
        × (input.old.unread ≡ [])
        × (Consumes (R.remaining reader.old.device) (R.remaining reader.new.device) []) }
    ensures much { IsErrOf result IntakeFault.TooMuch
        → CameTooMuch input.old (R.remaining reader.old.device) (R.remaining reader.new.device) }
    ensures memory { result ≢ Err IntakeFault.OutOfMemory }
    ensures failures { reader.new.failures ≡ failures_after result reader.old.failures }
{
    if !input.unread().is_empty() {
        return Ok(());
    }
    if input.has_ended() {
        return Ok(());
    }
    input.fill(reader)
}

/// Takes the unread bytes before the first that ends the run.
fn take_run<A: Allocator>(input: &mut Input<A>, until: Until)
    ensures took { TookRun (stops_at until) input.old input.new }
    ensures stop { BeginsWithStop (stops_at until) input.new.unread }
    ensures ended { input.new.ended ≡ input.old.ended }
    ensures item { input.new.item ≡ None }
    ensures within { input.new.taken ≤ MAX_INPUT }
{
    let unread = input.unread();
    let count = stop_in(unread, until).unwrap_or(unread.len());
    input.skip(count);
}

/// Takes the bytes before the first that ends the run, or to the end of the input.
fn take_until<R: Read, A: Allocator>(
    reader: &mut Counted<R>,
    input: &mut Input<A>,
    until: Until,
) -> Result<(), IntakeFault>
    requires { Agrees input.old (R.remaining reader.old.device) }
    ensures took { OnOk result
        (Took (stops_at until) input.old input.new (R.remaining reader.old.device)
        (R.remaining reader.new.device)) }
    ensures stop { OnOk result (BeginsWithStop (stops_at until) input.new.unread) }
    ensures end { OnOk result (input.new.unread ≡ [] → IsTrue input.new.ended) }
    ensures agrees { OnOk result (Agrees input.new (R.remaining reader.new.device)) }
    ensures item { OnOk result (input.new.item ≡ None) }
    ensures within { OnOk result (input.new.taken ≤ MAX_INPUT) }
    ensures read { IsErrOf result IntakeFault.Read → (input.new.unread ≡ [])
        × (Took (stops_at until) input.old input.new (R.remaining reader.old.device)
        (R.remaining reader.new.device)) }
    ensures much { IsErrOf result IntakeFault.TooMuch
        → CameTooMuch input.old (R.remaining reader.old.device) (R.remaining reader.new.device) }
    ensures memory { result ≢ Err IntakeFault.OutOfMemory }
    ensures failures { reader.new.failures ≡ failures_after result reader.old.failures }
{
    'pieces: loop {
        make_ready(reader, input)?;
        take_run(input, until);
        if !input.unread().is_empty() {
            return Ok(());
        }
        if input.has_ended() {
            return Ok(());
        }
    }
}

/// Takes the next byte if it equals `byte`.
fn take_if<A: Allocator>(input: &mut Input<A>, byte: u8)
    ensures took { TakesIf byte input.old input.new }
    ensures ended { input.new.ended ≡ input.old.ended }
    ensures item { input.old.item ≡ None → input.new.item ≡ None }
    ensures within { input.old.taken ≤ MAX_INPUT → input.new.taken ≤ MAX_INPUT }
{
    if input.unread().first().copied() != Some(byte) {
        return;
    }
    input.skip(1);
}

/// Takes the rest of a frame that begins with `byte`, and is too long to be shown.
fn finish<R: Read, A: Allocator>(
    reader: &mut Counted<R>,
    input: &mut Input<A>,
    first: u8,
) -> Result<(), IntakeFault>
    requires { Agrees input.old (R.remaining reader.old.device) }
    ensures took { OnOk result (Finished first input.old input.new (R.remaining reader.old.device)
        (R.remaining reader.new.device)) }
    ensures agrees { OnOk result (Agrees input.new (R.remaining reader.new.device)) }
    ensures item { OnOk result (input.new.item ≡ None) }
    ensures within { OnOk result (input.new.taken ≤ MAX_INPUT) }
    ensures err { OnErr result
        (Came (R.remaining reader.old.device) (R.remaining reader.new.device)) }
    ensures read { IsErrOf result IntakeFault.Read
        → Unfinished first input.old (R.remaining reader.old.device)
        (R.remaining reader.new.device) }
    ensures much { IsErrOf result IntakeFault.TooMuch
        → CameTooMuch input.old (R.remaining reader.old.device) (R.remaining reader.new.device) }
    ensures memory { result ≢ Err IntakeFault.OutOfMemory }
    ensures failures { reader.new.failures ≡ failures_after result reader.old.failures }
{
    if first == b'(' {
        take_until(reader, input, Until::Bracket)?;
        take_if(input, b')');
        return Ok(());
    }
    take_until(reader, input, Until::OrderEnd)
}

/// Takes the frame at the beginning of the unread bytes, of which more than 2,000 are there
/// already.
fn pass_long<R: Read, A: Allocator>(
    reader: &mut Counted<R>,
    input: &mut Input<A>,
) -> Result<(), IntakeFault>
    requires going { input.old.ended ≡ false }
    requires text { BeginsWithStop is_not_blank input.old.unread }
    requires goes { IfSome (first_cut input.old.unread) (λ c. c.ended ≡ false) }
    requires long { MAX_BYTES < length input.old.unread }
    ensures gave { OnOk result (GaveFirst (filing_kept input.new.item) input.old input.new
        (R.remaining reader.old.device) (R.remaining reader.new.device)) }
    ensures agrees { OnOk result (Agrees input.new (R.remaining reader.new.device)) }
    ensures within { OnOk result (input.new.taken ≤ MAX_INPUT) }
    ensures err { OnErr result
        (Came (R.remaining reader.old.device) (R.remaining reader.new.device)) }
    ensures read { IsErrOf result IntakeFault.Read
        → Starves input.old (R.remaining reader.old.device) (R.remaining reader.new.device) }
    ensures much { IsErrOf result IntakeFault.TooMuch
        → CameTooMuch input.old (R.remaining reader.old.device) (R.remaining reader.new.device) }
    ensures memory { result ≢ Err IntakeFault.OutOfMemory }
    ensures failures { reader.new.failures ≡ failures_after result reader.old.failures }
{
    let first = input.unread()[0];
    input.skip(1);
    finish(reader, input, first)
}

/// Drops the blanks before the next frame.
fn skip_blanks<A: Allocator>(input: &mut Input<A>)
    ensures took { TookRun is_not_blank input.old input.new }
    ensures stop { BeginsWithStop is_not_blank input.new.unread }
    ensures ended { input.new.ended ≡ input.old.ended }
    ensures within { input.new.taken ≤ MAX_INPUT }
{
    let unread = input.unread();
    let count = text_in(unread).unwrap_or(unread.len());
    input.skip(count);
}

/// Takes what is left at the end of the input as its last frame. Returns whether anything is.
fn take_rest<A: Allocator>(input: &mut Input<A>) -> bool
    requires ended { IsTrue input.old.ended }
    ensures some { result ≡ true → (input.new.unread ≡ [])
        × (input.new.item ≡ kept_of input.old.unread)
        × (input.new.taken ≡ input.old.taken + length input.old.unread) × (input.old.unread ≢ []) }
    ensures none { result ≡ false → (input.old.unread ≡ []) × (input.new ≡ input.old) }
    ensures ended { IsTrue input.new.ended }
    ensures within { input.old.taken ≤ MAX_INPUT → input.new.taken ≤ MAX_INPUT }
{
    let end = input.unread().len();
    if end == 0 {
        return false;
    }
    input.take(Span { begin: 0, end });
    true
}

/// Takes the next frame of the input. Returns `false` if there is none; else `Input::frame` returns
/// its bytes. Bytes that were read and don't belong to it stay unread.
///
/// # Errors
///
/// - `Read` if the reader failed.
/// - `TooMuch` if the input has more than 4,000,000,000 bytes.
pub fn take_frame<R: Read, A: Allocator>(
    reader: &mut Counted<R>,
    input: &mut Input<A>,
) -> Result<bool, IntakeFault>
    requires { Agrees input.old (R.remaining reader.old.device) }
    ensures cuts { IfOk result (λ found.
        Cuts found input.new.item input.old input.new (R.remaining reader.old.device)
        (R.remaining reader.new.device)) }
    ensures ended { IsTrue input.old.ended → IfOk result (λ found. found ≡ false) }
    ensures unchanged { IsTrue input.old.ended → (input.new ≡ input.old) × (reader.new
        ≡ reader.old) }
    ensures agrees { OnOk result (Agrees input.new (R.remaining reader.new.device)) }
    ensures nearer { IfOk result (λ found. IsTrue found → input.old.taken < input.new.taken) }
    ensures within { IfOk result (λ found. IsTrue found → input.new.taken ≤ MAX_INPUT) }
    ensures most { OnOk result (input.new.taken ≤ MAX_INPUT) }

    // What the bytes read show, and when each fault comes.
    ensures err { OnErr result
        (Came (R.remaining reader.old.device) (R.remaining reader.new.device)) }
    ensures going { OnErr result (input.old.ended ≡ false) }
    ensures read { IsErrOf result IntakeFault.Read
        → Starves input.old (R.remaining reader.old.device) (R.remaining reader.new.device) }
    ensures much { IsErrOf result IntakeFault.TooMuch
        → CameTooMuch input.old (R.remaining reader.old.device) (R.remaining reader.new.device) }
    ensures memory { result ≢ Err IntakeFault.OutOfMemory }
    ensures failures { reader.new.failures ≡ failures_after result reader.old.failures }
{
    if input.has_ended() {
        return Ok(false);
    }
    'reads: loop {
        if input.take_whole() {
            return Ok(true);
        }
        skip_blanks(input);
        if input.unread().len() > MAX_BYTES {
            pass_long(reader, input)?;
            return Ok(true);
        }
        input.fill(reader)?;
        if input.has_ended() {
            return Ok(take_rest(input));
        }
    }
}
