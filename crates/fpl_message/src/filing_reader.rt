//! The reader of filings, which parses their bytes, and reuses its memory from text to text.

ghost use Rattle.std.specs.Prelude.{◌≡◌, ◌≤◌, length, OnOk, OnErr, IfOk, ◌≢◌, Err};
ghost use Rattle.fpl_message.specs.Reads.{reading_of, bad, reading_or_refusal, message_or_refusal};
ghost use Rattle.fpl_message.specs.Reads.{begins_message, heading_of_bytes};
ghost use Rattle.fpl_message.specs.Said.{said};
ghost use Rattle.fpl_message.specs.declared.filing.TheConstants.{MAX_BYTES};
ghost use Rattle.fpl_message.specs.Refusals.{ReturnsAs, by_text};
ghost use Rattle.fpl_text.specs.Squeezing.{squeezed_or_fault};
ghost use Rattle.fpl_text.specs.Fields.{fields_of, fields_or_fault};
ghost use Rattle.fpl_text.specs.Borders.{IsMessage};

use crate::edition::Edition;
use crate::fault::{Fault, boxed, text_fault};
use crate::flight_plan::Fpl;
use crate::message::{Message, Reading};
use crate::modification::Chg;
use crate::order::{OpenReg, Order, read_order};
use crate::parts::Opening;
use crate::refusal::Refusal;
use crate::short_message::{Cnl, Dep, Dla, read_short};
use fpl_text::{Heading, Squeezed, Title};
use std::alloc::{AllocError, Allocator, Global};
use std::marker::Model;
use std::mem::replace;

/// Reads the texts of filings, each in the memory of the one before. It doesn't store them.
/// Contracts see what the last one says.
#[derive(Drop)]
pub struct FilingReader<A: Allocator + Copy = Global> {
    /// The last text, or one that was read before it.
    squeezed: Squeezed<A>,
    /// The boxes of former messages, for the next ones.
    spares: Spares<A>,
    reading: Reading<A>,
}

impl<A: Allocator + Copy> Model for FilingReader<A> {
    ghost use Rattle.fpl_message.specs.Reads.{ReadingView};
    ghost use Rattle.fpl_message.specs.Said.{said};

    ghost Value = { ReadingView };

    ghost view = { λ r. said r.reading };
}

impl<A: Allocator + Copy> FilingReader<A> {
    /// Creates a reader that has read no bytes. Doesn't allocate.
    pub fn new(alloc: A) -> Self
        ensures { result ≡ bad Refusal.Empty }
    {
        FilingReader {
            squeezed: Squeezed::new(alloc),
            spares: Spares::none(),
            reading: Reading::Bad(Refusal::Empty),
        }
    }

    /// Reads at most 2,000 bytes by the rules of `edition`, in the memory of former readings.
    /// Returns `Err` if an allocation fails; the reader has read no bytes then.
    #[tactic(auto, unfolding(crate::specs::Reads::reading_of))]
    pub fn read(&mut self, alloc: A, edition: Edition, bytes: &[u8]) -> Result<(), AllocError>
        requires { length bytes.now ≤ MAX_BYTES }
        ensures ok { OnOk result (self.new
            ≡ reading_of (record { edition = edition; bytes = bytes.now })) }
        ensures err { OnErr result (self.new ≡ bad Refusal.Empty) }
    {
        self.clear();
        match read_filed(
            alloc,
            &mut self.squeezed,
            &mut self.spares,
            &mut self.reading,
            edition,
            bytes,
        ) {
            Ok(()) => Ok(()),
            Err(Fault::Refused(refusal)) => {
                self.reading = Reading::Bad(refusal);
                Ok(())
            }
            Err(Fault::OutOfMemory) => {
                self.clear();
                Err(AllocError)
            }
        }
    }

    /// Drops what the last bytes said, and keeps its box. A reading without one isn't moved.
    #[inline(always)]
    fn clear(&mut self)
        ensures { self.new ≡ bad Refusal.Empty }
    {
        let has_box = matches!(
            self.reading,
            Reading::Msg(Message::Fpl(_) | Message::Chg(_)) | Reading::Ord(Order::OpenReg(_))
        );
        if has_box {
            self.clear_box();
        } else {
            self.reading = Reading::Bad(Refusal::Empty);
        }
    }

    /// Drops what the last bytes said, and keeps its box.
    #[inline(never)]
    fn clear_box(&mut self)
        ensures { self.new ≡ bad Refusal.Empty }
    {
        let last = replace(&mut self.reading, Reading::Bad(Refusal::Empty));
        self.spares.keep(last);
    }

    /// Returns what the last bytes say, or their first refusal.
    pub fn reading(&self) -> &Reading<A>
        ensures { said result.now ≡ self.now }
    {
        &self.reading
    }
}

/// For each kind of message or order that is boxed, the box of the last one dropped.
#[derive(Drop)]
pub struct Spares<A: Allocator + Copy = Global> {
    pub fpl: Option<Box<Fpl<A>, A>>,
    pub chg: Option<Box<Chg<A>, A>>,
    pub open: Option<Box<OpenReg, A>>,
}

impl<A: Allocator + Copy> Spares<A> {
    pub(crate) fn none() -> Self {
        Spares {
            fpl: None,
            chg: None,
            open: None,
        }
    }

    /// Takes over the box of a reading, if it has one.
    pub(crate) fn keep(&mut self, reading: Reading<A>) {
        match reading {
            Reading::Msg(Message::Fpl(plan)) => self.fpl = Some(plan),
            Reading::Msg(Message::Chg(modification)) => self.chg = Some(modification),
            Reading::Ord(Order::OpenReg(open)) => self.open = Some(open),
            Reading::Msg(_) => {}
            Reading::Ord(_) => {}
            Reading::Bad(_) => {}
        }
    }
}

/// Reads what the bytes say, and replaces another reading; returns why they are refused, if so.
/// They are squeezed over `last`; a message is stored in the spare box of its kind, if any.
fn read_filed<A: Allocator + Copy>(
    alloc: A,
    last: &mut Squeezed<A>,
    spares: &mut Spares<A>,
    reading: &mut Reading<A>,
    edition: Edition,
    bytes: &[u8],
) -> Result<(), Fault>
    requires { length bytes.now ≤ MAX_BYTES }
    ensures { ReturnsAs (λ _. said reading.new) result
        (reading_or_refusal (record { edition = edition; bytes = bytes.now })) }
{
    squeeze(last, bytes)?;
    if !begins_message(last.as_bytes()) {
        let order = read_order(alloc, &mut spares.open, edition, last.as_bytes())?;
        *reading = Reading::Ord(order);
        return Ok(());
    }
    read_message(alloc, last, spares, reading)
}

/// Squeezes bytes over the last text; returns why that isn't possible, if so.
fn squeeze<A: Allocator + Copy>(last: &mut Squeezed<A>, bytes: &[u8]) -> Result<(), Fault>
    requires { length bytes.now ≤ MAX_BYTES }
    ensures { ReturnsAs (λ _. last.new) result (by_text (squeezed_or_fault bytes.now)) }
{
    match last.renew(bytes) {
        Ok(()) => Ok(()),
        Err(fault) => Err(text_fault(fault)),
    }
}

/// The title of a squeezed text, or why it has no fields. Doesn't allocate.
fn title_of<A: Allocator + Copy>(squeezed: &Squeezed<A>) -> Result<Title, Fault>
    ensures ok { IfOk result (λ title. IsMessage squeezed.now title) }
    ensures value { ReturnsAs (λ _. fields_of squeezed.now) result
        (by_text (fields_or_fault squeezed.now)) }
    ensures memory { result ≢ Err Fault.OutOfMemory }
{
    match squeezed.title() {
        Ok(title) => Ok(title),
        Err(fault) => Err(text_fault(fault)),
    }
}

/// Field 3 of a text, if the text has fields and the first has that form.
pub(crate) fn heading_of<A: Allocator + Copy>(
    alloc: A,
    bytes: &[u8],
) -> Result<Option<Heading>, AllocError>
    requires { length bytes.now ≤ MAX_BYTES }
    ensures { IfOk result (λ heading. heading ≡ heading_of_bytes bytes.now) }
{
    let mut squeezed = Squeezed::new(alloc);
    match squeeze(&mut squeezed, bytes) {
        Ok(()) => {}
        Err(Fault::Refused(_)) => return Ok(None),
        Err(Fault::OutOfMemory) => return Err(AllocError),
    }
    let Ok(_title) = title_of(&squeezed) else {
        return Ok(None);
    };
    match Heading::read(squeezed.fields().field(0)) {
        Ok(heading) => Ok(Some(heading)),
        Err(_) => Ok(None),
    }
}

/// Whether a squeezed text begins as a message does.
#[tactic(auto, unfolding(crate::specs::Reads::begins_message))]
fn begins_message(text: &[u8]) -> bool
    ensures { result ≡ begins_message text.now }
{
    match text.first() {
        Some(byte) => *byte == b'(',
        None => false,
    }
}

/// Reads a squeezed text as a message, and replaces another reading. That of an FPL and of a CHG
/// stays in the message, and that of the spare box that it takes is left for the next text.
fn read_message<A: Allocator + Copy>(
    alloc: A,
    text: &mut Squeezed<A>,
    spares: &mut Spares<A>,
    reading: &mut Reading<A>,
) -> Result<(), Fault>
    ensures { ReturnsAs (λ _. said reading.new) result (message_or_refusal text.old) }
{
    let message = match title_of(text)? {
        Title::Fpl => Message::Fpl(Fpl::read(alloc, text, &mut spares.fpl)?),
        Title::Chg => Message::Chg(Chg::read(alloc, text, &mut spares.chg)?),
        Title::Dla => {
            let Opening { parts, time } = read_short(&text.fields())?;
            Message::Dla(Dla { parts, time })
        }
        Title::Cnl => {
            let Opening { parts, .. } = read_short(&text.fields())?;
            Message::Cnl(Cnl { parts })
        }
        Title::Dep => {
            let Opening { parts, time } = read_short(&text.fields())?;
            Message::Dep(Dep { parts, time })
        }
    };
    *reading = Reading::Msg(message);
    Ok(())
}
