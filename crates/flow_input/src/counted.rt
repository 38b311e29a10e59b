//! A reader or a writer with the number of its calls that failed.
ghost use Rattle.std.specs.Prelude.{◌≡◌, ◌+◌, ◌-◌, ◌^◌, ◌<◌, length};
ghost use Rattle.std.specs.Prelude.{MatchResult, OnOk, OnSome, IfOk};
ghost use Rattle.std.specs.Prelude.{IfSome, IfNone, OnErr, take, ◌≤◌, if◌then◌else◌, [], ◌∷◌};
ghost use Rattle.std.specs.Io.{ReadsAtMost, WritesAtMost, StartsWith};
ghost use Rattle.std.specs.Io.KnownBytes.{ReadConsumes, WriteAppends, Keeps};
ghost use Rattle.std.specs.Io.KnownBytes.{Appends, Consumes, IsAtEnd};
ghost use Rattle.std.specs.Io.BufRead.{Rests, FillKeeps, DropsConsumable};
ghost use Rattle.flow_input.specs.contracts.counted.Counted.{the_row};
ghost use types.Logic.{sem};
ghost use Rattle.flow_input.specs.Writes.{Writes};
ghost use Rattle.flow_input.specs.Source.{counted_up};

use std::io;
use std::io::{BufRead, Read, Write};

/// A device with the number of its calls that failed or, writing, took no byte.
#[derive(Drop)]
pub struct Counted<D> {
    device: D,
    failures: u64,
}

impl<D> Counted<D> {
    /// Creates a device with a count of zero.
    pub fn new(device: D) -> Self
        ensures device { result.device ≡ device }
        ensures failures { result.failures ≡ 0 }
    {
        Counted {
            device,
            failures: 0,
        }
    }

    /// Returns how many calls failed or, writing, took no byte. The count stays at its maximum,
    /// 2^64 - 1.
    pub fn failures(&self) -> u64
        ensures { result ≡ self.now.failures }
    {
        self.failures
    }

    /// Returns the device, and drops the count.
    pub fn into_device(self) -> D
        ensures { result ≡ self.device }
    {
        self.device
    }

    /// Adds 1 to the count if `failed`.
    fn count(&mut self, failed: bool)
        ensures failures { self.new.failures
            ≡ (if failed then counted_up self.old.failures else self.old.failures) }
        ensures device { self.new.device ≡ self.old.device }
    {
        if failed {
            let Counted { failures, .. } = self;
            *failures = failures.saturating_add(1);
        }
    }
}

impl<R: Read> Read for Counted<R> {
    ghost remaining = { λ c. R.remaining c.device };

    fn read(&mut self, buf: &mut [u8]) -> io::Result<usize>
        ensures bound { ReadsAtMost result buf.new }
        ensures bytes { ReadConsumes (R.remaining self.old.device) (R.remaining self.new.device)
            result buf.new }
        ensures counts { MatchResult result (λ _. self.new.failures ≡ self.old.failures) (λ _.
            self.new.failures ≡ counted_up self.old.failures) }
    {
        let read = self.device.read(buf);
        self.count(read.is_err());
        read
    }
}

/// A failed call of `ahead` that isn't counted yet: only such a call makes one.
#[derive(Drop)]
pub struct ReadFailure(());

impl<R: BufRead> Counted<R> {
    /// Returns the next bytes, as many as the device has buffered: none only at the end of the
    /// input. They stay unread until `consume` drops them. A failure is counted by `count_failure`.
    pub fn ahead(&mut self) -> Result<&[u8], ReadFailure>
        ensures front { IfSome (R.remaining self.old.device) (λ xs.
            IfOk result (λ s. StartsWith xs s.now)) }
        ensures end { IfSome (R.remaining self.old.device) (λ xs.
            IfOk result (λ s. length s.now ≡ 0 → xs ≡ [])) }
        ensures* after_borrow { sem 𝓛 (Rests (the_row R.row) self.entry (λ new.
            FillKeeps (R.remaining self.old.device) (R.remaining new.device)
            (R.consumable_len new.device) result
            × (new.failures ≡ self.old.failures))) }
    {
        match self.device.fill_buf() {
            Ok(bytes) => Ok(bytes),
            Err(_) => Err(ReadFailure(())),
        }
    }

    /// Drops the first `amount` of the bytes that `ahead` returned.
    pub fn consume(&mut self, amount: usize)
        ensures bytes { DropsConsumable (R.remaining self.old.device) (R.remaining self.new.device)
            (R.consumable_len self.old.device) amount }
        ensures failures { self.new.failures ≡ self.old.failures }
    {
        self.device.consume(amount);
    }

    /// Counts a failed call of `ahead`.
    pub fn count_failure(&mut self, _failure: ReadFailure)
        ensures failures { self.new.failures ≡ counted_up self.old.failures }
        ensures device { self.new.device ≡ self.old.device }
    {
        self.count(true);
    }
}

impl<W: Write> Write for Counted<W> {
    ghost contents = { λ c. W.contents c.device };

    fn write(&mut self, buf: &[u8]) -> io::Result<usize>
        ensures bound { WritesAtMost result buf.now }
        ensures bytes { WriteAppends (W.contents self.old.device) (W.contents self.new.device)
            result buf.now }
        ensures no_failure { IfOk result (λ n. 0 < n → self.new.failures ≡ self.old.failures) }
        ensures empty { length buf.now ≡ 0 → OnOk result (self.new.failures ≡ self.old.failures) }
        ensures counts { MatchResult result (λ n. n ≡ 0 → 0 < length buf.now
            → self.new.failures ≡ counted_up self.old.failures) (λ _.
            self.new.failures ≡ counted_up self.old.failures) }
    {
        let written = self.device.write(buf);
        let failed = match &written {
            Ok(n) => *n == 0 && !buf.is_empty(),
            Err(_) => true,
        };
        self.count(failed);
        written
    }

    fn flush(&mut self) -> io::Result<()>
        ensures bytes { Keeps (W.contents self.old.device) (W.contents self.new.device) }
        ensures counts { MatchResult result (λ _. self.new.failures ≡ self.old.failures) (λ _.
            self.new.failures ≡ counted_up self.old.failures) }
    {
        let flushed = self.device.flush();
        self.count(flushed.is_err());
        flushed
    }
}

/// The writer failed, or took no byte.
#[derive(Clone, Copy, Debug, PartialEq, Eq)]
pub struct WriteFault;

/// Writes some of the bytes, at least one, and returns their number.
fn write_some<W: Write>(writer: &mut Counted<W>, bytes: &[u8]) -> Option<usize>
    requires { 0 < length bytes.now }
    ensures some { IfSome result (λ n. (0 < n) × (n ≤ length bytes.now)) }
    ensures written { IfSome result (λ n.
        Appends (W.contents writer.old.device) (W.contents writer.new.device) (take n bytes.now)) }
    ensures no_failure { OnSome result (writer.new.failures ≡ writer.old.failures) }
    ensures none { IfNone result
        (Keeps (W.contents writer.old.device) (W.contents writer.new.device)) }
    ensures failed { IfNone result (writer.new.failures ≡ counted_up writer.old.failures) }
{
    match writer.write(bytes) {
        Ok(n) if n > 0 => Some(n),
        Ok(_) => None,
        Err(_) => None,
    }
}

/// Writes all the bytes. After an `Err` a prefix of them was written.
pub fn write_bytes<W: Write>(writer: &mut Counted<W>, bytes: &[u8]) -> Result<(), WriteFault>
    ensures { Writes W.contents result writer.old writer.new bytes.now }
{
    let mut written = 0;
    'turns: while written < bytes.len() {
        let Some(n) = write_some(writer, &bytes[written..]) else {
            return Err(WriteFault);
        };
        written += n;
    }
    Ok(())
}
