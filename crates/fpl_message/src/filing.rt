//! A filing: its bytes, and what they say.
ghost use Rattle.std.specs.Prelude.{◌≡◌, ◌≤◌, ◌<◌, ◌↔◌, length, IfOk, IfErr, IsErrOf};
ghost use Rattle.fpl_message.specs.Reads.{reading_of, heading_of_bytes};
ghost use Rattle.fpl_message.specs.Said.{said};
ghost use Rattle.fpl_message.specs.declared.filing.TheConstants.{MAX_BYTES};

use crate::edition::Edition;
use crate::filing_reader::{FilingReader, heading_of};
use crate::message::Reading;
use fpl_text::Heading;
use std::alloc::{AllocError, Allocator, Global};
use std::marker::Model;

/// The length limit of a filing, in bytes.
pub const MAX_BYTES: usize = 2000;

/// Why some bytes can't be filed.
#[derive(Clone, Copy, Debug, PartialEq, Eq)]
pub enum FilingFault {
    /// More than 2,000 bytes.
    TooLong,
    OutOfMemory,
}

/// A text as it was filed, with what it says. Contracts see the text: the edition and the bytes.
#[derive(Drop)]
pub struct Filing<A: Allocator + Copy = Global> {
    bytes: Vec<u8, A>,
    edition: Edition,
    reader: FilingReader<A>,
}

impl<A: Allocator + Copy> Model for Filing<A> {
    ghost use Rattle.std.specs.Prelude.{◌≡◌, ◌≤◌, length};
    ghost use Rattle.fpl_message.specs.Filings.{FilingView};

    ghost Value = { FilingView };

    ghost use Rattle.fpl_message.specs.Reads.{reading_of};
    ghost use Rattle.fpl_message.specs.declared.filing.TheConstants.{MAX_BYTES};

    ghost view = { λ f. record { edition = f.edition; bytes = f.bytes.items } };

    ghost invariant = { λ f. (length f.bytes.items ≤ MAX_BYTES)
        × (f.reader ≡ reading_of (record { edition = f.edition; bytes = f.bytes.items })) };
}

impl<A: Allocator + Copy> Filing<A> {
    /// Creates a filing of these bytes, read by the current edition.
    ///
    /// # Errors
    ///
    /// - `TooLong` if there are more than 2,000 bytes.
    /// - `OutOfMemory` if an allocation fails.
    pub fn new(alloc: A, bytes: &[u8]) -> Result<Self, FilingFault>
        ensures value { IfOk result (λ filing.
            filing ≡ record { edition = Edition.Second; bytes = bytes.now }) }
        ensures long { IsErrOf result FilingFault.TooLong ↔ (MAX_BYTES < length bytes.now) }
    {
        Filing::read_as(alloc, Edition::Second, bytes)
    }

    /// Creates a filing of these bytes, read by the rules of `edition`.
    ///
    /// # Errors
    ///
    /// - `TooLong` if there are more than 2,000 bytes.
    /// - `OutOfMemory` if an allocation fails.
    pub fn read_as(alloc: A, edition: Edition, bytes: &[u8]) -> Result<Self, FilingFault>
        ensures value { IfOk result (λ filing.
            filing ≡ record { edition = edition; bytes = bytes.now }) }
        ensures long { IsErrOf result FilingFault.TooLong ↔ (MAX_BYTES < length bytes.now) }
    {
        if bytes.len() > MAX_BYTES {
            return Err(FilingFault::TooLong);
        }
        match read_copy(alloc, edition, bytes) {
            Ok(filing) => Ok(filing),
            Err(AllocError) => Err(FilingFault::OutOfMemory),
        }
    }

    /// Returns its bytes, and the reader that has read them: for a caller that reads more texts in
    /// their memory.
    pub fn into_parts(self) -> (Vec<u8, A>, FilingReader<A>)
        ensures bytes { result.0.items ≡ self.bytes }
        ensures reader { result.1 ≡ reading_of self }
    {
        let Filing { bytes, reader, .. } = self;
        (bytes, reader)
    }

    /// Creates the filing of these bytes, which `reader` has read by the rules of `edition`.
    /// Doesn't allocate.
    pub fn of_parts(edition: Edition, bytes: Vec<u8, A>, reader: FilingReader<A>) -> Self
        requires bytes { length bytes.items ≤ MAX_BYTES }
        requires reader { reader ≡ reading_of (record { edition = edition; bytes = bytes.items }) }
        ensures { result ≡ record { edition = edition; bytes = bytes.items } }
    {
        Filing {
            bytes,
            edition,
            reader,
        }
    }

    /// Returns the bytes as they were filed, at most 2,000.
    pub fn text(&self) -> &[u8]
        ensures value { result.now ≡ self.now.bytes }
        ensures bound { length result.now ≤ MAX_BYTES }
    {
        self.bytes.as_slice()
    }

    /// Returns the edition of the rules by which they are read.
    pub fn edition(&self) -> Edition
        ensures { result ≡ self.now.edition }
    {
        self.edition
    }

    /// Returns field 3 of a message, with its number and its reference, which have no effect. It is
    /// read anew at each call, in memory of the caller. `None` if the text has no fields or its
    /// first one does not have the form; `Err` if an allocation fails.
    pub fn heading<B: Allocator + Copy>(&self, alloc: B) -> Result<Option<Heading>, AllocError>
        ensures { IfOk result (λ heading. heading ≡ heading_of_bytes self.now.bytes) }
    {
        heading_of(alloc, self.text())
    }

    /// Returns what the filing says, or its first refusal.
    pub fn reading(&self) -> &Reading<A>
        ensures { said result.now ≡ reading_of self.now }
    {
        self.reader.reading()
    }
}

/// The filing of a copy of these bytes.
fn read_copy<A: Allocator + Copy>(
    alloc: A,
    edition: Edition,
    bytes: &[u8],
) -> Result<Filing<A>, AllocError>
    requires { length bytes.now ≤ MAX_BYTES }
    ensures { IfOk result (λ filing. filing ≡ record { edition = edition; bytes = bytes.now }) }
{
    let mut copy = Vec::new(alloc);
    copy.reserve_exact(bytes.len())?;
    copy.extend_from_slice(bytes)?;
    let mut reader = FilingReader::new(alloc);
    reader.read(alloc, edition, bytes)?;
    Ok(Filing::of_parts(edition, copy, reader))
}
