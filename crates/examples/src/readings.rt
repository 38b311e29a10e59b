//! Reading a filing, with fpl_message alone.
ghost use Rattle.std.specs.Prelude.{◌≡◌, ◌<◌, ◌↔◌, length, IfOk, IsErrOf};
ghost use Rattle.fpl_message.specs.declared.edition.Edition.TheVariants as Edition;
ghost use Rattle.fpl_message.specs.Reads.{reading_of};
ghost use Rattle.examples.specs.Readings.{refusal_in};

use fpl_message::{Filing, FilingFault, Reading, Refusal};
use std::alloc::Allocator;

/// Returns why these bytes are refused for their format, if they are. Needs no desk.
///
/// # Errors
///
/// `TooLong` if there are more than 2,000 bytes, or `OutOfMemory`.
pub fn refusal_of<A: Allocator + Copy>(
    alloc: A,
    bytes: &[u8],
) -> Result<Option<Refusal>, FilingFault>
    ensures refusal { IfOk result (λ r. r ≡ refusal_in (reading_of
        (record { edition = Edition.Second; bytes = bytes.now }))) }
    ensures long { IsErrOf result FilingFault.TooLong ↔ (2000 < length bytes.now) }
{
    let filing = Filing::new(alloc, bytes)?;
    match filing.reading() {
        Reading::Bad(refusal) => Ok(Some(*refusal)),
        Reading::Msg(_) | Reading::Ord(_) => Ok(None),
    }
}
