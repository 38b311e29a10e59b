//! Why parsing stopped.
ghost use Rattle.std.specs.Prelude.{◌≡◌, Ok};
ghost use Rattle.fpl_message.specs.Refusals.{ReturnsAs, PlaceFits, text_fault, fault_of_field};
ghost use Rattle.fpl_message.specs.Refusals.{fault_of_item};

use crate::refusal::Refusal;
use fpl_items::ItemFault;
use fpl_text::{FieldFault, TextFault};
use std::alloc::Allocator;

/// Why parsing stopped: the text is refused, or an allocation failed.
#[derive(Clone, Copy, Debug, PartialEq, Eq)]
pub enum Fault {
    Refused(Refusal),
    OutOfMemory,
}

/// The fault of parsing for one of squeezing a text.
pub(crate) fn text_fault(fault: TextFault) -> Fault
    requires { PlaceFits fault }
    ensures { result ≡ text_fault fault }
{
    match fault {
        TextFault::Empty => Fault::Refused(Refusal::Empty),
        TextFault::BadByte(place) => Fault::Refused(Refusal::BadByte(place as u16)),
        TextFault::NoBracket => Fault::Refused(Refusal::NoBracket),
        TextFault::UnknownTitle => Fault::Refused(Refusal::UnknownTitle),
        TextFault::FieldCount => Fault::Refused(Refusal::FieldCount),
        TextFault::OutOfMemory => Fault::OutOfMemory,
    }
}

impl From<FieldFault> for Fault {
    ghost from_gives = { λ fault made. made ≡ fault_of_field fault };

    fn from(fault: FieldFault) -> Fault {
        match fault {
            FieldFault::BadField(field) => Fault::Refused(Refusal::BadField(field)),
            FieldFault::OutOfMemory => Fault::OutOfMemory,
        }
    }
}

impl From<ItemFault> for Fault {
    ghost from_gives = { λ fault made. made ≡ fault_of_item fault };

    fn from(fault: ItemFault) -> Fault {
        match fault {
            ItemFault::BadField(field) => Fault::Refused(Refusal::BadField(field)),
            ItemFault::DuplicateItem => Fault::Refused(Refusal::DuplicateItem),
            ItemFault::BadDate => Fault::Refused(Refusal::BadDate),
            ItemFault::OutOfMemory => Fault::OutOfMemory,
        }
    }
}

/// Boxes a value, or returns `Err` if the allocation fails.
pub(crate) fn boxed<A: Allocator + Copy, T: Drop>(alloc: A, value: T) -> Result<Box<T, A>, Fault>
    ensures { ReturnsAs (λ b. b.value) result (Ok value) }
{
    match Box::new(alloc, value) {
        Ok(boxed) => Ok(boxed),
        Err(_) => Err(Fault::OutOfMemory),
    }
}

/// Boxes a value, in a spare box if there is one; returns `Err` if an allocation fails.
pub(crate) fn boxed_over<A: Allocator + Copy, T: Drop>(
    alloc: A,
    spare: &mut Option<Box<T, A>>,
    value: T,
) -> Result<Box<T, A>, Fault>
    ensures { ReturnsAs (λ b. b.value) result (Ok value) }
{
    let Some(mut last) = spare.take() else {
        return boxed(alloc, value);
    };
    *last = value;
    Ok(last)
}
