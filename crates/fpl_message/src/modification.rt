//! The modification message, CHG.
ghost use Rattle.std.specs.Prelude.{◌≡◌, ◌≢◌, ◌≤◌, ◌<◌, length, option_copied, IfSome};
ghost use Rattle.std.specs.Prelude.{Err, IfOk, OnErr, IsOk};
ghost use Rattle.std.specs.Option.{ForSome};
ghost use Rattle.fpl_items.specs.Other18.{TellsOfAny, AreEstimatesOfAny, HasEstimateOfAny};
ghost use Rattle.fpl_message.specs.Refusals.{ReturnsAs, RunsOutOnlyIf};
ghost use Rattle.fpl_message.specs.Modifications.{chg_of};
ghost use Rattle.fpl_text.specs.Fields.{fields_of};
ghost use Rattle.fpl_text.specs.Borders.{IsMessage};
ghost use Rattle.fpl_message.specs.KeptChanges.{text_at, items_at};
ghost use Rattle.fpl_text.specs.declared.time.TheConstants.{ELAPSED_LIMIT};

use crate::changes::{Changes, amended_at};
use crate::fault::{Fault, boxed};
use crate::parts::Parts;
use fpl_items::{Effects, Estimates};
use fpl_text::{Departure, Destination, Fields, FieldsRef, Rules, Squeezed, Title};
use std::alloc::{AllocError, Allocator, Global};
use std::marker::Model;
use std::mem::replace;

/// A modification: the plan that it is about, and the amended fields, each at most once. A field
/// that it does not amend is `None`.
#[derive(Drop)]
pub struct Chg<A: Allocator + Copy = Global> {
    fields: Fields<A>,
    changes: Changes,
}

impl<A: Allocator + Copy> Model for Chg<A> {
    ghost use Rattle.std.specs.Prelude.{length};
    ghost use Rattle.fpl_message.specs.Messages.{ChgView};
    ghost use Rattle.fpl_message.specs.KeptChanges.{kept, StandAmong};

    ghost Value = { ChgView };

    ghost view = { λ m. kept m.fields m.changes };

    ghost invariant = { λ m. StandAmong m.fields m.changes };
}

impl<A: Allocator + Copy> Chg<A> {
    /// Reads the fields of a CHG, from the left. The text stays in the message; that of the spare
    /// box is left in its place, or the empty one. Allocates only for a modification that is
    /// accepted, if there is no spare box.
    pub(crate) fn read(
        alloc: A,
        text: &mut Squeezed<A>,
        spare: &mut Option<Box<Chg<A>, A>>,
    ) -> Result<Box<Chg<A>, A>, Fault>
        requires { IsMessage text.old Title.Chg }
        ensures value { ReturnsAs (λ b. b.value) result (chg_of (fields_of text.old)) }
        ensures memory { RunsOutOnlyIf result (IsOk (chg_of (fields_of text.old))) }
    {
        let Some(mut last) = spare.take() else {
            return Chg::first(alloc, text);
        };
        match last.renew(text) {
            Ok(()) => Ok(last),
            Err(fault) => {
                *spare = Some(last);
                Err(fault)
            }
        }
    }

    /// Reads the fields of a CHG for which there is no spare box.
    #[cold]
    #[inline(never)]
    fn first(alloc: A, text: &mut Squeezed<A>) -> Result<Box<Chg<A>, A>, Fault>
        requires { IsMessage text.old Title.Chg }
        ensures value { ReturnsAs (λ b. b.value) result (chg_of (fields_of text.old)) }
        ensures memory { RunsOutOnlyIf result (IsOk (chg_of (fields_of text.old))) }
    {
        let text = replace(text, Squeezed::new(alloc));
        let fields = Fields::new(text, Title::Chg);
        let mut changes = Changes::none();
        changes.read(&fields.by_ref())?;
        boxed(alloc, Chg { fields, changes })
    }

    /// Reads another text into this message, and leaves its own in place of it.
    fn renew(&mut self, text: &mut Squeezed<A>) -> Result<(), Fault>
        requires { IsMessage text.old Title.Chg }
        ensures value { ReturnsAs (λ _. self.new) result (chg_of (fields_of text.old)) }
        ensures memory { result ≢ Err Fault.OutOfMemory }
    {
        self.fields.exchange(text, Title::Chg);
        self.changes.read(&self.fields.by_ref())
    }

    /// Returns what identifies the plan.
    pub fn parts(&self) -> &Parts
        ensures { result.now ≡ self.now.parts }
    {
        &self.changes.parts
    }

    /// Returns the flight rules and the type of flight of an amended field 8.
    pub fn rules(&self) -> Option<&Rules>
        ensures { option_copied result ≡ self.now.rules }
    {
        self.changes.rules.as_ref()
    }

    /// Returns an amended field 13.
    pub fn departure(&self) -> Option<&Departure>
        ensures { option_copied result ≡ self.now.departure }
    {
        self.changes.departure.as_ref()
    }

    /// Returns an amended field 16, of which an elapsed time is at most 5,999 minutes.
    pub fn destination(&self) -> Option<&Destination>
        ensures value { option_copied result ≡ self.now.destination }
        ensures bound { IfSome result (λ amended.
            IfSome amended.now.elapsed (λ minutes. minutes < ELAPSED_LIMIT)) }
    {
        self.changes.destination.as_ref()
    }

    /// Returns what an amended field 18 says.
    pub fn other(&self) -> Option<&Effects>
        ensures value { TellsOfAny self.now.items (option_copied result) }
        ensures items { self.now.items ≡ items_at self.now.field18 }
    {
        self.changes.other.as_ref()
    }

    /// Reads the estimates of the EET items of an amended field 18. Returns `Err` if allocation
    /// fails, which it doesn't without estimates.
    pub fn estimates<B: Allocator + Copy>(
        &self,
        alloc: B,
    ) -> Result<Option<Estimates<B>>, AllocError>
        ensures value { IfOk result (AreEstimatesOfAny self.now.items) }
        ensures memory { OnErr result (HasEstimateOfAny self.now.items) }
        ensures items { self.now.items ≡ items_at self.now.field18 }
    {
        let Some(effects) = &self.changes.other else {
            return Ok(None);
        };
        let Some(place) = self.changes.field18 else {
            return Ok(None);
        };
        let field = amended_at(&self.fields.by_ref(), place);
        Ok(Some(effects.estimates(alloc, field)?))
    }

    /// Returns the squeezed text of an amended field 8.
    pub fn field8(&self) -> Option<&[u8]>
        ensures { option_copied result ≡ self.now.field8 }
    {
        text_at(&self.fields.by_ref(), self.changes.field8)
    }

    /// Returns the squeezed text of an amended field 9.
    pub fn field9(&self) -> Option<&[u8]>
        ensures { option_copied result ≡ self.now.field9 }
    {
        text_at(&self.fields.by_ref(), self.changes.field9)
    }

    /// Returns the squeezed text of an amended field 10.
    pub fn field10(&self) -> Option<&[u8]>
        ensures { option_copied result ≡ self.now.field10 }
    {
        text_at(&self.fields.by_ref(), self.changes.field10)
    }

    /// Returns the squeezed text of an amended field 15.
    pub fn field15(&self) -> Option<&[u8]>
        ensures { option_copied result ≡ self.now.field15 }
    {
        text_at(&self.fields.by_ref(), self.changes.field15)
    }

    /// Returns the squeezed text of an amended field 18.
    pub fn field18(&self) -> Option<&[u8]>
        ensures { option_copied result ≡ self.now.field18 }
    {
        text_at(&self.fields.by_ref(), self.changes.field18)
    }
}

/// The amended text at index `place`, if there is one.
fn text_at<'a, A: Allocator + Copy>(
    fields: &FieldsRef<'a, A>,
    place: Option<usize>,
) -> Option<&'a [u8]>
    requires { ForSome place (λ at. at < length fields.now) }
    ensures { option_copied result ≡ text_at fields.now place }
{
    match place {
        Some(place) => Some(amended_at(fields, place)),
        None => None,
    }
}
