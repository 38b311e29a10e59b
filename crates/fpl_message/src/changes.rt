//! The amended fields of a modification, field type 22.
ghost use Rattle.std.specs.Prelude.{◌≡◌, ◌≢◌, Err, ◌≤◌, ◌<◌, drop, length, true, IfOk};
ghost use Rattle.fpl_text.specs.Fields.{begins_amendment};
ghost use Rattle.fpl_message.specs.Refusals.{ReturnsAs};
ghost use Rattle.fpl_message.specs.Messages.{field};
ghost use Rattle.fpl_message.specs.Modifications.{amended_number, amended_text};
ghost use Rattle.fpl_message.specs.Modifications.{amend_rules, amend_craft};
ghost use Rattle.fpl_message.specs.Modifications.{amend_equipment, amend_departure};
ghost use Rattle.fpl_message.specs.Modifications.{amend_route, amend_destination};
ghost use Rattle.fpl_message.specs.Modifications.{amend_other, amend_numbered};
ghost use Rattle.fpl_message.specs.Modifications.{amend, amend_all, chg_of};
ghost use Rattle.fpl_message.specs.KeptChanges.{kept, StandAmong};

use crate::fault::Fault;
use crate::parts::{Parts, read_opening};
use crate::refusal::Refusal;
use fpl_items::{Effects, is_route};
use fpl_text::{Craft, Departure, Destination, FieldsRef, Rules, begins_amendment, is_equipment};
use std::alloc::Allocator;

/// What a modification changes. An amended text is stored as the index of its field 22 among the
/// fields of the message.
#[derive(Drop)]
pub struct Changes {
    pub parts: Parts,
    pub rules: Option<Rules>,
    pub departure: Option<Departure>,
    pub destination: Option<Destination>,
    pub other: Option<Effects>,
    pub field8: Option<usize>,
    pub field9: Option<usize>,
    pub field10: Option<usize>,
    pub field15: Option<usize>,
    pub field18: Option<usize>,
}

/// The number of the field that a field 22 amends.
#[tactic(auto, unfolding(crate::specs::Modifications::amended_number, fpl_text::specs::Fields::begins_amendment, fpl_text::specs::Bytes::is_digit))]
fn amended_number(field: &[u8]) -> u8
    requires { begins_amendment field.now ≡ true }
    ensures { result ≡ amended_number field.now }
{
    match field {
        [digit, b'/', ..] => digit - b'0',
        [tens, units, ..] => 10 * (tens - b'0') + (units - b'0'),
        _ => unreachable!(),
    }
}

/// The text that a field 22 replaces the field's with.
#[tactic(auto, unfolding(crate::specs::Modifications::amended_text))]
fn amended_text(field: &[u8]) -> &[u8]
    ensures { result.now ≡ amended_text field.now }
{
    match field {
        [_, b'/', text @ ..] => text,
        _ => &field[field.len().min(3)..],
    }
}

/// The amended text of the field 22 at index `place`.
pub(crate) fn amended_at<'a, A: Allocator + Copy>(
    fields: &FieldsRef<'a, A>,
    place: usize,
) -> &'a [u8]
    requires { place < length fields.now }
    ensures { result.now ≡ amended_text (field fields.now place) }
{
    amended_text(fields.field(place))
}

impl Changes {
    fn amend_rules<A: Allocator + Copy>(
        &mut self,
        fields: &FieldsRef<'_, A>,
        place: usize,
    ) -> Result<(), Fault>
        requires { place < length fields.now }
        ensures change { ReturnsAs (λ _. kept fields.now self.new) result
            (amend_rules (amended_text (field fields.now place)) (kept fields.now self.old)) }
        ensures memory { result ≢ Err Fault.OutOfMemory }
        ensures stand { StandAmong fields.now self.old → StandAmong fields.now self.new }
    {
        if self.field8.is_some() {
            return Err(Fault::Refused(Refusal::DuplicateItem));
        }
        let rules = Rules::read(amended_at(fields, place))?;
        self.field8 = Some(place);
        self.rules = Some(rules);
        Ok(())
    }

    fn amend_craft<A: Allocator + Copy>(
        &mut self,
        fields: &FieldsRef<'_, A>,
        place: usize,
    ) -> Result<(), Fault>
        requires { place < length fields.now }
        ensures change { ReturnsAs (λ _. kept fields.now self.new) result
            (amend_craft (amended_text (field fields.now place)) (kept fields.now self.old)) }
        ensures memory { result ≢ Err Fault.OutOfMemory }
        ensures stand { StandAmong fields.now self.old → StandAmong fields.now self.new }
    {
        if self.field9.is_some() {
            return Err(Fault::Refused(Refusal::DuplicateItem));
        }
        let _craft = Craft::read(amended_at(fields, place))?;
        self.field9 = Some(place);
        Ok(())
    }

    fn amend_equipment<A: Allocator + Copy>(
        &mut self,
        fields: &FieldsRef<'_, A>,
        place: usize,
    ) -> Result<(), Fault>
        requires { place < length fields.now }
        ensures change { ReturnsAs (λ _. kept fields.now self.new) result
            (amend_equipment (amended_text (field fields.now place)) (kept fields.now self.old)) }
        ensures memory { result ≢ Err Fault.OutOfMemory }
        ensures stand { StandAmong fields.now self.old → StandAmong fields.now self.new }
    {
        if self.field10.is_some() {
            return Err(Fault::Refused(Refusal::DuplicateItem));
        }
        if !is_equipment(amended_at(fields, place)) {
            return Err(Fault::Refused(Refusal::BadField(10)));
        }
        self.field10 = Some(place);
        Ok(())
    }

    fn amend_departure<A: Allocator + Copy>(
        &mut self,
        fields: &FieldsRef<'_, A>,
        place: usize,
    ) -> Result<(), Fault>
        requires { place < length fields.now }
        ensures change { ReturnsAs (λ _. kept fields.now self.new) result
            (amend_departure (amended_text (field fields.now place)) (kept fields.now self.old)) }
        ensures memory { result ≢ Err Fault.OutOfMemory }
        ensures stand { StandAmong fields.now self.old → StandAmong fields.now self.new }
    {
        if self.departure.is_some() {
            return Err(Fault::Refused(Refusal::DuplicateItem));
        }
        let departure = Departure::read(amended_at(fields, place))?;
        self.departure = Some(departure);
        Ok(())
    }

    fn amend_route<A: Allocator + Copy>(
        &mut self,
        fields: &FieldsRef<'_, A>,
        place: usize,
    ) -> Result<(), Fault>
        requires { place < length fields.now }
        ensures change { ReturnsAs (λ _. kept fields.now self.new) result
            (amend_route (amended_text (field fields.now place)) (kept fields.now self.old)) }
        ensures memory { result ≢ Err Fault.OutOfMemory }
        ensures stand { StandAmong fields.now self.old → StandAmong fields.now self.new }
    {
        if self.field15.is_some() {
            return Err(Fault::Refused(Refusal::DuplicateItem));
        }
        if !is_route(amended_at(fields, place)) {
            return Err(Fault::Refused(Refusal::BadField(15)));
        }
        self.field15 = Some(place);
        Ok(())
    }

    /// Field 16, whose time and alternates may be missing.
    fn amend_destination<A: Allocator + Copy>(
        &mut self,
        fields: &FieldsRef<'_, A>,
        place: usize,
    ) -> Result<(), Fault>
        requires { place < length fields.now }
        ensures change { ReturnsAs (λ _. kept fields.now self.new) result
            (amend_destination (amended_text (field fields.now place)) (kept fields.now self.old)) }
        ensures memory { result ≢ Err Fault.OutOfMemory }
        ensures stand { StandAmong fields.now self.old → StandAmong fields.now self.new }
    {
        if self.destination.is_some() {
            return Err(Fault::Refused(Refusal::DuplicateItem));
        }
        let destination = Destination::read(amended_at(fields, place))?;
        self.destination = Some(destination);
        Ok(())
    }

    fn amend_other<A: Allocator + Copy>(
        &mut self,
        fields: &FieldsRef<'_, A>,
        place: usize,
    ) -> Result<(), Fault>
        requires { place < length fields.now }
        ensures change { ReturnsAs (λ _. kept fields.now self.new) result
            (amend_other (amended_text (field fields.now place)) (kept fields.now self.old)) }
        ensures memory { result ≢ Err Fault.OutOfMemory }
        ensures stand { StandAmong fields.now self.old → StandAmong fields.now self.new }
    {
        if self.field18.is_some() {
            return Err(Fault::Refused(Refusal::DuplicateItem));
        }
        let effects = Effects::read(amended_at(fields, place))?;
        self.field18 = Some(place);
        self.other = Some(effects);
        Ok(())
    }

    /// Adds what the field 22 at index `place` amends.
    #[tactic(auto, unfolding(crate::specs::Modifications::amend, crate::specs::Modifications::amend_numbered))]
    fn amend<A: Allocator + Copy>(
        &mut self,
        fields: &FieldsRef<'_, A>,
        place: usize,
    ) -> Result<(), Fault>
        requires { place < length fields.now }
        ensures change { ReturnsAs (λ _. kept fields.now self.new) result
            (amend (field fields.now place) (kept fields.now self.old)) }
        ensures memory { result ≢ Err Fault.OutOfMemory }
        ensures stand { StandAmong fields.now self.old → StandAmong fields.now self.new }
    {
        let field = fields.field(place);
        if !begins_amendment(field) {
            return Err(Fault::Refused(Refusal::BadField(22)));
        }
        match amended_number(field) {
            8 => self.amend_rules(fields, place),
            9 => self.amend_craft(fields, place),
            10 => self.amend_equipment(fields, place),
            13 => self.amend_departure(fields, place),
            15 => self.amend_route(fields, place),
            16 => self.amend_destination(fields, place),
            18 => self.amend_other(fields, place),
            number => Err(Fault::Refused(Refusal::UnsupportedAmendment(number))),
        }
    }

    /// Adds what the fields 22 from index `first` on amend.
    #[tactic(auto, using(crate::proofs::ModificationLemmas::amended_steps))]
    fn amend_from<A: Allocator + Copy>(
        &mut self,
        fields: &FieldsRef<'_, A>,
        first: usize,
    ) -> Result<(), Fault>
        requires { first ≤ length fields.now }
        ensures change { ReturnsAs (λ _. kept fields.now self.new) result
            (amend_all (drop first fields.now) (kept fields.now self.old)) }
        ensures memory { result ≢ Err Fault.OutOfMemory }
        ensures stand { StandAmong fields.now self.old → StandAmong fields.now self.new }
    {
        for place in first..fields.count() {
            self.amend(fields, place)?;
        }
        Ok(())
    }

    /// The changes of a message about no plan.
    pub(crate) fn none() -> Self {
        Changes {
            parts: Parts::none(),
            rules: None,
            departure: None,
            destination: None,
            other: None,
            field8: None,
            field9: None,
            field10: None,
            field15: None,
            field18: None,
        }
    }

    /// Reads the fields of a CHG, from the left, and replaces all changes.
    #[tactic(auto, unfolding(crate::specs::Modifications::chg_of))]
    pub(crate) fn read<A: Allocator + Copy>(
        &mut self,
        fields: &FieldsRef<'_, A>,
    ) -> Result<(), Fault>
        requires { 5 ≤ length fields.now }
        ensures change { ReturnsAs (λ _. kept fields.now self.new) result (chg_of fields.now) }
        ensures memory { result ≢ Err Fault.OutOfMemory }
        ensures stand { StandAmong fields.now self.new }
    {
        self.rules = None;
        self.departure = None;
        self.destination = None;
        self.other = None;
        self.field8 = None;
        self.field9 = None;
        self.field10 = None;
        self.field15 = None;
        self.field18 = None;
        let has_other = !begins_amendment(fields.field(4));
        let opening = read_opening(has_other, fields)?;
        self.parts = opening.parts;
        let first = if has_other { 5 } else { 4 };
        self.amend_from(fields, first)
    }
}
