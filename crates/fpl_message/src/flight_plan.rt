//! The filed flight plan message, FPL.
ghost use Rattle.std.specs.Prelude.{◌≡◌, ◌≢◌, ◌<◌, true, length, Ok, Err, IfOk, IfErr, IsOk};
ghost use Rattle.std.specs.Prelude.{OnErr, MatchResult};
ghost use Rattle.fpl_message.specs.Refusals.{ReturnsAs, RunsOutOnlyIf};
ghost use Rattle.fpl_items.specs.Routes.{is_route, path_or_fault};
ghost use Rattle.fpl_text.specs.Fields.{fields_of};
ghost use Rattle.fpl_text.specs.Borders.{IsMessage};
ghost use Rattle.fpl_text.specs.Words.{words_of};
ghost use Rattle.fpl_items.specs.Items.{items_of};
ghost use Rattle.fpl_items.specs.Other18.{TellsOf};
ghost use Rattle.fpl_items.specs.Estimates.{AreEstimatesOf, HasEstimate};
ghost use Rattle.fpl_message.specs.FlightPlans.{fpl_of, flight_of};
ghost use Rattle.fpl_message.specs.Messages.{field};
ghost use Rattle.fpl_text.specs.declared.time.TheConstants.{ELAPSED_LIMIT};

use crate::fault::{Fault, boxed};
use crate::refusal::Refusal;
use fpl_items::{Effects, Estimates, ItemFault, Items, Route, is_route};
use fpl_text::{
    Craft, Departure, Destination, Fields, FieldsRef, Heading, Ident, Rules, Squeezed, Title,
    is_equipment,
};
use std::alloc::{AllocError, Allocator, Global};
use std::marker::Model;
use std::mem::replace;

/// What fields 7 to 16 of a flight plan say.
#[derive(Drop)]
pub struct Flight {
    ident: Ident,
    rules: Rules,
    craft: Craft,
    departure: Departure,
    destination: Destination,
    elapsed: u32,
}

/// A filed flight plan (ICAO Doc 4444, appendix 2), with the squeezed texts of its nine fields.
#[derive(Drop)]
pub struct Fpl<A: Allocator + Copy = Global> {
    fields: Fields<A>,
    flight: Flight,
    effects: Effects,
}

impl<A: Allocator + Copy> Model for Fpl<A> {
    ghost use Rattle.std.specs.Prelude.{◌≡◌, ◌<◌, true, length, None};
    ghost use Rattle.fpl_text.specs.Words.{words_of};
    ghost use Rattle.fpl_items.specs.Items.{items_of, field_fault};
    ghost use Rattle.fpl_items.specs.Other18.{TellsOf};
    ghost use Rattle.fpl_items.specs.Routes.{is_route};
    ghost use Rattle.fpl_message.specs.Messages.{FplView, field};
    ghost use Rattle.fpl_text.specs.declared.time.TheConstants.{ELAPSED_LIMIT};

    ghost Value = { FplView };

    ghost view = { λ m. record {
      fields = m.fields;
      ident = m.flight.ident;
      rules = m.flight.rules;
      craft = m.flight.craft;
      departure = m.flight.departure;
      destination = m.flight.destination;
      elapsed = m.flight.elapsed;
      items = items_of (words_of (field m.fields 8));
    } };

    ghost invariant = { λ m. (length m.fields ≡ 9) × (is_route (field m.fields 6) ≡ true)
        × (m.flight.elapsed < ELAPSED_LIMIT)
        × (field_fault (field m.fields 8) ≡ None)
        × TellsOf (items_of (words_of (field m.fields 8))) m.effects };
}

impl Flight {
    /// Reads the fields of an FPL before field 18, from the left.
    #[inline(always)]
    #[tactic(auto, unfolding(crate::specs::FlightPlans::flight_of))]
    fn read<A: Allocator + Copy>(fields: &FieldsRef<'_, A>) -> Result<Flight, Fault>
        requires { length fields.now ≡ 9 }
        ensures value { ReturnsAs (λ flight. flight) result (flight_of fields.now) }
        ensures memory { result ≢ Err Fault.OutOfMemory }
        ensures route { IfOk result (λ _. is_route (field fields.now 6) ≡ true) }
        ensures bound { IfOk result (λ flight. flight.elapsed < ELAPSED_LIMIT) }
    {
        let _heading = Heading::read(fields.field(0))?;
        let ident = Ident::read(fields.field(1))?;
        let rules = Rules::read(fields.field(2))?;
        let craft = Craft::read(fields.field(3))?;
        if !is_equipment(fields.field(4)) {
            return Err(Fault::Refused(Refusal::BadField(10)));
        }
        let departure = Departure::read(fields.field(5))?;
        if !is_route(fields.field(6)) {
            return Err(Fault::Refused(Refusal::BadField(15)));
        }
        let destination = Destination::read(fields.field(7))?;
        let Some(elapsed) = destination.elapsed else {
            return Err(Fault::Refused(Refusal::BadField(16)));
        };
        Ok(Flight {
            ident,
            rules,
            craft,
            departure,
            destination,
            elapsed,
        })
    }
}

impl<A: Allocator + Copy> Fpl<A> {
    /// Reads the fields of an FPL, from the left. The text stays in the plan; that of the spare box
    /// is left in its place, or the empty one. Allocates only for a plan that is accepted, if there
    /// is no spare box.
    pub(crate) fn read(
        alloc: A,
        text: &mut Squeezed<A>,
        spare: &mut Option<Box<Fpl<A>, A>>,
    ) -> Result<Box<Fpl<A>, A>, Fault>
        requires { IsMessage text.old Title.Fpl }
        ensures value { ReturnsAs (λ b. b.value) result (fpl_of (fields_of text.old)) }
        ensures memory { RunsOutOnlyIf result (IsOk (fpl_of (fields_of text.old))) }
    {
        let Some(mut last) = spare.take() else {
            return Fpl::first(alloc, text);
        };
        match last.renew(text) {
            Ok(()) => Ok(last),
            Err(fault) => {
                *spare = Some(last);
                Err(fault)
            }
        }
    }

    /// Reads the fields of an FPL for which there is no spare box.
    #[cold]
    #[inline(never)]
    #[tactic(auto, unfolding(crate::specs::FlightPlans::fpl_of))]
    fn first(alloc: A, text: &mut Squeezed<A>) -> Result<Box<Fpl<A>, A>, Fault>
        requires { IsMessage text.old Title.Fpl }
        ensures value { ReturnsAs (λ b. b.value) result (fpl_of (fields_of text.old)) }
        ensures memory { RunsOutOnlyIf result (IsOk (fpl_of (fields_of text.old))) }
    {
        let text = replace(text, Squeezed::new(alloc));
        let fields = Fields::new(text, Title::Fpl);
        let flight = Flight::read(&fields.by_ref())?;
        let effects = Effects::read(fields.field(8))?;
        boxed(
            alloc,
            Fpl {
                fields,
                flight,
                effects,
            },
        )
    }

    /// Reads another text into this plan, and leaves its own in place of it, or both as they were.
    #[tactic(auto, unfolding(crate::specs::FlightPlans::fpl_of))]
    fn renew(&mut self, text: &mut Squeezed<A>) -> Result<(), Fault>
        requires { IsMessage text.old Title.Fpl }
        ensures value { ReturnsAs (λ _. self.new) result (fpl_of (fields_of text.old)) }
        ensures memory { result ≢ Err Fault.OutOfMemory }
        ensures left { MatchResult result (λ _. fields_of text.new ≡ self.old.fields)
            (λ _. (text.new ≡ text.old) × (self.new ≡ self.old)) }
    {
        let fields = text.fields();
        let flight = Flight::read(&fields)?;
        let effects = Effects::read(fields.field(8))?;
        self.fields.exchange(text, Title::Fpl);
        self.flight = flight;
        self.effects = effects;
        Ok(())
    }

    /// Returns the identification, of field 7.
    pub fn ident(&self) -> &Ident
        ensures { result.now ≡ self.now.ident }
    {
        &self.flight.ident
    }

    /// Returns the flight rules and the type of flight, of field 8.
    pub fn rules(&self) -> &Rules
        ensures { result.now ≡ self.now.rules }
    {
        &self.flight.rules
    }

    /// Returns the aircraft, of field 9.
    pub fn craft(&self) -> &Craft
        ensures { result.now ≡ self.now.craft }
    {
        &self.flight.craft
    }

    /// Returns the departure aerodrome and the off-block time, of field 13.
    pub fn departure(&self) -> &Departure
        ensures { result.now ≡ self.now.departure }
    {
        &self.flight.departure
    }

    /// Returns the route, of field 15. It is read anew at each call, since a desk never asks for
    /// it. It has its form: the only `Err` is a failed allocation.
    pub fn route<B: Allocator + Copy>(&self, alloc: B) -> Result<Route<B>, ItemFault>
        ensures ok { IfOk result (λ route. path_or_fault (field self.now.fields 6) ≡ Ok route) }
        ensures err { IfErr result (λ fault. fault ≡ ItemFault.OutOfMemory) }
    {
        Route::read(alloc, self.fields.field(6))
    }

    /// Returns the destination and its alternates, of field 16.
    pub fn destination(&self) -> &Destination
        ensures { result.now ≡ self.now.destination }
    {
        &self.flight.destination
    }

    /// Returns the total elapsed time of field 16 in minutes, at most 5,999.
    pub fn elapsed(&self) -> u32
        ensures value { result ≡ self.now.elapsed }
        ensures bound { result < ELAPSED_LIMIT }
    {
        self.flight.elapsed
    }

    /// Returns what the items of field 18 say.
    pub fn other(&self) -> &Effects
        ensures value { TellsOf self.now.items result.now }
        ensures items { self.now.items ≡ items_of (words_of (field self.now.fields 8)) }
    {
        &self.effects
    }

    /// Reads the estimates of the EET items of field 18. Returns `Err` if allocation fails, which
    /// it doesn't for a field without estimates.
    pub fn estimates<B: Allocator + Copy>(&self, alloc: B) -> Result<Estimates<B>, AllocError>
        ensures value { IfOk result (AreEstimatesOf self.now.items) }
        ensures memory { OnErr result (HasEstimate self.now.items) }
        ensures items { self.now.items ≡ items_of (words_of (field self.now.fields 8)) }
    {
        self.effects.estimates(alloc, self.fields.field(8))
    }

    /// Returns the items of field 18, in order. They are read anew at each call, since a desk never
    /// asks for them.
    pub fn items(&self) -> Items<'_>
        ensures { result ≡ self.now.items }
    {
        Items::new(self.fields.field(8))
    }

    /// Returns the squeezed text of the field at index `place`, counted from 0: fields 3, 7, 8, 9,
    /// 10, 13, 15, 16 and 18.
    pub fn field(&self, place: usize) -> &[u8]
        requires { place < 9 }
        ensures { result.now ≡ field self.now.fields place }
    {
        self.fields.field(place)
    }
}
