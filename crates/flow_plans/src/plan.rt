//! One flight plan.
ghost use Rattle.std.specs.Prelude.{◌≡◌, ◌≤◌, ◌<◌, ℕ, List, Option, true, IfOk};
ghost use Rattle.std.specs.Prelude.{IfSome, IsSome, None, option_copied};
ghost use Rattle.fpl_items.specs.Items.{ItemView, day_of_items};
ghost use Rattle.fpl_items.specs.Other18.{TellsOfAny};
ghost use Rattle.flow_plans.specs.Entries.{take_off, elapsed_at, entry_at, subject};
ghost use Rattle.fpl_message.specs.declared.order.Spot.{Spot};
ghost use Rattle.flow_plans.specs.Near.{table_row, word_at, HasBitsOf};
ghost use Rattle.flow_plans.specs.Outlines.{may_be_subject};
ghost use Rattle.fpl_items.specs.Points.{may_have};
ghost use Rattle.flow_plans.specs.Plans.{is_held, is_filed, same_key};
ghost use Rattle.flow_plans.specs.Plans.{is_held_as, text_of, status_of};
ghost use Rattle.flow_plans.specs.Plans.{with_state, with_off_block, with_former, texts_or};
ghost use Rattle.flow_plans.specs.Matching.{agrees, is_candidate, is_gone};
ghost use Rattle.flow_plans.specs.Changes.{plan_of, key_of, changes_key};
ghost use Rattle.flow_plans.specs.Changes.{key_after, texts_after, amended_plan};
ghost use Rattle.std.specs.Option.{option_map_or};
ghost use Rattle.std.specs.Str.{bytes_eq};
ghost use Rattle.flow_plans.specs.declared.setup.TheConstants.{MAX_TAXI};
ghost use Rattle.flow_plans.specs.Times.{off_blocks_end};

use crate::amended_values::{alternates_after, elapsed_after, exempt_after, rules_after};
use crate::first_letters::letters_of;
use crate::texts::{FieldTexts, Texts, exchange_texts, words_of_ends};
use fpl_items::Effects;
use fpl_message::{Chg, Fpl, Parts, Spot};
use fpl_text::{Alternates, Day, ELAPSED_LIMIT, FlightRules, Minute, Text};
use std::alloc::{AllocError, Allocator, Global};
use std::marker::Model;
use std::mem;

/// Whether a plan is filed, departed or cancelled.
#[derive(Clone, Copy, Debug, PartialEq, Eq)]
pub enum PlanState {
    Filed,
    Departed,
    Cancelled,
}

/// The state of a plan, and its off-block date and time.
#[derive(Clone, Copy, Debug, PartialEq, Eq)]
pub struct Status {
    pub state: PlanState,
    pub off_block: Minute,
}

/// What identifies a plan: two held plans never have the same key.
#[derive(Debug, Drop, PartialEq, Eq, Hash)]
pub struct Key {
    /// The identification, without the transponder code.
    pub ident: Text<7>,
    pub dep: Text<4>,
    pub dest: Text<4>,
    /// The day of the off-block date and time as first filed.
    pub day: Day,
}

impl Key {
    #[tactic(auto, unfolding(crate::specs::Plans::same_key))]
    pub(crate) fn is(&self, key: &Key) -> bool
        ensures { result ≡ same_key self.now key.now }
    {
        self.day == key.day
            && self.ident.is(&key.ident)
            && self.dep.is(&key.dep)
            && self.dest.is(&key.dest)
    }

    /// Whether the key matches the parts of a message: in the day too, if they have one.
    #[tactic(auto, unfolding(crate::specs::Matching::agrees))]
    pub(crate) fn agrees(&self, parts: &Parts) -> bool
        ensures { result ≡ agrees parts.now self.now }
    {
        if let Some(day) = parts.day {
            if self.day != day {
                return false;
            }
        }
        self.ident.is(&parts.ident) && self.dep.is(&parts.dep) && self.dest.is(&parts.dest)
    }

    /// Whether a message would make another flight of the plan: it amends the departure to another
    /// aerodrome, or field 18 to a DOF item of another day.
    #[tactic(auto, unfolding(crate::specs::Changes::changes_key))]
    pub(crate) fn is_changed_by<A: Allocator + Copy>(&self, message: &Chg<A>) -> bool
        ensures { result ≡ changes_key message.now self.now }
    {
        if let Some(departure) = message.departure() {
            if !departure.place.is(&self.dep) {
                return true;
            }
        }
        match day_of(message.other()) {
            Some(day) => day != self.day,
            None => false,
        }
    }

    /// The destination after a message, which may amend it.
    fn dest_after<A: Allocator + Copy>(&self, message: &Chg<A>) -> Text<4>
        ensures { result ≡ option_map_or (λ destination. destination.place) message.now.destination
            self.now.dest }
    {
        match message.destination() {
            Some(destination) => destination.place,
            None => self.dest,
        }
    }

    /// The key after a message, which may amend the destination.
    #[tactic(auto, unfolding(crate::specs::Changes::key_after))]
    pub(crate) fn amended<A: Allocator + Copy>(&self, message: &Chg<A>) -> Key
        ensures { result ≡ key_after self.now message.now }
    {
        Key {
            ident: self.ident,
            dep: self.dep,
            dest: self.dest_after(message),
            day: self.day,
        }
    }
}

/// The day of a DOF item in an amended field 18.
fn day_of(amended: Option<&Effects>) -> Option<Day>
    ensures { (items : Option (List ItemView)) → TellsOfAny items (option_copied amended.entry)
        → result ≡ option_map_or day_of_items items None }
{
    match amended {
        Some(effects) => effects.day(),
        None => None,
    }
}

/// Whether an aerodrome is `place`. Names of four letters, as nearly all are, are compared as one
/// number.
#[inline]
fn is_place(aerodrome: &[u8], place: &[u8]) -> bool
    ensures { result ≡ bytes_eq aerodrome.now place.now }
{
    if aerodrome.len() == 4 && place.len() == 4 {
        return letters_of(aerodrome) == letters_of(place);
    }
    is_same(aerodrome, place)
}

#[inline(never)]
fn is_same(aerodrome: &[u8], place: &[u8]) -> bool
    ensures { result ≡ bytes_eq aerodrome.now place.now }
{
    aerodrome == place
}

/// A flight plan as the desk holds it.
///
/// The fields that say where the flight enters a point are adjacent, from the key to the estimates,
/// with which the texts begin: opening a regulation reads them in each plan whose flight may enter
/// its point.
#[derive(Drop)]
pub struct Plan<A: Allocator + Copy = Global> {
    alternates: Alternates,
    key: Key,
    state: PlanState,
    off_block: Minute,
    /// The total elapsed time, in minutes.
    elapsed: u16,
    rules: FlightRules,
    exempt: bool,
    texts: Texts<A>,
}

impl<A: Allocator + Copy> Model for Plan<A> {
    ghost use Rattle.std.specs.Prelude.{◌<◌};
    ghost use Rattle.flow_plans.specs.Plans.{PlanView};
    ghost use Rattle.flow_plans.specs.Times.{off_blocks_end};
    ghost use Rattle.fpl_text.specs.declared.time.TheConstants.{ELAPSED_LIMIT};

    ghost Value = { PlanView };

    ghost view = { λ p. record {
      key = p.key;
      state = p.state;
      off_block = p.off_block;
      elapsed = p.elapsed;
      alternates = p.alternates;
      rules = p.rules;
      exempt = p.exempt;
      texts = p.texts;
    } };

    ghost invariant = { λ p. (p.off_block < off_blocks_end) × (p.elapsed < ELAPSED_LIMIT) };
}

/// What a plan had before an amendment, except its state. It takes few bytes, since most messages
/// amend no text.
#[derive(Drop)]
pub(crate) struct PreviousValues<A: Allocator + Copy = Global> {
    alternates: Alternates,
    key: Key,
    off_block: Minute,
    /// The total elapsed time, in minutes.
    elapsed: u16,
    rules: FlightRules,
    exempt: bool,
    /// `None` if the plan has its texts still.
    texts: Option<Box<Texts<A>, A>>,
}

impl<A: Allocator + Copy> Model for PreviousValues<A> {
    ghost use Rattle.std.specs.Prelude.{◌<◌};
    ghost use Rattle.std.specs.Option.{option_map};
    ghost use Rattle.flow_plans.specs.Plans.{PreviousValuesView};
    ghost use Rattle.flow_plans.specs.Times.{off_blocks_end};
    ghost use Rattle.fpl_text.specs.declared.time.TheConstants.{ELAPSED_LIMIT};

    ghost Value = { PreviousValuesView };

    ghost view = { λ a. record {
      key = a.key;
      off_block = a.off_block;
      elapsed = a.elapsed;
      alternates = a.alternates;
      rules = a.rules;
      exempt = a.exempt;
      texts = option_map (λ t. t.value) a.texts;
    } };

    ghost invariant = { λ a. (a.off_block < off_blocks_end) × (a.elapsed < ELAPSED_LIMIT) };
}

impl<A: Allocator + Copy> PreviousValues<A> {
    pub(crate) fn key(&self) -> &Key
        ensures { result.now ≡ self.now.key }
    {
        &self.key
    }

    pub(crate) fn off_block(&self) -> Minute
        ensures { result ≡ self.now.off_block }
    {
        self.off_block
    }
}

impl<A: Allocator + Copy> Plan<A> {
    /// Creates the plan that a flight plan message files, with this off-block date and time.
    #[tactic(auto, unfolding(crate::specs::Changes::plan_of))]
    pub(crate) fn new(alloc: A, message: &Fpl<A>, off_block: Minute) -> Result<Self, AllocError>
        requires { off_block < off_blocks_end }
        ensures { IfOk result (λ p. p ≡ plan_of off_block message.now) }
    {
        let estimates = message.estimates(alloc)?;
        let fields = FieldTexts {
            field8: message.field(2),
            field9: message.field(3),
            field10: message.field(4),
            field15: message.field(6),
            field18: message.field(8),
        };
        let texts = Texts::new(alloc, &fields, estimates)?;
        Ok(Plan {
            key: key_of(message, off_block),
            state: PlanState::Filed,
            off_block,
            elapsed: message.elapsed() as u16,
            alternates: message.destination().alternates,
            rules: message.rules().rules,
            exempt: message.other().exempt(),
            texts,
        })
    }

    /// The texts that the plan has after a message; `None` if it keeps its own.
    pub(crate) fn amended_texts(
        &self,
        alloc: A,
        message: &Chg<A>,
    ) -> Result<Option<Box<Texts<A>, A>>, AllocError>
        ensures { IfOk result (λ texts.
            texts_or texts self.now.texts ≡ texts_after self.now.texts message.now) }
    {
        self.texts.amended(alloc, message)
    }

    /// Makes the amendments of a message, with its off-block date and time and its texts, and
    /// returns the former values.
    #[tactic(auto, unfolding(crate::specs::Changes::amended_plan, crate::specs::Changes::key_after))]
    pub(crate) fn amend(
        &mut self,
        message: &Chg<A>,
        off_block: Minute,
        mut texts: Option<Box<Texts<A>, A>>,
    ) -> PreviousValues<A>
        requires off_block { off_block < off_blocks_end }
        requires texts { texts_or texts self.old.texts ≡ texts_after self.old.texts message.now }
        ensures changed { self.new ≡ amended_plan off_block message.now self.old }
        ensures back { with_former result self.new ≡ self.old }
    {
        let dest = self.key.dest_after(message);
        let elapsed = elapsed_after(self.elapsed_time(), message.destination()) as u16;
        let alternates = alternates_after(&self.alternates, message.destination());
        let rules = rules_after(self.rules, message.rules());
        let exempt = exempt_after(self.exempt, message.other());
        exchange_texts(&mut self.texts, &mut texts);
        PreviousValues {
            alternates: mem::replace(&mut self.alternates, alternates),
            key: Key {
                ident: self.key.ident,
                dep: self.key.dep,
                dest: mem::replace(&mut self.key.dest, dest),
                day: self.key.day,
            },
            off_block: mem::replace(&mut self.off_block, off_block),
            elapsed: mem::replace(&mut self.elapsed, elapsed),
            rules: mem::replace(&mut self.rules, rules),
            exempt: mem::replace(&mut self.exempt, exempt),
            texts,
        }
    }

    /// Sets the former values of an amendment again.
    pub(crate) fn restore(&mut self, mut former: PreviousValues<A>)
        ensures { self.new ≡ with_former former self.old }
    {
        exchange_texts(&mut self.texts, &mut former.texts);
        self.alternates = former.alternates;
        self.key = former.key;
        self.off_block = former.off_block;
        self.elapsed = former.elapsed;
        self.rules = former.rules;
        self.exempt = former.exempt;
    }

    /// Whether this is a held plan with that key.
    pub(crate) fn is_held_as(&self, key: &Key) -> bool
        ensures { result ≡ is_held_as key.now self.now }
    {
        self.is_held() && self.key.is(key)
    }

    /// Whether the plan is filed or departed, and not cancelled.
    pub fn is_held(&self) -> bool
        ensures { result ≡ is_held self.now.state }
    {
        match self.state {
            PlanState::Filed | PlanState::Departed => true,
            PlanState::Cancelled => false,
        }
    }

    /// Whether the plan is filed: neither departed nor cancelled.
    #[inline]
    pub(crate) fn is_filed(&self) -> bool
        ensures { result ≡ is_filed self.now.state }
    {
        matches!(self.state, PlanState::Filed)
    }

    /// Returns the plan's state.
    pub fn state(&self) -> PlanState
        ensures { result ≡ self.now.state }
    {
        self.state
    }

    /// Returns the plan's state, and its off-block date and time.
    pub fn status(&self) -> Status
        ensures { result ≡ status_of self.now }
    {
        Status {
            state: self.state,
            off_block: self.off_block,
        }
    }

    /// Returns the plan's key.
    pub fn key(&self) -> &Key
        ensures { result.now ≡ self.now.key }
    {
        &self.key
    }

    /// Whether the plan is filed and matches the parts of a message.
    pub(crate) fn is_candidate(&self, parts: &Parts) -> bool
        ensures { result ≡ is_candidate parts.now self.now }
    {
        match self.state {
            PlanState::Filed => self.key.agrees(parts),
            PlanState::Departed | PlanState::Cancelled => false,
        }
    }

    /// Whether the plan has departed and matches the parts of a message.
    pub(crate) fn is_gone(&self, parts: &Parts) -> bool
        ensures { result ≡ is_gone parts.now self.now }
    {
        match self.state {
            PlanState::Departed => self.key.agrees(parts),
            PlanState::Filed | PlanState::Cancelled => false,
        }
    }

    pub(crate) fn set_state(&mut self, state: PlanState)
        ensures { self.new ≡ with_state state self.old }
    {
        self.state = state;
    }

    pub(crate) fn set_off_block(&mut self, moment: Minute)
        requires { moment < off_blocks_end }
        ensures { self.new ≡ with_off_block moment self.old }
    {
        self.off_block = moment;
    }

    /// Returns the off-block date and time, which is before 2099-01-06.
    pub fn off_block(&self) -> Minute
        ensures value { result ≡ self.now.off_block }
        ensures bound { result < off_blocks_end }
    {
        self.off_block
    }

    /// Returns the squeezed text of field 8, 9, 10, 15 or 18; `None` for a field of another number.
    #[tactic(auto, unfolding(crate::specs::Plans::text_of))]
    pub fn text(&self, field: u8) -> Option<&[u8]>
        ensures { option_copied result ≡ text_of field self.now.texts }
    {
        match field {
            8 => Some(self.texts.field8()),
            9 => Some(self.texts.field9()),
            10 => Some(self.texts.field10()),
            15 => Some(self.texts.field15()),
            18 => Some(self.texts.field18()),
            _ => None,
        }
    }

    /// Returns the alternate aerodromes, at most two.
    pub fn alternates(&self) -> &Alternates
        ensures { result.now ≡ self.now.alternates }
    {
        &self.alternates
    }

    /// Returns the minutes from take-off to a route point, by the first estimate for it in the EET
    /// items of field 18; `None` if there is no estimate for it.
    #[inline]
    pub fn elapsed(&self, place: &[u8]) -> Option<u32>
        ensures value { result ≡ elapsed_at place.now self.now }
        ensures bound { IfSome result (λ minutes. minutes < ELAPSED_LIMIT) }
    {
        self.texts.elapsed(place)
    }

    /// The time of take-off, at most 120 minutes after off-block.
    #[inline]
    #[tactic(auto, unfolding(fpl_text::specs::Moments::moment_within))]
    pub(crate) fn take_off(&self, taxi: u32) -> Minute
        requires { taxi ≤ MAX_TAXI }
        ensures { result ≡ take_off taxi self.now }
    {
        self.off_block.plus(taxi).unwrap()
    }

    /// Returns the time at which the flight enters a point: take-off at its departure, and later by
    /// the elapsed times of fields 16 and 18 at its destination and at route points. `None` if it
    /// doesn't enter the point.
    #[inline]
    #[tactic(auto, unfolding(crate::specs::Entries::entry_at))]
    pub fn entry_at(&self, taxi: u32, spot: &Spot) -> Option<Minute>
        requires { taxi ≤ MAX_TAXI }
        ensures { result ≡ entry_at taxi spot.now self.now }
    {
        match spot {
            Spot::Dep(place) => {
                if is_place(self.key.dep.as_bytes(), place.as_bytes()) {
                    Some(self.take_off(taxi))
                } else {
                    None
                }
            }
            Spot::Arr(place) => {
                if is_place(self.key.dest.as_bytes(), place.as_bytes()) {
                    self.take_off(taxi).plus(u32::from(self.elapsed))
                } else {
                    None
                }
            }
            Spot::Via(place) => self.entry_on_way(taxi, place),
        }
    }

    /// The time at which the flight enters a route point.
    #[inline]
    #[tactic(auto, unfolding(crate::specs::Entries::entry_at))]
    fn entry_on_way(&self, taxi: u32, place: &Text<11>) -> Option<Minute>
        requires { taxi ≤ MAX_TAXI }
        ensures { result ≡ entry_at taxi (Spot.Via place.now) self.now }
    {
        let minutes = self.elapsed(place.as_bytes())?;
        self.take_off(taxi).plus(minutes)
    }

    /// The entry at a regulated point, if the regulation applies to the flight.
    #[inline]
    #[tactic(auto, unfolding(crate::specs::Entries::subject))]
    pub(crate) fn subject(
        &self,
        taxi: u32,
        spot: &Spot,
        start: Minute,
        end: Minute,
    ) -> Option<Minute>
        requires { taxi ≤ MAX_TAXI }
        ensures { result ≡ subject taxi spot.now start end self.now }
    {
        if self.exempt || self.state != PlanState::Filed {
            return None;
        }
        if self.rules == FlightRules::Visual {
            return None;
        }
        let moment = self.entry_at(taxi, spot)?;
        if moment < start || end <= moment {
            return None;
        }
        if is_place(self.key.dep.as_bytes(), b"AFIL") {
            return None;
        }
        Some(moment)
    }

    /// The bits in the table's rows of the points that the flight enters; 0 if no regulation
    /// applies to it, wherever it is.
    #[inline]
    pub(crate) fn near(&self, table: &[u64]) -> u64
        ensures { (taxi start end : ℕ) (spot : Spot) → IsSome (subject taxi spot start end self.now)
            → HasBitsOf result (word_at table.now (table_row spot)) }
    {
        if !self.is_filed() {
            return 0;
        }
        if self.exempt {
            return 0;
        }
        let ends = words_of_ends(table, self.key.dep.as_bytes(), self.key.dest.as_bytes());
        ends | self.texts.near(table)
    }

    /// Whether a regulation may apply to the flight, wherever it is: the plan is filed, not flown
    /// by visual rules throughout and not exempt.
    pub(crate) fn may_be_subject(&self) -> bool
        ensures { result ≡ may_be_subject self.now }
    {
        self.is_filed() && self.rules != FlightRules::Visual && !self.exempt
    }

    /// A set that has each route point.
    pub(crate) fn way(&self) -> u64
        ensures { (place : List ℕ) → IsSome (elapsed_at place self.now)
            → may_have result place ≡ true }
    {
        self.texts.way()
    }

    /// The minutes from take-off to the last point that the flight enters, or more.
    pub(crate) fn longest(&self) -> u16
        ensures destination { self.now.elapsed ≤ result }
        ensures way { (place : List ℕ)
            → IfSome (elapsed_at place self.now) (λ minutes. minutes ≤ result) }
    {
        let way = self.texts.longest().min(ELAPSED_LIMIT) as u16;
        way.max(self.elapsed)
    }

    /// Returns the total elapsed time in minutes, at most 5,999.
    pub fn elapsed_time(&self) -> u32
        ensures value { result ≡ self.now.elapsed }
        ensures bound { result < ELAPSED_LIMIT }
    {
        u32::from(self.elapsed)
    }

    /// Returns the flight rules.
    pub fn rules(&self) -> FlightRules
        ensures { result ≡ self.now.rules }
    {
        self.rules
    }

    /// Whether field 18 exempts the flight from slots (STS/ATFMX).
    pub fn exempt(&self) -> bool
        ensures { result ≡ self.now.exempt }
    {
        self.exempt
    }
}

/// The key of the plan that a flight plan message files.
pub(crate) fn key_of<A: Allocator + Copy>(message: &Fpl<A>, off_block: Minute) -> Key
    ensures { result ≡ key_of off_block message.now }
{
    Key {
        ident: message.ident().name,
        dep: message.departure().place,
        dest: message.destination().place,
        day: off_block.day(),
    }
}
