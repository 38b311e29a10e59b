//! Finds plans by identification, departure and destination, without a scan of all plans.
ghost use Rattle.std.specs.Prelude.{◌≡◌, ◌≤◌, ◌<◌, ◌+◌, ◌-◌, ◌++◌, ◌∷◌, []};
ghost use Rattle.std.specs.Prelude.{ℕ, Bool, true, false, None, OnOk};
ghost use Rattle.std.specs.Prelude.{OnErr, IfSome, length, max, take, slice_index, fold, ◌*◌};
ghost use Rattle.std.specs.Map.{lookup};
ghost use Rattle.indexmap.specs.IndexMap.{spare};
ghost use Rattle.flow_plans.specs.Plans.{PlanView, is_held, plan_at, with_plan};
ghost use Rattle.flow_plans.specs.Chains.{base_256, flight_named, flight_of_key};
ghost use Rattle.flow_plans.specs.Chains.{flight_of_parts, same_flight, newest};
ghost use Rattle.flow_plans.specs.Chains.{GoDown, AreLinks, IsNewest, AreChained};
ghost use Rattle.flow_plans.specs.Chains.{HasRoomFor, IsUpdated, KeepNames};
ghost use Rattle.flow_plans.specs.Chains.{IsForgotten, StayChained, IsApart, LeaveOut, TakeIn};
ghost use Rattle.flow_plans.specs.declared.setup.TheConstants.{MAX_PLANS};

use crate::first_letters::letters_of;
use crate::plan::{Key, Plan};
use fpl_message::Parts;
use fpl_text::Text;
use indexmap::IndexMap;
use std::alloc::{AllocError, Allocator, Global};
use std::hash::{BuildHasherDefault, FoldHasher};
use std::marker::Model;

/// What the plans of a flight have in common on all days: the identification as one number, and the
/// letters of the departure and the destination as another. Equal flights have equal names.
#[derive(Clone, Copy, PartialEq, Eq, Hash)]
pub(crate) struct FlightName {
    ident: u64,
    ends: u64,
}

impl FlightName {
    #[inline]
    fn new(ident: &Text<7>, dep: &Text<4>, dest: &Text<4>) -> FlightName
        ensures { result ≡ flight_named ident.now dep.now dest.now }
    {
        let departure = u64::from(letters_of(dep.as_bytes()));
        let destination = u64::from(letters_of(dest.as_bytes()));
        FlightName {
            ident: number_of(ident.as_bytes()),
            ends: 4_294_967_296 * departure + destination,
        }
    }

    #[inline]
    pub(crate) fn of_key(key: &Key) -> FlightName
        ensures { result ≡ flight_of_key key.now }
    {
        FlightName::new(&key.ident, &key.dep, &key.dest)
    }

    pub(crate) fn of_parts(parts: &Parts) -> FlightName
        ensures { result ≡ flight_of_parts parts.now }
    {
        FlightName::new(&parts.ident, &parts.dep, &parts.dest)
    }
}

/// At most seven bytes as one number to the base 256. The first four are read at once.
#[inline]
fn number_of(bytes: &[u8]) -> u64
    requires { length bytes.now ≤ 7 }
    ensures { result ≡ base_256 bytes.now }
{
    if bytes.len() < 4 {
        return number_with(0, bytes);
    }
    number_with(u64::from(letters_of(bytes)), &bytes[4..])
}

/// A number of at most four bytes to the base 256, with at most three bytes appended.
#[inline]
fn number_with(front: u64, bytes: &[u8]) -> u64
    requires front { front < 4_294_967_296 }
    requires short { length bytes.now ≤ 3 }
    ensures { result ≡ fold (λ number byte. 256 * number + byte) front bytes.now }
{
    let mut number = front;
    for byte in bytes {
        number = 256 * number + u64::from(*byte);
    }
    number
}

/// A map from each flight name to the number of its newest held plan, and for each plan the number
/// of the next older one; 0 if there is none. So a chain has the held plans of one name, from the
/// newest to the oldest, and no others: a plan that is cancelled or gets another name is removed.
#[derive(Drop)]
pub(crate) struct Chains<A: Allocator + Copy = Global> {
    heads: Heads<A>,
    older: Vec<u32, A>,
}

type Heads<A> = IndexMap<FlightName, u32, BuildHasherDefault<FoldHasher>, A>;

impl<A: Allocator + Copy> Model for Chains<A> {
    ghost use Rattle.indexmap.specs.IndexMap.{spare};
    ghost use Rattle.flow_plans.specs.Chains.{ChainsView, GoDown};

    ghost Value = { ChainsView };

    ghost view = { λ c.
        record { heads = c.heads.entries; older = c.older.items; room = spare c.heads } };

    ghost invariant = { λ c. GoDown c.older.items };
}

impl<A: Allocator + Copy> Chains<A> {
    pub(crate) fn new(alloc: A) -> Self
        ensures { AreChained result [] }
    {
        Chains {
            heads: IndexMap::new(alloc),
            older: Vec::new(alloc),
        }
    }

    /// The number of the newest held plan of a name, or 0.
    pub(crate) fn newest(&self, name: &FlightName) -> u32
        ensures { result ≡ newest self.now.heads name.now }
    {
        self.heads.get(name).copied().unwrap_or(0)
    }

    /// For each plan the number of the next older one.
    pub(crate) fn older(&self) -> &[u32]
        ensures value { result.now ≡ self.now.older }
        ensures down { GoDown result.now }
    {
        &self.older
    }

    /// Reserves the names of `flights` more flights. After an `Err` all chains are unchanged.
    pub(crate) fn reserve(&mut self, flights: usize) -> Result<(), AllocError>
        ensures kept { StayChained self.old self.new }
        ensures ok { OnOk result (flights ≤ self.new.room) }
    {
        self.heads.reserve(flights)
    }

    /// Puts a plan, which follows `plans`, at the head of its chain. After an `Err` all chains are
    /// unchanged.
    pub(crate) fn append(&mut self, plans: &[Plan<A>], plan: &Plan<A>) -> Result<(), AllocError>
        requires few { length plans.now ≤ MAX_PLANS }
        requires held { is_held plan.now.state ≡ true }
        requires chained { AreChained self.old plans.now }
        ensures ok { OnOk result (AreChained self.new (plans.now ++ plan.now ∷ [])) }
        ensures err { OnErr result (StayChained self.old self.new) }
    {
        self.older.reserve(1)?;
        self.heads.reserve(1)?;
        let name = FlightName::of_key(plan.key());
        let older = raise_newest(&mut self.heads, name, plans.len() as u32 + 1);
        self.older.push_reserved(older);
        Ok(())
    }

    /// Removes plan `number`, of the flight `name`, from its chain. Doesn't allocate.
    pub(crate) fn leave(&mut self, name: &FlightName, number: u32)
        requires number { (0 < number) × (number ≤ length self.old.older) }
        requires within { newest self.old.heads name.now ≤ length self.old.older }
        ensures out { LeaveOut self.old self.new name.now number }
        ensures kept { KeepNames self.old self.new }
    {
        let next = self.older[(number - 1) as usize];
        let newest = lower_newest(&mut self.heads, name, number, next);
        if newest <= number {
            return;
        }
        let later = later_than(&self.older, newest, number);
        if self.older[later] == number {
            self.older[later] = next;
        }
    }

    /// Removes plan `number`, of the flight `name`, from its chain, and the flight from the map if
    /// no other plan has that name. Doesn't allocate.
    pub(crate) fn withdraw(&mut self, name: &FlightName, number: u32)
        requires number { (0 < number) × (number ≤ length self.old.older) }
        requires within { newest self.old.heads name.now ≤ length self.old.older }
        ensures out { LeaveOut self.old self.new name.now number }
        ensures others { (q : FlightName) → same_flight name.now q ≡ false
            → lookup (same_flight q) self.new.heads ≡ None
            → lookup (same_flight q) self.old.heads ≡ None }
        ensures room { self.old.room ≤ self.new.room }
    {
        if self.older[(number - 1) as usize] == 0 {
            if forget_alone(&mut self.heads, name, number) {
                return;
            }
        }
        self.leave(name, number);
    }

    /// Inserts plan `number` into the chain of the flight `name`, for which there is capacity.
    pub(crate) fn join(&mut self, name: FlightName, number: u32)
        requires apart { IsApart self.old number }
        requires room { HasRoomFor self.old name }
        ensures taken { TakeIn self.old self.new name number }
        ensures room { self.old.room ≤ self.new.room + 1 }
    {
        let place = (number - 1) as usize;
        let newest = raise_newest(&mut self.heads, name, number);
        if newest < number {
            self.older[place] = newest;
            return;
        }
        let later = later_than(&self.older, newest, number);
        self.older[place] = self.older[later];
        self.older[later] = number;
    }

    /// Moves plan `number` from the chain of its flight into that of the flight `name`, for which
    /// there is capacity. Doesn't allocate.
    pub(crate) fn rename(&mut self, plans: &[Plan<A>], number: u32, name: FlightName)
        requires number { (0 < number) × (number ≤ length plans.now) }
        requires held { IfSome (plan_at plans.now number) (λ p. is_held p.state ≡ true) }
        requires room { HasRoomFor self.old name }
        requires chained { AreChained self.old plans.now }
        ensures chained { (p : PlanView) → is_held p.state ≡ true → flight_of_key p.key ≡ name
            → AreChained self.new (with_plan plans.now number p) }
        ensures room { self.old.room ≤ self.new.room + 1 }
    {
        let before = FlightName::of_key(plans[(number - 1) as usize].key());
        if name == before {
            return;
        }
        self.withdraw(&before, number);
        self.join(name, number);
    }

    /// Removes the last of these plans from its chain, and its flight from the map if no other plan
    /// has that name. Doesn't allocate.
    pub(crate) fn pop(&mut self, plans: &[Plan<A>])
        requires some { 0 < length plans.now }
        requires few { length plans.now ≤ MAX_PLANS }
        requires chained { AreChained self.old plans.now }
        ensures chained { AreChained self.new (take (length plans.now - 1) plans.now) }
    {
        let name = FlightName::of_key(plans[plans.len() - 1].key());
        self.withdraw(&name, plans.len() as u32);
        self.older.pop();
    }
}

/// Replaces the newest plan of a flight if it is `number`, and returns the number before.
fn lower_newest<A: Allocator + Copy>(
    heads: &mut Heads<A>,
    name: &FlightName,
    number: u32,
    next: u32,
) -> u32
    requires { 0 < number }
    ensures before { result ≡ newest heads.old.entries name.now }
    ensures lowered { result ≡ number
        → IsUpdated heads.old.entries heads.new.entries name.now next }
    ensures kept { (result ≡ number → ⊥) → (q : FlightName)
        → lookup (same_flight q) heads.new.entries ≡ lookup (same_flight q) heads.old.entries }
    ensures room { spare heads.new ≡ spare heads.old }
{
    let Some(newest) = heads.get_mut(name) else {
        return 0;
    };
    let before = *newest;
    if before == number {
        *newest = next;
    }
    before
}

/// Removes a flight from the map if its newest plan is `number`, and returns whether it was.
fn forget_alone<A: Allocator + Copy>(heads: &mut Heads<A>, name: &FlightName, number: u32) -> bool
    ensures newest { result ≡ true → newest heads.old.entries name.now ≡ number }
    ensures gone { result ≡ true → IsForgotten heads.old.entries heads.new.entries name.now }
    ensures stays { result ≡ false → heads.new ≡ heads.old }
    ensures room { spare heads.old ≤ spare heads.new }
{
    let Some((place, _, newest)) = heads.get_full(name) else {
        return false;
    };
    if *newest != number {
        return false;
    }
    heads.swap_remove_index(place);
    true
}

/// Sets the newest plan of a flight, for which the map has capacity, unless a newer one is there;
/// returns the number before.
fn raise_newest<A: Allocator + Copy>(heads: &mut Heads<A>, name: FlightName, number: u32) -> u32
    requires some { 0 < number }
    requires room { lookup (same_flight name) heads.old.entries ≡ None → 0 < spare heads.old }
    ensures before { result ≡ newest heads.old.entries name }
    ensures raised { IsUpdated heads.old.entries heads.new.entries name (max result number) }
    ensures room { spare heads.old ≤ spare heads.new + 1 }
{
    let newest = heads.entry(name).unwrap().or_insert(0);
    let before = *newest;
    *newest = before.max(number);
    before
}

/// The index of the plan in the chain from `newest` whose next older plan is `number` or older than
/// that.
fn later_than(older: &[u32], newest: u32, number: u32) -> usize
    requires down { GoDown older.now }
    requires within { newest ≤ length older.now }
    requires later { number < newest }
    ensures within { result < length older.now }
    ensures later { number ≤ result }
    ensures next { slice_index older.now result ≤ number }
    ensures held { (test : ℕ → Bool) → AreLinks test older.now → IsNewest test newest
        → test result ≡ true }
{
    let mut later = (newest - 1) as usize;
    while older[later] > number {
        later = (older[later] - 1) as usize;
    }
    later
}
