//! A desk that has no name yet.
ghost use Rattle.std.specs.Prelude.{◌≡◌, ◌≢◌, ◌<◌, ◌≤◌, ◌⊎◌, ◌↔◌, ℕ};
ghost use Rattle.std.specs.Prelude.{true, None, Some, [], length, replicate};
ghost use Rattle.std.specs.Prelude.{slice_get, IfOk, IfErr, IsErrOf, IsTrue, IsFalse};
ghost use Rattle.std.specs.List.{All};
ghost use Rattle.flow_core.specs.State.{EntryView};
ghost use Rattle.flow_core.specs.History.{state_of};
ghost use Rattle.flow_desk.specs.Locks.{Counts};
ghost use Rattle.flow_desk.specs.Blanks.{IsFree, IsBlank, first_beyond};
ghost use Rattle.flow_desk.specs.declared.blank.DeskFault.TheVariants.{OutOfMemory};

use crate::follower::Follower;
use crate::history::{Front, Head, open_history};
use crate::name::Name;
use crate::seat::{Publisher, Seat};
use crate::tally::count_one;
use flow_core::{Core, MAX_FEEDERS};
use flow_plans::Setup;
use std::alloc::{AllocError, Allocator, Global};
use std::marker::Model;
use std::sync::Wait;

/// Why no desk is made.
#[derive(Clone, Copy, Debug, PartialEq, Eq)]
pub enum DeskFault {
    /// The number of feeders isn't 1 to 64.
    Feeders,
    /// The entry of this number is the first whose feeder isn't below the number of feeders (41).
    FeederBeyond(u32),
    /// The board has no more readers to give to a feeder.
    NoReader,
    OutOfMemory,
}

impl From<AllocError> for DeskFault {
    ghost from_gives = { λ _ fault. fault ≡ OutOfMemory };

    fn from(_error: AllocError) -> DeskFault {
        DeskFault::OutOfMemory
    }
}

/// A desk before it is opened: its core, its history, its board and a reader of the board for each
/// feeder. Contracts see which desk it will be.
#[derive(Drop)]
pub struct Blank<R: Wait + Drop, A: Allocator + Copy = Global> {
    pub(crate) core: Core<A>,
    pub(crate) parts: Parts<R, A>,
}

/// What a blank has beside its core.
#[derive(Drop)]
pub(crate) struct Parts<R: Wait + Drop, A: Allocator + Copy = Global> {
    pub head: Head,
    pub front: Front,
    pub counts: Vec<u32, A>,
    pub publisher: Publisher<R, A>,
    pub seats: Vec<Seat<A>, A>,
}

impl<R: Wait + Drop, A: Allocator + Copy> Model for Blank<R, A> {
    ghost use Rattle.flow_desk.specs.Blanks.{BlankView};

    ghost Value = { BlankView };

    ghost use Rattle.std.specs.Prelude.{length};
    ghost use Rattle.flow_core.specs.History.{state_of};
    ghost use Rattle.flow_desk.specs.Blanks.{IsBlank};

    ghost view = { λ b. record {
      book = b.parts.head;
      setup = b.core.setup;
      feeders = length b.parts.seats.items;
      entries = (state_of b.core).journal;
    } };

    ghost invariant = { λ b.
        IsBlank b.core b.parts.head b.parts.front b.parts.counts.items
        b.parts.publisher b.parts.seats.items };
}

/// Whether a desk may have `feeders` feeders.
fn is_desk_size(feeders: usize) -> bool
    ensures yes { IsTrue result → (0 < feeders) × (feeders ≤ MAX_FEEDERS) }
    ensures no { IsFalse result → (feeders ≡ 0) ⊎ (MAX_FEEDERS < feeders) }
{
    1 <= feeders && feeders <= MAX_FEEDERS
}

/// Makes a reader of the board for each feeder.
fn seats_for<R: Wait + Drop, A: Allocator + Copy>(
    alloc: A,
    publisher: &mut Publisher<R, A>,
    feeders: usize,
) -> Result<Vec<Seat<A>, A>, DeskFault>
    requires { publisher.old.knows ≡ true }
    ensures publisher { publisher.new ≡ publisher.old }
    ensures count { IfOk result (λ v. length v.items ≡ feeders) }
    ensures free { IfOk result
        (λ v. All (IsFree publisher.old.book publisher.old.setup publisher.old.entries) v.items) }
    ensures fault { IfErr result (λ e. (e ≡ DeskFault.OutOfMemory) ⊎ (e ≡ DeskFault.NoReader)) }
{
    let mut seats = Vec::new(alloc);
    seats.reserve(feeders)?;
    for _ in 0..feeders {
        match publisher.seat() {
            Ok(seat) => seats.push_reserved(seat),
            Err(_) => return Err(DeskFault::NoReader),
        }
    }
    Ok(seats)
}

/// The feeder of the entry at `index`, counted from 0.
fn feeder_at<A: Allocator + Copy>(core: &Core<A>, index: u32) -> u8
    requires { index < length (state_of core.now).journal }
    ensures { (e : EntryView) × (slice_get (state_of core.now).journal index ≡ Some e)
        × (result ≡ e.input.feeder) }
{
    prove!(index < core.entries());
    match core.entry(index + 1) {
        Some(entry) => entry.feeder(),
        None => unreachable!(),
    }
}

/// The number of the first entry whose feeder isn't below `feeders`; `None` if all are.
pub fn first_feeder_beyond<A: Allocator + Copy>(core: &Core<A>, feeders: usize) -> Option<u32>
    ensures { result ≡ first_beyond feeders 1 (state_of core.now).journal }
{
    for index in 0..core.entries() {
        if usize::from(feeder_at(core, index)) >= feeders {
            return Some(index + 1);
        }
    }
    None
}

/// A count of zero for each feeder.
fn no_counts<A: Allocator + Copy>(alloc: A, feeders: usize) -> Result<Vec<u32, A>, DeskFault>
    ensures zeros { IfOk result (λ v. v.items ≡ replicate feeders 0) }
    ensures len { IfOk result (λ v. length v.items ≡ feeders) }
    ensures fault { IfErr result (λ e. e ≡ DeskFault.OutOfMemory) }
{
    Ok(Vec::from_elem(alloc, 0u32, feeders)?)
}

/// Counts the entries of each feeder.
fn count_all<A: Allocator + Copy>(core: &Core<A>, counts: &mut Vec<u32, A>)
    requires within { first_beyond (length counts.old.items) 1 (state_of core.now).journal ≡ None }
    requires zero { counts.old.items ≡ replicate (length counts.old.items) 0 }
    ensures { Counts (length counts.old.items) (state_of core.now).journal counts.new.items }
{
    for index in 0..core.entries() {
        count_one(counts, feeder_at(core, index));
    }
}

/// Makes what the blank of this core has beside it.
fn parts_for<R: Wait + Drop, A: Allocator + Copy>(
    rt: R,
    alloc: A,
    core: &Core<A>,
    feeders: usize,
) -> Result<Parts<R, A>, DeskFault>
    requires feeders { (0 < feeders) × (feeders ≤ MAX_FEEDERS) }
    requires within { first_beyond feeders 1 (state_of core.now).journal ≡ None }
    ensures made { IfOk result (λ p. (length p.seats.items ≡ feeders)
        × IsBlank core.now p.head p.front p.counts.items p.publisher p.seats.items) }
    ensures fault { IfErr result (λ e. (e ≡ DeskFault.OutOfMemory) ⊎ (e ≡ DeskFault.NoReader)) }
{
    let mut counts = no_counts(alloc, feeders)?;
    count_all(core, &mut counts);
    let (head, front) = open_history(&rt, core);
    let publisher = Publisher::new(rt, alloc, &front, core, feeders)?;
    let mut publisher = publisher.settle();
    let seats = seats_for(alloc, &mut publisher, feeders)?;
    Ok(Parts {
        head,
        front,
        counts,
        publisher,
        seats,
    })
}

/// Makes a desk that resumes from this core.
fn made_of<R: Wait + Drop, A: Allocator + Copy>(
    rt: R,
    alloc: A,
    core: Core<A>,
    feeders: usize,
) -> Result<Blank<R, A>, (DeskFault, Core<A>)>
    requires feeders { (0 < feeders) × (feeders ≤ MAX_FEEDERS) }
    requires within { first_beyond feeders 1 (state_of core).journal ≡ None }
    ensures made { IfOk result (λ b. (b.setup ≡ core.setup) × (b.feeders ≡ feeders)
        × (b.entries ≡ (state_of core).journal)) }
    ensures back { IfErr result (λ e. e.1 ≡ core) }
    ensures fault { IfErr result (λ e. (e.0 ≡ DeskFault.OutOfMemory) ⊎ (e.0 ≡ DeskFault.NoReader)) }
{
    match parts_for(rt, alloc, &core, feeders) {
        Ok(parts) => Ok(Blank { core, parts }),
        Err(fault) => Err((fault, core)),
    }
}

impl<R: Wait + Drop, A: Allocator + Copy> Blank<R, A> {
    /// Makes a desk without entries for 1 to 64 feeders, and a reader of the board for each.
    /// Returns `Feeders` for any other number of feeders, `NoReader` or `OutOfMemory`.
    pub fn new(rt: R, alloc: A, setup: Setup, feeders: usize) -> Result<Self, DeskFault>
        ensures made { IfOk result
            (λ b. (b.setup ≡ setup) × (b.feeders ≡ feeders) × (b.entries ≡ []) × (0 < feeders)
            × (feeders ≤ MAX_FEEDERS)) }
        ensures feeders { IsErrOf result DeskFault.Feeders
            ↔ ((feeders ≡ 0) ⊎ (MAX_FEEDERS < feeders)) }
        ensures beyond { IfErr result (λ e. (n : ℕ) → e ≢ DeskFault.FeederBeyond n) }
    {
        if !is_desk_size(feeders) {
            return Err(DeskFault::Feeders);
        }
        let core = Core::new(alloc, setup)?;
        match Blank::resume(rt, alloc, core, feeders) {
            Ok(blank) => Ok(blank),
            Err((fault, _)) => Err(fault),
        }
    }

    /// Makes a desk that resumes from this core, for 1 to 64 feeders, and a reader of the board for
    /// each. An `Err` returns the core too: with `Feeders` for any other number of feeders,
    /// `FeederBeyond` for the first entry whose feeder isn't below that number, `NoReader` or
    /// `OutOfMemory`.
    pub fn resume(
        rt: R,
        alloc: A,
        core: Core<A>,
        feeders: usize,
    ) -> Result<Self, (DeskFault, Core<A>)>
        ensures made { IfOk result (λ b. (b.setup ≡ core.setup) × (b.feeders ≡ feeders)
            × (b.entries ≡ (state_of core).journal) × (0 < feeders) × (feeders ≤ MAX_FEEDERS)) }
        ensures within { IfOk result (λ b. first_beyond feeders 1 (state_of core).journal ≡ None) }
        ensures feeders { IfErr result
            (λ e. (e.0 ≡ DeskFault.Feeders) ↔ ((feeders ≡ 0) ⊎ (MAX_FEEDERS < feeders))) }
        ensures beyond { IfErr result (λ e. (n : ℕ) → (e.0 ≡ DeskFault.FeederBeyond n)
            ↔ ((0 < feeders) × (feeders ≤ MAX_FEEDERS)
            × (first_beyond feeders 1 (state_of core).journal ≡ Some n))) }
        ensures back { IfErr result (λ e. e.1 ≡ core) }
    {
        if !is_desk_size(feeders) {
            return Err((DeskFault::Feeders, core));
        }
        match first_feeder_beyond(&core, feeders) {
            Some(number) => Err((DeskFault::FeederBeyond(number), core)),
            None => made_of(rt, alloc, core, feeders),
        }
    }

    /// The number of feeders.
    pub fn feeders(&self) -> usize
        ensures { result ≡ self.now.feeders }
    {
        self.parts.seats.len()
    }

    /// The number of entries.
    pub fn entries(&self) -> u32
        ensures { result ≡ length self.now.entries }
    {
        self.core.entries()
    }

    /// A follower of the desk that `N` will name, which has seen the entries so far.
    pub fn follower<N: Name>(&self) -> Follower<N>
        requires { self.now.book ≡ N.book }
        ensures { result ≡ self.now.entries }
    {
        Follower::new(self.parts.front.again(), self.entries())
    }
}
