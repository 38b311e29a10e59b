//! A reader of the board and its writer, each as contracts see it.
ghost use Rattle.std.specs.Prelude.{◌≡◌, ◌<◌, ◌^◌, ◌++◌, ◌∷◌, [], true, drop, length, IfOk, IfErr};
ghost use mathlib.Core.List.{IsPrefix};
ghost use Rattle.flow_core.specs.History.{state_of};
ghost use Rattle.flow_desk.specs.Boards.{LeadTo};
ghost use Rattle.flow_desk.specs.Histories.{row_at};

use crate::board::{Board, Operation};
use crate::history::Front;
use crate::rule::{Published, Sees, Tells, View};
use core::mem::replace_with;
use flow_core::{Core, Row};
use left_right::Absorb;
use left_right::reader::Reader;
use left_right::writer::Writer;
use std::alloc::{AllocError, Allocator, Global};
use std::marker::Model;
use std::sync::Wait;

/// A reader of the board.
#[derive(Drop)]
pub struct Seat<A: Allocator + Copy = Global> {
    reader: Reader<Board<A>, View, Published, A>,
}

impl<A: Allocator + Copy> Model for Seat<A> {
    ghost use Rattle.left_right.specs.Sides.{view as view_of};
    ghost use Rattle.flow_desk.specs.Seats.{SeatView};

    ghost Value = { SeatView };

    ghost view = { λ s. record {
      knows = (view_of s.reader.place).knows;
      book = (view_of s.reader.place).front.book;
      setup = (view_of s.reader.place).setup;
      read = (view_of s.reader.place).front.entries;
    } };
}

/// What one version shows: the history so far, and the number of its entries.
#[derive(Drop)]
pub struct Version {
    pub front: Front,
    pub count: u32,
}

/// No version could be read, since the desk is gone.
#[derive(Clone, Copy, Debug)]
pub struct NoVersion {
    // Only this module makes one, after no version was given.
    given: (),
}

/// The writer of the board. Its pending operations change nothing.
pub struct Publisher<R: Wait + Drop, A: Allocator + Copy = Global>
where
    Board<A>: Absorb<Operation<A>, State = Board<A>>,
{
    writer: Writer<Board<A>, Operation<A>, View, Published, A>,
    // What the end of the board waits for readers with.
    rt: R,
}

impl<R: Wait + Drop, A: Allocator + Copy> Model for Publisher<R, A>
where
    Board<A>: Absorb<Operation<A>, State = Board<A>>,
{
    ghost use Rattle.std.specs.Prelude.{◌≡◌, true, drop};
    ghost use Rattle.std.specs.List.{fold};
    ghost use Rattle.left_right.specs.Sides.{view as view_of};
    ghost use Rattle.flow_desk.specs.Seats.{PublisherView};

    ghost Value = { PublisherView };

    ghost use Rattle.flow_desk.specs.Boards.{absorbed};

    ghost view = { λ p. record {
      knows = (view_of p.writer.desk.place).knows;
      book = p.writer.desk.shown.value.book;
      setup = p.writer.desk.shown.value.setup;
      entries = p.writer.desk.shown.value.entries;
    } };

    ghost invariant = { λ p.
        (fold absorbed p.writer.desk.shown.value (drop p.writer.behind p.writer.log.items)
        ≡ p.writer.desk.shown.value) × ((view_of p.writer.desk.place).knows ≡ true
        → ((view_of p.writer.desk.place).front.book ≡ p.writer.desk.shown.value.book)
        × ((view_of p.writer.desk.place).setup ≡ p.writer.desk.shown.value.setup)
        × ((view_of p.writer.desk.place).front.entries ≡ p.writer.desk.shown.value.entries)) };
}

/// Waits for the readers, and frees the board.
impl<R: Wait + Drop, A: Allocator + Copy> Drop for Publisher<R, A> {
    fn drop(self) {
        let Self { writer, rt } = self;
        drop(writer.take(&rt));
    }
}

impl<A: Allocator + Copy> Seat<A> {
    /// The row of a plan in one version, without waiting, and the seat.
    pub fn look(self, plan: u32) -> (Self, Result<Option<Row>, NoVersion>)
        ensures none { IfErr result.1 (λ e. result.0 ≡ self) }
        ensures known { IfOk result.1 (λ row. (result.0.knows ≡ true)
            × (self.knows ≡ true → (result.0.book ≡ self.book) × (result.0.setup ≡ self.setup))) }
        ensures later { IfOk result.1 (λ row. IsPrefix self.read result.0.read) }
        ensures row { IfOk result.1 (λ row. row ≡ row_at result.0.setup result.0.read plan) }
    {
        let Seat { reader } = self;
        match reader.enter_as::<Sees>() {
            Ok(reading) => {
                let row = reading.get().row(plan);
                let reader = reading.leave();
                (Seat { reader }, Ok(row))
            }
            Err(reader) => (Seat { reader }, Err(NoVersion { given: () })),
        }
    }

    /// The history that one version shows, without waiting. An `Err` returns the seat alone.
    pub fn read(self) -> Result<(Self, Version), Self>
        ensures none { IfErr result (λ s. s ≡ self) }
        ensures known { IfOk result (λ r. (r.0.knows ≡ true) × (self.knows ≡ true
            → (r.0.book ≡ self.book) × (r.0.setup ≡ self.setup))) }
        ensures later { IfOk result (λ r. IsPrefix self.read r.0.read) }
        ensures front { IfOk result
            (λ r. (r.1.front.book ≡ r.0.book) × (r.1.front.entries ≡ r.0.read)) }
        ensures count { IfOk result (λ r. r.1.count ≡ length r.0.read) }
    {
        let Seat { reader } = self;
        match reader.enter_as::<Sees>() {
            Ok(reading) => {
                let board = reading.get();
                let version = Version {
                    front: board.front(),
                    count: board.count(),
                };
                let reader = reading.leave();
                Ok((Seat { reader }, version))
            }
            Err(reader) => Err(Seat { reader }),
        }
    }
}

impl<R: Wait + Drop, A: Allocator + Copy> Publisher<R, A> {
    /// Makes the board of a core whose journal is this history, for `readers` readers, and appends
    /// two operations that change nothing. The list of operations then never needs more capacity:
    /// after a publication it has at most the last one, which one of the two boards has still to
    /// absorb, and the next. So publishing allocates nothing.
    pub fn new(
        rt: R,
        alloc: A,
        front: &Front,
        core: &Core<A>,
        readers: usize,
    ) -> Result<Self, AllocError>
        requires readers { (0 < readers) × (readers < 2 ^ 32) }
        requires journal { front.now.entries ≡ (state_of core.now).journal }
        ensures { IfOk result (λ p. (p.book ≡ front.now.book) × (p.setup ≡ core.now.setup)
            × (p.entries ≡ (state_of core.now).journal)) }
    {
        let first = Board::new(alloc, front, core)?;
        let second = Board::new(alloc, front, core)?;
        let idle = Operation::new(front.again(), core.entries(), Vec::new(alloc));
        let further = Operation::new(front.again(), core.entries(), Vec::new(alloc));
        let mut writer = Writer::new(alloc, first, second, readers)?;
        let one = writer.append(idle).is_ok();
        let two = writer.append(further).is_ok();
        if one && two {
            return Ok(Publisher { writer, rt });
        }
        drop(writer.take(&rt));
        Err(AllocError)
    }

    /// Publishes the pending operations, which change nothing, so that both boards have absorbed
    /// them and the list of operations is empty. The writer then knows its desk.
    pub fn settle(self) -> Self
        ensures { (result.knows ≡ true) × (result.book ≡ self.book) × (result.setup ≡ self.setup)
            × (result.entries ≡ self.entries) }
    {
        let Publisher { writer, rt } = self;
        let (writer, _one) = writer.publish_as::<Sees, R>(&rt);
        let (writer, _other) = writer.publish_as::<Sees, R>(&rt);
        Publisher { writer, rt }
    }

    /// A new reader, which knows the desk.
    pub fn seat(&mut self) -> Result<Seat<A>, AllocError>
        requires { self.old.knows ≡ true }
        ensures publisher { self.new ≡ self.old }
        ensures seat { IfOk result
            (λ s. (s.knows ≡ true) × (s.book ≡ self.old.book) × (s.setup ≡ self.old.setup)
            × (s.read ≡ self.old.entries)) }
    {
        let mut reader = self.writer.factory().reader()?;
        reader.learn::<Tells>(self.writer.tell::<Tells>());
        Ok(Seat { reader })
    }

    /// Publishes some more entries. Waits for readers, and if allocation fails, until it succeeds.
    pub fn publish<W: Wait>(&mut self, wait: &W, operation: Operation<A>)
        requires book { operation.front.book ≡ self.old.book }
        requires later { IsPrefix self.old.entries operation.front.entries }
        requires number { operation.number ≡ length operation.front.entries }
        requires rows { LeadTo self.old.setup self.old.entries operation.front.entries
            operation.changes }
        ensures { (self.new.knows ≡ true) × (self.new.book ≡ self.old.book)
            × (self.new.setup ≡ self.old.setup)
            × (self.new.entries ≡ operation.front.entries) }
    {
        append(wait, &mut self.writer, operation);
        let _published = replace_with(&mut self.writer, &self.rt, Writer::publish_as::<Sees, R>);
    }
}

/// Appends an operation to the pending ones. If allocation fails it waits until it succeeds.
fn append<A: Allocator + Copy, W: Wait>(
    wait: &W,
    writer: &mut Writer<Board<A>, Operation<A>, View, Published, A>,
    mut operation: Operation<A>,
)
    ensures desk { writer.new.desk ≡ writer.old.desk }
    ensures pending { drop writer.new.behind writer.new.log.items
        ≡ drop writer.old.behind writer.old.log.items ++ operation ∷ [] }
{
    for _ in wait.forever() {
        match writer.append(operation) {
            Ok(()) => return,
            Err(refused) => operation = refused,
        }
    }
    unreachable!()
}
