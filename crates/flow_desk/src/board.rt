//! The board that readers see: a row for each plan.
ghost use Rattle.std.specs.Prelude.{◌≡◌, length, IfOk};
ghost use Rattle.flow_core.specs.History.{state_of};
ghost use Rattle.flow_core.specs.Changes.{rows_at};
ghost use Rattle.flow_core.specs.Boards.{padded, put_all, put_from};
ghost use Rattle.flow_desk.specs.Boards.{shown_row};

use crate::history::Front;
use flow_core::{Change, Core, Row};
use flow_plans::Setup;
use left_right::Absorb;
use std::alloc::{AllocError, Allocator, Global};
use std::marker::Model;

/// Some more entries: the history that ends with them, the number of its entries, and the rows that
/// they changed, in the order of the changes.
#[derive(Drop)]
pub struct Operation<A: Allocator + Copy = Global> {
    front: Front,
    number: u32,
    changes: Vec<Change, A>,
}

impl<A: Allocator + Copy> Model for Operation<A> {
    ghost use Rattle.flow_desk.specs.Boards.{OperationView};

    ghost Value = { OperationView };

    ghost view = { λ o. record { front = o.front; number = o.number; changes = o.changes.items } };
}

impl<A: Allocator + Copy> Operation<A> {
    pub fn new(front: Front, number: u32, changes: Vec<Change, A>) -> Self
        ensures { result ≡ record { front = front; number = number; changes = changes.items } }
    {
        Operation {
            front,
            number,
            changes,
        }
    }
}

/// The rows of all plans after the entries so far, and the number of these.
#[derive(Drop)]
pub struct Board<A: Allocator + Copy = Global> {
    front: Front,
    setup: Setup,
    count: u32,
    /// One for each plan that the setup allows.
    rows: Vec<Option<Row>, A>,
}

impl<A: Allocator + Copy> Model for Board<A> {
    ghost use Rattle.flow_desk.specs.Boards.{BoardView};

    ghost Value = { BoardView };

    ghost view = { λ b. record {
      book = b.front.book;
      setup = b.setup;
      entries = b.front.entries;
      count = b.count;
      rows = b.rows.items;
    } };
}

/// Replaces a changed row. A row of a plan that the setup doesn't allow is left out.
fn put_row(rows: &mut [Option<Row>], change: &Change)
    ensures { rows.new ≡ put_from 1 rows.old change.now }
{
    let at = (change.plan as usize).saturating_sub(1);
    if at < rows.len() {
        rows[at] = Some(change.row);
    }
}

/// Replaces the changed rows.
fn put_rows(rows: &mut [Option<Row>], changes: &[Change])
    ensures { rows.new ≡ put_all rows.old changes.now }
{
    for change in changes {
        put_row(rows, change);
    }
}

/// The rows of a core, one for each plan that the setup allows.
fn rows_of<A: Allocator + Copy>(alloc: A, core: &Core<A>) -> Result<Vec<Option<Row>, A>, AllocError>
    ensures { IfOk result (λ v. v.items ≡ padded core.now.setup.max_plans (rows_at core.now)) }
{
    let most = core.setup().max_plans();
    let mut rows = Vec::new(alloc);
    rows.reserve(most as usize)?;
    for number in 0..most {
        rows.push_reserved(core.row(number + 1));
    }
    Ok(rows)
}

impl<A: Allocator + Copy> Board<A> {
    /// The board of a core whose journal is this history.
    pub fn new(alloc: A, front: &Front, core: &Core<A>) -> Result<Self, AllocError>
        requires { front.now.entries ≡ (state_of core.now).journal }
        ensures { IfOk result (λ b. b ≡ record {
          book = front.now.book;
          setup = core.now.setup;
          entries = (state_of core.now).journal;
          count = length (state_of core.now).journal;
          rows = padded core.now.setup.max_plans (rows_at core.now);
        }) }
    {
        let rows = rows_of(alloc, core)?;
        Ok(Board {
            front: front.again(),
            setup: core.setup(),
            count: core.entries(),
            rows,
        })
    }

    /// The history that the board shows.
    pub fn front(&self) -> Front
        ensures { (result.book ≡ self.now.book) × (result.entries ≡ self.now.entries) }
    {
        self.front.again()
    }

    /// The number of its entries.
    pub fn count(&self) -> u32
        ensures { result ≡ self.now.count }
    {
        self.count
    }

    /// The row of plan `plan`, counted from 1. `None` if there is no such plan.
    pub fn row(&self, plan: u32) -> Option<Row>
        ensures { result ≡ shown_row self.now.rows plan }
    {
        if plan == 0 {
            return None;
        }
        match self.rows.get((plan - 1) as usize) {
            Some(row) => *row,
            None => None,
        }
    }
}

impl<A: Allocator + Copy> Absorb<Operation<A>> for Board<A> {
    ghost use Rattle.flow_desk.specs.Boards.{absorbed};

    type State = Board<A>;

    ghost state = { λ b. b };

    ghost applied = { absorbed };

    ghost never_fails = { Unit {0} };

    fn absorb_first(
        &mut self,
        operation: &Operation<A>,
        _other: &Board<A>,
    ) -> Result<(), AllocError> {
        put_rows(self.rows.as_mut_slice(), operation.changes.as_slice());
        self.count = operation.number;
        self.front = operation.front.again();
        Ok(())
    }
}
