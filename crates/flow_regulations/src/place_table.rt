//! Which regulations are where: for each row of points (`row_of`) a bit mask of the regulations
//! that may be there. If a bit isn't set, the regulation isn't at a point of that row.
ghost use Rattle.std.specs.Prelude.{◌≡◌, ◌<◌, ◌≤◌, ◌++◌, ◌∷◌, [], ℕ, List, Some, length};
ghost use Rattle.std.specs.List.{remove};
ghost use Rattle.flow_plans.specs.Plans.{PlanView, plan_at};
ghost use Rattle.flow_regulations.specs.Listing.{RegulationView};
ghost use Rattle.flow_regulations.specs.Marks.{mask_of, AreInRows, MarksNear, IsOpenedIn};

use crate::held_marks::{close_place, make_room, with_place};
use crate::regulation::Regulation;
use flow_plans::{PlanStore, ROWS};
use std::alloc::{AllocError, Allocator, Global};
use std::marker::Model;

/// The last row of the table.
const LAST_ROW: u32 = ROWS - 1;

/// For each row of points a bit mask of the regulations that may be there. Contracts see the masks,
/// by row.
#[derive(Drop)]
pub(crate) struct PlaceTable<A: Allocator + Copy = Global> {
    rows: Vec<u64, A>,
}

impl<A: Allocator + Copy> Model for PlaceTable<A> {
    ghost use Rattle.std.specs.Prelude.{ℕ, List};

    ghost Value = { List ℕ };

    ghost view = { λ t. t.rows.items };
}

impl<A: Allocator + Copy> PlaceTable<A> {
    /// No rows: each regulation may be at each point. Allocates nothing.
    pub(crate) fn new(alloc: A) -> Self
        ensures { (lists : List RegulationView) → AreInRows result 0 lists }
    {
        PlaceTable {
            rows: Vec::new(alloc),
        }
    }

    /// Makes the rows, if there are none. Returns `Err` if allocation fails.
    pub(crate) fn make(&mut self, alloc: A) -> Result<(), AllocError>
        ensures { (lists : List RegulationView) → AreInRows self.old 0 lists
            → AreInRows self.new 0 lists }
    {
        make_room(&mut self.rows, alloc, LAST_ROW)
    }

    /// A bit mask of the regulations that may apply to the flight of plan `number`.
    pub(crate) fn near(&self, plans: &PlanStore<A>, number: u32) -> u64
        requires some { 0 < number }
        requires within { number ≤ length plans.now.plans }
        ensures { (lists : List RegulationView) → AreInRows self.now 0 lists
            → (p : PlanView) → plan_at plans.now.plans number ≡ Some p
            → MarksNear result plans.now.taxi p lists }
    {
        plans.near(number, &self.rows)
    }

    /// Sets the bit of a regulation that is opened after these, in the row of its point.
    pub(crate) fn open(&mut self, regulations: &[Regulation<A>], opened: &Regulation<A>)
        ensures { AreInRows self.old 0 regulations.now
            → AreInRows self.new 0 (regulations.now ++ opened.now ∷ []) }
    {
        open_row(&mut self.rows, regulations.len(), opened.row());
    }

    /// Removes the bits of the regulation at this index, which is closed.
    pub(crate) fn close(&mut self, index: usize)
        ensures { (lists : List RegulationView) → AreInRows self.old 0 lists
            → AreInRows self.new 0 (remove lists index) }
    {
        close_place(&mut self.rows, index);
    }

    /// Discards the rows: each regulation may be at each point.
    pub(crate) fn clear(&mut self)
        ensures { (lists : List RegulationView) → AreInRows self.new 0 lists }
    {
        self.rows.clear();
    }
}

/// Sets the bit of a regulation of row `own` that is opened at `index`, the last.
fn open_row(table: &mut [u64], index: usize, own: usize)
    ensures { (row : ℕ) → IsOpenedIn own index row (mask_of table.old row) (mask_of table.new row) }
{
    for (row, word) in table.iter_mut().enumerate() {
        *word = with_place(*word, index, row == own);
    }
}
