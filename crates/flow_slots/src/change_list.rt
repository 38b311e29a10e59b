//! The calls that change a slot list as values, so that a list of them can be applied and undone.
ghost use Rattle.std.specs.Prelude.{◌≡◌};
ghost use Rattle.flow_slots.specs.ChangeList.{May, changed, MayAll, changed_by};

use crate::slot_list::SlotList;
use fpl_text::Minute;
use std::alloc::Allocator;

/// A call that changes a slot list.
#[derive(Clone, Copy, Debug, PartialEq, Eq)]
pub enum Change {
    Insert { flight: u32, entry: Minute },
    Remove { flight: u32 },
    Fix { flight: u32 },
    Release { flight: u32, entry: Minute },
    PutFixed { flight: u32, slot: u32 },
}

impl<A: Allocator + Copy> SlotList<A> {
    /// Applies one change, whose conditions hold.
    fn change(&mut self, change: Change)
        requires { May change self.old.lineup }
        ensures { self.new.lineup ≡ changed change self.old.lineup }
    {
        match change {
            Change::Insert { flight, entry } => self.insert(flight, entry),
            Change::Remove { flight } => self.remove(flight),
            Change::Fix { flight } => self.fix(flight),
            Change::Release { flight, entry } => self.release(flight, entry),
            Change::PutFixed { flight, slot } => self.put_fixed(flight, slot),
        }
    }

    /// Applies changes in turn, each under its conditions: the row then has the fresh allocation of
    /// the lineup that the changes leave.
    pub fn change_all(&mut self, changes: &[Change])
        requires { MayAll changes.now self.old.lineup }
        ensures { self.new.lineup ≡ changed_by changes.now self.old.lineup }
    {
        for change in changes {
            self.change(*change);
        }
    }
}
