//! The state of a flight in a slot list.
ghost use Rattle.std.specs.Prelude.{◌≡◌, ◌↔◌, true};

use fpl_text::Minute;

/// The state of a flight in a slot list: absent, with a provisional slot by its entry, or with a
/// frozen slot.
#[derive(Clone, Copy, Debug, Drop, PartialEq, Eq)]
pub enum Place {
    Absent,
    Waiting { entry: Minute },
    Fixed { slot: u32 },
}

impl Place {
    pub(crate) fn is(&self, other: &Place) -> bool
        ensures { (result ≡ true) ↔ (self.now ≡ other.now) }
    {
        self == other
    }
}

/// The state of a flight in the slot list of the open regulation at an index, in the order of
/// opening.
#[derive(Clone, Copy, Debug, Drop, PartialEq, Eq)]
pub struct NotedPlace {
    pub index: usize,
    pub place: Place,
}
