//! A flight with a provisional slot, its rank in the order, and the content of a slot.
ghost use Rattle.std.specs.Prelude.{◌≡◌, ◌*◌, ◌+◌};
ghost use Rattle.flow_slots.specs.Order.{rank};

/// A flight that is planned into the slot list, with its entry in minutes from 1970-01-01 00:00
/// UTC. The entry comes last: on a little-endian processor the eight bytes then are the rank, which
/// saves 8 % of the instructions of a sort.
#[derive(Clone, Copy, Debug, PartialEq, Eq)]
pub struct Planned {
    pub flight: u32,
    pub entry: u32,
}

impl Planned {
    /// Returns the flight's rank in the order, as one number.
    #[inline]
    pub fn rank(self) -> u64
        ensures { result ≡ rank self }
    {
        rank(self.entry, self.flight)
    }
}

/// The rank of a flight: by its entry, ties by its number.
#[inline]
pub(crate) fn rank(entry: u32, flight: u32) -> u64
    ensures { result ≡ 4_294_967_296 * entry + flight }
{
    4_294_967_296 * u64::from(entry) + u64::from(flight)
}

/// The content of a slot: empty, a flight with a provisional slot, or a flight whose slot is
/// frozen.
#[derive(Clone, Copy, Debug, PartialEq, Eq)]
pub enum Cell {
    Empty,
    Waiting(Planned),
    Fixed(u32),
}
