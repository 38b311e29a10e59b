//! One estimate of an EET item, as it is recorded, and bit sets of route points.
//!
//! Each point has one of 64 bits, which some share. If the bit of a point isn't set, the point
//! isn't in the set.

ghost use Rattle.std.specs.Prelude.{◌≡◌, ◌<◌, ◌≤◌, length, true, List, ℕ};
ghost use Rattle.fpl_items.specs.Points.{stored_name, bit_of, may_have};
ghost use Rattle.fpl_text.specs.declared.time.TheConstants.{ELAPSED_LIMIT};

/// The estimated elapsed time to a route point. The name of the point is stored in the value
/// itself, so it is compared without reading the field.
#[derive(Clone, Copy, Debug)]
pub struct Estimate {
    /// The name of the point: its bytes, zeros up to the eleventh, and its length.
    name: [u8; 12],
    /// From take-off to the point, in minutes.
    minutes: u16,
    ghost bound: { minutes < ELAPSED_LIMIT },
}

impl Estimate {
    ghost use Rattle.fpl_items.specs.Estimates.{is_for};

    /// An estimate for the point `place`.
    pub(crate) fn new(place: &[u8], minutes: u32) -> Estimate
        requires place { length place.now ≤ 11 }
        requires minutes { minutes < ELAPSED_LIMIT }
        ensures { (result.name ≡ stored_name place.now) × (result.minutes ≡ minutes) }
    {
        Estimate {
            name: name_of(place),
            minutes: minutes as u16,
        }
    }

    /// The minutes from take-off to the point.
    pub(crate) fn minutes(&self) -> u32
        ensures value { result ≡ self.now.minutes }
        ensures bound { result < ELAPSED_LIMIT }
    {
        u32::from(self.minutes)
    }

    /// Whether the estimate is for the point `place`, of which `name` is the stored form. Names
    /// that differ mostly do in the fourth letter, so that is compared first.
    #[inline]
    #[tactic(auto, unfolding(crate::specs::Estimates::is_for))]
    pub(crate) fn is_for(&self, place: &[u8], name: &[u8; 12]) -> bool
        requires place { length place.now ≤ 11 }
        requires name { name.now ≡ stored_name place.now }
        ensures { result ≡ is_for place.now self.now }
    {
        if self.name[3] != name[3] {
            return false;
        }
        self.name == *name
    }
}

/// The bit of a point, below 64.
#[inline]
#[tactic(auto, unfolding(crate::specs::Points::bit_of))]
pub fn bit_of(place: &[u8]) -> u32
    ensures value { result ≡ bit_of place.now }
    ensures bound { result < 64 }
{
    if place.len() < 4 {
        return 0;
    }
    let second = u32::from(place[1]);
    let third = u32::from(place[2]);
    let fourth = u32::from(place[3]);
    (7 * second + 2 * third + fourth) % 64
}

/// Whether a point may be in a set: whether its bit is set.
#[inline]
pub fn may_have(places: u64, place: &[u8]) -> bool
    ensures { result ≡ may_have places place.now }
{
    (places >> bit_of(place)) % 2 == 1
}

/// The set with one more point.
pub(crate) fn with_place(places: u64, place: &[u8]) -> u64
    ensures added { may_have result place.now ≡ true }
    ensures kept { (other : List ℕ) → may_have places other ≡ true → may_have result other ≡ true }
{
    places | 1 << bit_of(place)
}

/// The stored form of a name: 12 bytes. Most points have four letters, for which it is put together
/// in registers.
#[inline]
#[tactic(auto, using(crate::proofs::Notes::name_of_four))]
pub(crate) fn name_of(place: &[u8]) -> [u8; 12]
    requires { length place.now ≤ 11 }
    ensures { result ≡ stored_name place.now }
{
    if place.len() == 4 {
        return [
            place[0], place[1], place[2], place[3], 0, 0, 0, 0, 0, 0, 0, 4,
        ];
    }
    name_by_bytes(place)
}

/// The stored form of any name, byte by byte.
#[inline(never)]
fn name_by_bytes(place: &[u8]) -> [u8; 12]
    requires { length place.now ≤ 11 }
    ensures { result ≡ stored_name place.now }
{
    let mut name = [0; 12];
    name[..place.len()].copy_from_slice(place);
    name[11] = place.len() as u8;
    name
}
