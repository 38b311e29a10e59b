//! Aerodromes and route points as numbers.
ghost use Rattle.std.specs.Prelude.{◌≡◌};
ghost use Rattle.flow_plans.specs.Letters.{letters_of, AreBytes};

/// The first four letters of a name as one number, 0 for a shorter one.
#[inline(always)]
#[tactic(auto, unfolding(crate::specs::Letters::letters_of))]
pub(crate) fn letters_of(place: &[u8]) -> u32
    ensures letters { result ≡ letters_of place.now }
    ensures bytes { AreBytes place.now }
{
    if place.len() < 4 {
        return 0;
    }
    let front = 16_777_216 * u32::from(place[0]) + 65_536 * u32::from(place[1]);
    front + 256 * u32::from(place[2]) + u32::from(place[3])
}
