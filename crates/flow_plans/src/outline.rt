//! Where and when a regulation may apply to a flight, and whether its plan is filed, in few bytes.
//!
//! Most flights never enter a regulated point, or not in its period. Their outlines, the index
//! entries of the plans, say so without a read of the plan. The outline also has the entry of a
//! flight at a regulated departure.
ghost use Rattle.std.specs.Prelude.{◌≡◌, ◌≤◌};
ghost use Rattle.flow_plans.specs.Outlines.{may_come, may_fly, outlined_moment};
ghost use Rattle.flow_plans.specs.Outlines.{departure, IsOutlineOf};
ghost use Rattle.flow_plans.specs.declared.setup.TheConstants.{MAX_TAXI};

use crate::first_letters::letters_of;
use crate::plan::Plan;
use fpl_items::may_have;
use fpl_message::Spot;
use fpl_text::Minute;
use std::alloc::Allocator;

/// The points at which a regulation may apply to a flight and when, and whether its plan is filed.
#[derive(Clone, Copy, Debug)]
pub(crate) struct PlanIndexEntry {
    /// The letters of the departure, as `letters_of` returns them.
    dep: u32,
    /// Those of the destination.
    dest: u32,
    /// The set of the route points, by a bit of each name.
    way: u64,
    off_block: Minute,
    /// The minutes from take-off to the last point that the flight enters, or more.
    longest: u16,
    is_filed: bool,
}

const _: () = prove!(size_of::<PlanIndexEntry>() <= 24);

impl PlanIndexEntry {
    /// The outline of a plan. If no regulation applies to the flight, wherever it is, the outline
    /// enters no point.
    pub(crate) fn of<A: Allocator + Copy>(plan: &Plan<A>) -> PlanIndexEntry
        ensures { IsOutlineOf result plan.now }
    {
        let off_block = plan.off_block();
        let is_filed = plan.is_filed();
        if !plan.may_be_subject() {
            return PlanIndexEntry {
                dep: 0,
                dest: 0,
                way: 0,
                off_block,
                longest: 0,
                is_filed,
            };
        }
        let key = plan.key();
        PlanIndexEntry {
            dep: letters_of(key.dep.as_bytes()),
            dest: letters_of(key.dest.as_bytes()),
            way: plan.way(),
            off_block,
            longest: plan.longest(),
            is_filed,
        }
    }

    /// Whether the flight may enter a point.
    #[inline(always)]
    #[tactic(auto, unfolding(crate::specs::Outlines::may_come))]
    pub(crate) fn may_come(&self, spot: &Spot) -> bool
        ensures { result ≡ may_come spot.now self.now }
    {
        match spot {
            Spot::Dep(place) => self.dep == letters_of(place.as_bytes()),
            Spot::Arr(place) => self.dest == letters_of(place.as_bytes()),
            Spot::Via(place) => may_have(self.way, place.as_bytes()),
        }
    }

    /// The entry of the flight at its departure of these letters, if a regulation of that aerodrome
    /// and period applies to it. None applies to a flight that departs in the air.
    #[inline(always)]
    #[tactic(auto, unfolding(crate::specs::Outlines::departure))]
    pub(crate) fn departure(
        &self,
        taxi: u32,
        letters: u32,
        start: Minute,
        end: Minute,
    ) -> Option<Minute>
        requires { taxi ≤ MAX_TAXI }
        ensures { result ≡ departure taxi letters start end self.now }
    {
        if self.dep != letters || letters == letters_of(b"AFIL") {
            return None;
        }
        let take_off = self.off_block.minutes() + taxi;
        if take_off < start.minutes() || end.minutes() <= take_off {
            return None;
        }
        Some(Minute::from_minutes(take_off))
    }

    /// The off-block date and time, if the plan is filed.
    #[inline(always)]
    pub(crate) fn filed_off_block(&self) -> Option<Minute>
        ensures { result ≡ outlined_moment self.now }
    {
        if self.is_filed {
            Some(self.off_block)
        } else {
            None
        }
    }

    /// The off-block date and time.
    #[inline(always)]
    pub(crate) fn off_block(&self) -> Minute
        ensures { result ≡ self.now.off_block }
    {
        self.off_block
    }

    /// The minutes from take-off to the last point that the flight enters, or more.
    #[inline(always)]
    fn longest(&self) -> u16
        ensures { result ≡ self.now.longest }
    {
        self.longest
    }

    /// Whether the flight takes off before the end of a period, and may not yet be over at its
    /// start.
    #[inline(always)]
    #[tactic(auto, unfolding(crate::specs::Outlines::may_fly))]
    pub(crate) fn may_fly(&self, taxi: u32, start: Minute, end: Minute) -> bool
        ensures { result ≡ may_fly taxi start end self.now }
    {
        let take_off = u64::from(self.off_block.minutes()) + u64::from(taxi);
        let last = take_off + u64::from(self.longest());
        take_off < u64::from(end.minutes()) && u64::from(start.minutes()) <= last
    }
}
