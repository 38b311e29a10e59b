//! The traffic of a desk: plans, open regulations, and what was issued to plans.
ghost use Rattle.std.specs.Prelude.{◌≡◌, ◌≤◌, ◌<◌, ◌+◌, ◌-◌, IfOk, IsSome};
ghost use Rattle.std.specs.Prelude.{OnErr, OnOk, Some, None, IsTrue, ◌↔◌};
ghost use Rattle.std.specs.Prelude.{MatchOption, length, map, slice_get, option_copied};
ghost use Rattle.fpl_message.specs.Said.{said};
ghost use Rattle.flow_plans.specs.Settings.{IsDeskTime};
ghost use Rattle.flow_regulations.specs.Listing.{IsListed, regulation_of};
ghost use Rattle.flow_traffic.specs.Traffic.{no_traffic, slots_of};
ghost use Rattle.flow_traffic.specs.Answers.{Answers, HasDeskMoments};
ghost use Rattle.flow_traffic.specs.Memory.{MayTakeMemory};
ghost use Rattle.flow_traffic.specs.Frozen.{FrozenPairsStay};
ghost use Rattle.flow_plans.specs.declared.setup.TheConstants.{MAX_PLANS};

use crate::notified::Notified;
use crate::undo::{Last, Undoing};
use crate::verdict::Verdict;
use flow_plans::{Plan, PlanStore, Setup};
use flow_regulations::{DueQueue, Notice, Regulation, Regulations, Told};
use flow_slots::SlotList;
use fpl_message::{Order, Reading};
use fpl_text::{Minute, Text};
use std::alloc::{AllocError, Allocator, Global};
use std::marker::Model;

/// The desk's time, plans, open regulations with their slot lists, the CTOT last issued to each
/// plan, and the notices issued. Contracts see them, and what they were before the last reading, if
/// that can be undone.
#[derive(Drop)]
pub struct Traffic<A: Allocator + Copy = Global> {
    pub(crate) alloc: A,
    pub(crate) time: Minute,
    pub(crate) plans: PlanStore<A>,
    pub(crate) regulations: Regulations<A>,
    /// The flights that aren't due yet.
    pub(crate) queue: DueQueue<A>,
    pub(crate) notified: Notified<A>,
    /// What undoes the last reading.
    pub(crate) undoing: Undoing<A>,
}

impl<A: Allocator + Copy> Model for Traffic<A> {
    ghost use Rattle.flow_traffic.specs.Traffic.{TrafficView};
    ghost use Rattle.flow_traffic.specs.State.{TrafficState, traffic_of};
    ghost use Rattle.flow_traffic.specs.Undoing.{undone_traffic, IsKeptWith};

    ghost Value = { TrafficView };

    ghost view = { λ t.
        let s : TrafficState =
        record { time = t.time; store = t.plans; listing = t.regulations; queue = t.queue } in
        record {
          traffic = traffic_of s t.notified.told.items t.notified.notices.items;
          before = undone_traffic t.undoing.which t.undoing s t.notified.told.items
              t.notified.notices.items;
        } };

    ghost invariant = { λ t. IsKeptWith t.undoing
        (record { time = t.time; store = t.plans; listing = t.regulations; queue = t.queue })
        t.notified.told.items };
}

impl<A: Allocator + Copy> Traffic<A> {
    /// No traffic, at the start time of the setup. Allocates nothing.
    pub fn new(alloc: A, setup: &Setup) -> Self
        ensures traffic { result.traffic ≡ no_traffic setup.now }
        ensures before { result.before ≡ None }
    {
        let max_plans = setup.max_plans();
        Traffic {
            alloc,
            time: setup.start(),
            plans: PlanStore::new(alloc, setup),
            regulations: Regulations::new(alloc, max_plans),
            queue: DueQueue::new(alloc),
            notified: Notified {
                told: Vec::new(alloc),
                notices: Vec::new(alloc),
            },
            undoing: Undoing::new(alloc),
        }
    }

    /// The desk's time.
    pub fn now(&self) -> Minute
        ensures value { result ≡ self.now.traffic.now }
        ensures years { IsDeskTime result }
    {
        self.time
    }

    /// Plan `number`, counted from 1. `None` if there is no such plan.
    pub fn plan(&self, number: u32) -> Option<&Plan<A>>
        ensures plan { 0 < number
            → option_copied result ≡ slice_get self.now.traffic.plans (number - 1) }
        ensures zero { number ≡ 0 → result ≡ None }
    {
        self.plans.plan(number)
    }

    /// The CTOT last issued to plan `number`, counted from 1, with the regulation that causes it.
    /// `None` if there is no such plan.
    pub fn told(&self, number: u32) -> Option<&Option<Told>>
        requires { 0 < number }
        ensures value { option_copied result ≡ slice_get self.now.traffic.told (number - 1) }
        ensures each { length self.now.traffic.told ≡ length self.now.traffic.plans }
    {
        self.notified.told.get((number - 1) as usize)
    }

    /// The notices issued, in order.
    pub fn notices(&self) -> &[Notice]
        ensures { result.now ≡ self.now.traffic.notices }
    {
        self.notified.notices.as_slice()
    }

    /// The open regulations, in order of opening, each with its slot list.
    pub fn regulations(&self) -> &[Regulation<A>]
        ensures open { map regulation_of result.now ≡ self.now.traffic.regulations }
        ensures lists { IsListed self.now.traffic.taxi self.now.traffic.max_plans
            self.now.traffic.plans result.now }
    {
        self.regulations.all()
    }

    /// The slot list of the open regulation `id`. `None` if no regulation of this name is open.
    pub fn slots(&self, id: &Text<8>) -> Option<&SlotList<A>>
        ensures { MatchOption result (slots_of self.now.traffic id.now ≡ None) (λ list.
            slots_of self.now.traffic id.now ≡ Some list.now.lineup) }
    {
        self.regulations.slots(id)
    }

    /// Carries out a reading, and returns the verdict on it. A refused one changes nothing. Frozen
    /// flights keep their slots, except the flight of an accepted DLA, CHG or CNL, and those of a
    /// regulation that is shut. An `Err`, returned if allocation fails, leaves all unchanged, but
    /// no reading can then be undone. An unreadable text and an order that is refused allocate
    /// nothing.
    #[inline(always)]
    pub fn answer(&mut self, reading: &Reading<A>) -> Result<Verdict, AllocError>
        requires { HasDeskMoments (said reading.now) }
        ensures answers { IfOk result
            (Answers (said reading.now) self.old.traffic self.new.traffic) }
        ensures frozen { IfOk result
            (FrozenPairsStay (said reading.now) self.old.traffic self.new.traffic) }
        ensures before { OnOk result (self.new.before ≡ Some self.old.traffic) }
        ensures err { OnErr result
            (self.new ≡ record { traffic = self.old.traffic; before = None }) }
        ensures memory { OnErr result (MayTakeMemory (said reading.now) self.old.traffic) }
        ensures grow { length self.old.traffic.notices ≤ length self.new.traffic.notices }
        ensures few { length self.new.traffic.notices
            ≤ length self.old.traffic.notices + MAX_PLANS }
    {
        match reading {
            Reading::Msg(message) => self.answer_message(message),
            Reading::Ord(Order::OpenReg(order)) => self.open(order),
            Reading::Ord(Order::ShutReg { id }) => self.shut(id),
            Reading::Ord(Order::SetTime { at }) => self.set_time(*at),
            Reading::Bad(refusal) => {
                self.undoing.finish(Last::Refused);
                Ok(Verdict::Refused(*refusal))
            }
        }
    }

    /// Whether the last reading can be undone: from an answer until the next reading, or until it
    /// is undone.
    pub fn can_take_back(&self) -> bool
        ensures { IsTrue result ↔ IsSome self.now.before }
    {
        match self.undoing.which() {
            Last::Nothing => false,
            _ => true,
        }
    }

    /// Undoes the last reading: the traffic is as it was before. Allocates nothing.
    pub fn take_back(&mut self)
        requires { IsSome self.old.before }
        ensures traffic { self.old.before ≡ Some self.new.traffic }
        ensures before { self.new.before ≡ None }
    {
        if !self.undoing.has_changed() {
            self.undoing.begin();
            return;
        }
        self.undoing.put_back(
            &mut self.time,
            &mut self.plans,
            &mut self.regulations,
            &mut self.queue,
        );
        let count = self.plans.count();
        self.undoing.untell(count, &mut self.notified);
        self.undoing.begin();
    }
}
