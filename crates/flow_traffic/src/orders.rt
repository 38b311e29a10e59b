//! What orders change. Most filings are messages, so the code of orders is kept apart from theirs
//! (`inline(never)`).
ghost use Rattle.std.specs.Prelude.{◌≡◌};
ghost use Rattle.fpl_message.specs.Messages.{open_reg, shut_reg, set_time};
ghost use Rattle.fpl_message.specs.Reads.{ord};
ghost use Rattle.flow_plans.specs.Settings.{IsDeskTime};
ghost use Rattle.flow_traffic.specs.Answering.{AnswersReading};

use crate::opening::shape_to_open;
use crate::traffic::Traffic;
use crate::undo::Last;
use crate::verdict::{Kind, Verdict};
use fpl_message::{OpenReg, Refusal};
use fpl_text::{Minute, Text};
use std::alloc::{AllocError, Allocator};

impl<A: Allocator + Copy> Traffic<A> {
    /// Opens a regulation, and returns the verdict on the order. Returns `Err` if allocation fails.
    #[inline(never)]
    pub(crate) fn open(&mut self, order: &OpenReg) -> Result<Verdict, AllocError>
        requires from { IsDeskTime order.now.from }
        requires to { IsDeskTime order.now.to }
        ensures { AnswersReading (ord (open_reg order.now)) self.old self.new result }
    {
        self.undoing.begin();
        let shape = match shape_to_open(order, &self.regulations) {
            Ok(shape) => shape,
            Err(refusal) => {
                self.undoing.finish(Last::Refused);
                return Ok(Verdict::Refused(refusal));
            }
        };
        let Ok(()) = self.regulations.open(
            self.alloc,
            order.id,
            order.place,
            shape,
            &self.plans,
            self.time,
        )
        else {
            return Err(AllocError);
        };
        let Ok(()) = self
            .undoing
            .note_fixed(&self.regulations, &order.id, &mut self.notified.notices)
        else {
            self.regulations.take_last();
            return Err(AllocError);
        };
        self.undoing
            .tell(&self.regulations, &self.plans, &mut self.notified);
        self.undoing.finish(Last::Open);
        Ok(accepted(Kind::Open))
    }

    /// Closes a regulation, and returns the verdict on the order. Returns `Err` if allocation
    /// fails.
    #[inline(never)]
    pub(crate) fn shut(&mut self, id: &Text<8>) -> Result<Verdict, AllocError>
        ensures { AnswersReading (ord (shut_reg id.now)) self.old self.new result }
    {
        self.undoing.begin();
        if !self.regulations.is_open(id) {
            self.undoing.finish(Last::Refused);
            return Ok(Verdict::Refused(Refusal::NoRegulation));
        }
        let Ok(()) = self
            .undoing
            .note_fixed(&self.regulations, id, &mut self.notified.notices)
        else {
            return Err(AllocError);
        };
        self.undoing.keep(self.regulations.shut(id));
        self.undoing
            .tell(&self.regulations, &self.plans, &mut self.notified);
        self.undoing.finish(Last::Shut);
        Ok(accepted(Kind::Shut))
    }

    /// Sets the desk's time, and returns the verdict on the order. Returns `Err` if allocation
    /// fails.
    #[inline(never)]
    pub(crate) fn set_time(&mut self, at: Minute) -> Result<Verdict, AllocError>
        requires { IsDeskTime at }
        ensures { AnswersReading (ord (set_time at)) self.old self.new result }
    {
        self.undoing.begin();
        if at.minutes() < self.time.minutes() {
            self.undoing.finish(Last::Refused);
            return Ok(Verdict::Refused(Refusal::TimeBack));
        }
        let earlier = self.time;
        let Ok(()) = self.undoing.make_room(0, self.queue.count()) else {
            return Err(AllocError);
        };
        self.undoing
            .take_due(&mut self.queue, &self.plans, earlier, at);
        let count = self.undoing.changed().len();
        let Ok(()) = self
            .undoing
            .make_room_to_tell(count, &mut self.notified.notices)
        else {
            self.queue.put_back(&self.plans, self.undoing.changed());
            return Err(AllocError);
        };
        self.regulations.advance_due(self.undoing.changed());
        self.time = at;
        self.undoing
            .tell(&self.regulations, &self.plans, &mut self.notified);
        self.undoing.finish(Last::Time { earlier });
        Ok(accepted(Kind::Time))
    }
}

/// The verdict on an accepted order.
fn accepted(kind: Kind) -> Verdict
    ensures { result ≡ Verdict.Accepted kind 0 }
{
    Verdict::Accepted { kind, plan: 0 }
}
