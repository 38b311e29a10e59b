//! What undoes the last reading.
ghost use Rattle.std.specs.Prelude.{◌≡◌, ◌≤◌, ◌<◌, ◌+◌, ◌++◌, ◌∷◌, []};
ghost use Rattle.std.specs.Prelude.{OnOk, IfSome, length, map, take, vec_capacity};
ghost use Rattle.std.specs.List.{All};
ghost use Rattle.std.specs.List.Sorted.{IsNonDecreasing, IsStrictlyIncreasing};
ghost use Rattle.flow_regulations.specs.Listing.{MayReopen, HoldNewlyDue, regulation_of};
ghost use Rattle.flow_regulations.specs.Notices.{notices_from, told_from};
ghost use Rattle.flow_regulations.specs.Quiet.{AreQuietBut, AllQuiet};
ghost use Rattle.flow_regulations.specs.SlotStates.{ArePlaces};
ghost use Rattle.flow_regulations.specs.Awaiting.{Covers, BecameDue};
ghost use Rattle.flow_traffic.specs.Traffic.{told_of};
ghost use Rattle.flow_traffic.specs.Kept.{AreFixedIn};
ghost use Rattle.flow_traffic.specs.Reopening.{open_again};
ghost use Rattle.flow_traffic.specs.Telling.{AreTold, told_again};
ghost use Rattle.flow_traffic.specs.Undoing.{has_changed, state_past, CanUndo, IsAgain};

use crate::notified::Notified;
use flow_plans::PlanStore;
use flow_regulations::{Closed, DueQueue, NotedPlace, Notice, Regulations, Told};
use fpl_text::{Minute, Text};
use std::alloc::{AllocError, Allocator, Global};
use std::marker::Model;

/// The last reading, with what it replaced.
#[derive(Clone, Copy, Debug)]
pub(crate) enum Last {
    /// None, or it was undone.
    Nothing,
    /// It was refused.
    Refused,
    /// It was a message about plan `number`.
    Message { number: u32 },
    /// It was TIME, and the desk's time was `earlier` before.
    Time { earlier: Minute },
    /// It was OPEN.
    Open,
    /// It was SHUT.
    Shut,
}

/// What undoes the last reading, recorded while that is carried out. Contracts see all of it, and
/// the capacities.
#[derive(Drop)]
pub(crate) struct Undoing<A: Allocator + Copy = Global> {
    /// Which reading it was.
    which: Last,
    /// The slots that the flight of a message had before.
    places: Vec<NotedPlace, A>,
    /// The numbers of the plans whose slots it may have changed, rising.
    changed: Vec<u32, A>,
    /// The CTOT issued to each of those before, in the same order.
    noted: Vec<Option<Told>, A>,
    /// The regulation that was closed last, until it is opened again.
    closed: Option<Closed<A>>,
    /// The number of notices before.
    issued: usize,
}

impl<A: Allocator + Copy> Model for Undoing<A> {
    ghost use Rattle.std.specs.Prelude.{vec_capacity};
    ghost use Rattle.flow_traffic.specs.Undoing.{UndoingView};

    ghost Value = { UndoingView };

    ghost view = { λ u. record {
      which = u.which;
      places = u.places.items;
      changed = u.changed.items;
      noted = u.noted.items;
      closed = u.closed;
      issued = u.issued;
      room = record {
        places = vec_capacity u.places;
        numbers = vec_capacity u.changed;
        told = vec_capacity u.noted;
      };
    } };
}

impl<A: Allocator + Copy> Undoing<A> {
    /// No reading that could be undone. Allocates nothing.
    pub(crate) fn new(alloc: A) -> Self
        ensures { result.which ≡ Last.Nothing }
    {
        Undoing {
            which: Last::Nothing,
            places: Vec::new(alloc),
            changed: Vec::new(alloc),
            noted: Vec::new(alloc),
            closed: None,
            issued: 0,
        }
    }

    /// Which reading it was.
    pub(crate) fn which(&self) -> Last
        ensures { result ≡ self.now.which }
    {
        self.which
    }

    /// Whether the reading may have changed anything: it was not refused, and can be undone.
    pub(crate) fn has_changed(&self) -> bool
        ensures { result ≡ has_changed self.now.which }
    {
        match self.which {
            Last::Nothing => false,
            Last::Refused => false,
            _ => true,
        }
    }

    /// The numbers of the plans whose slots the reading may have changed.
    pub(crate) fn changed(&self) -> &[u32]
        ensures { result.now ≡ self.now.changed }
    {
        self.changed.as_slice()
    }

    /// The CTOTs issued to those plans before.
    pub(crate) fn noted(&self) -> &[Option<Told>]
        ensures { result.now ≡ self.now.noted }
    {
        self.noted.as_slice()
    }

    /// Begins a reading: the one before can't be undone any more.
    pub(crate) fn begin(&mut self)
        ensures { self.new
            ≡ record self.old { which = Last.Nothing; places = []; changed = []; noted = [] } }
    {
        self.which = Last::Nothing;
        self.places.clear();
        self.changed.clear();
        self.noted.clear();
    }

    /// Reserves capacity for `places` slots and `numbers` plan numbers. Returns `Err` if allocation
    /// fails.
    pub(crate) fn make_room(&mut self, places: usize, numbers: usize) -> Result<(), AllocError>
        ensures same { self.new ≡ record self.old { room = self.new.room } }
        ensures told { self.new.room.told ≡ self.old.room.told }
        ensures places { OnOk result (places ≤ self.new.room.places) }
        ensures numbers { OnOk result (numbers ≤ self.new.room.numbers) }
    {
        self.places.reserve(places)?;
        self.changed.reserve(numbers)
    }

    /// Reserves capacity for `count` notices, and for the CTOTs issued before to `count` plans.
    /// Returns `Err` if allocation fails.
    pub(crate) fn make_room_to_tell(
        &mut self,
        count: usize,
        notices: &mut Vec<Notice, A>,
    ) -> Result<(), AllocError>
        ensures same { self.new ≡ record self.old { room = self.new.room } }
        ensures places { self.new.room.places ≡ self.old.room.places }
        ensures numbers { self.new.room.numbers ≡ self.old.room.numbers }
        ensures told { OnOk result (count ≤ self.new.room.told) }
        ensures notices { notices.new.items ≡ notices.old.items }
        ensures room { OnOk result (length notices.new.items + count ≤ vec_capacity notices.new) }
    {
        self.noted.reserve(count)?;
        notices.reserve(count)
    }

    /// Records the plan that a message is about, and the slots of its flight. The caller has
    /// reserved the capacity.
    pub(crate) fn note(&mut self, number: u32, regulations: &Regulations<A>)
        requires none { self.old.changed ≡ [] }
        requires places { length regulations.now.lists ≤ self.old.room.places }
        requires room { 1 ≤ self.old.room.numbers }
        ensures places { ArePlaces number self.new.places regulations.now.lists }
        ensures changed { self.new.changed ≡ number ∷ [] }
        ensures others { self.new
            ≡ record self.old { places = self.new.places; changed = self.new.changed } }
    {
        regulations.note_places(number, &mut self.places);
        self.changed.push_reserved(number);
    }

    /// Records the flights with frozen slots in the open regulation `id`, and reserves capacity for
    /// the CTOT issued before and a notice to each. Returns `Err` if allocation fails.
    pub(crate) fn note_fixed(
        &mut self,
        regulations: &Regulations<A>,
        id: &Text<8>,
        notices: &mut Vec<Notice, A>,
    ) -> Result<(), AllocError>
        ensures fixed { OnOk result (AreFixedIn id.now regulations.now.lists self.new.changed) }
        ensures others { self.new
            ≡ record self.old { changed = self.new.changed; room = self.new.room } }
        ensures told { OnOk result (length self.new.changed ≤ self.new.room.told) }
        ensures notices { notices.new.items ≡ notices.old.items }
        ensures room { OnOk result
            (length notices.new.items + length self.new.changed ≤ vec_capacity notices.new) }
    {
        regulations.note_fixed(id, &mut self.changed)?;
        let count = self.changed.len();
        self.make_room_to_tell(count, notices)
    }

    /// Takes the flights that have become due from `earlier` to `now` out of the queue, and records
    /// their numbers. The caller has reserved as much capacity as the queue has flights.
    pub(crate) fn take_due(
        &mut self,
        queue: &mut DueQueue<A>,
        plans: &PlanStore<A>,
        earlier: Minute,
        now: Minute,
    )
        requires { length queue.old.flights ≤ self.old.room.numbers }
        ensures became { All (BecameDue earlier now plans.now.plans) self.new.changed }
        ensures rising { IsStrictlyIncreasing self.new.changed }
        ensures each { Covers earlier plans.now.plans queue.old.flights
            → HoldNewlyDue earlier now plans.now.plans self.new.changed }
        ensures covers { earlier ≤ now → Covers earlier plans.now.plans queue.old.flights
            → Covers now plans.now.plans queue.new.flights }
        ensures remaining { length queue.new.flights + length self.new.changed
            ≤ length queue.old.flights }
        ensures fits { length queue.new.flights + length self.new.changed ≤ queue.new.room }
        ensures others { self.new ≡ record self.old { changed = self.new.changed } }
    {
        queue.take_due(plans, earlier, now, &mut self.changed);
    }

    /// Keeps the regulation that was closed.
    pub(crate) fn keep(&mut self, closed: Option<Closed<A>>)
        ensures { self.new ≡ record self.old { closed = closed } }
    {
        self.closed = closed;
    }

    /// Issues slots to the recorded plans, and records the CTOTs issued to them before and the
    /// number of notices. The caller has reserved the capacity.
    pub(crate) fn tell(
        &mut self,
        regulations: &Regulations<A>,
        plans: &PlanStore<A>,
        notified: &mut Notified<A>,
    )
        requires each { length notified.old.told.items ≡ length plans.now.plans }
        requires rising { IsNonDecreasing self.old.changed }
        requires numbers { All (λ n. (0 < n) × (n ≤ length plans.now.plans)) self.old.changed }
        requires none { self.old.noted ≡ [] }
        requires noted { length self.old.changed ≤ self.old.room.told }
        requires room { length notified.old.notices.items + length self.old.changed
            ≤ vec_capacity notified.old.notices }
        requires quiet { AreQuietBut self.old.changed plans.now.taxi
            (map regulation_of regulations.now.lists) plans.now.plans notified.old.told.items }
        ensures told { notified.new.told.items
            ≡ told_from 1 plans.now.taxi (map regulation_of regulations.now.lists) plans.now.plans
            notified.old.told.items }
        ensures notices { notified.new.notices.items
            ≡ notified.old.notices.items ++ notices_from 1 plans.now.taxi
            (map regulation_of regulations.now.lists) plans.now.plans notified.old.told.items }
        ensures quiet { AllQuiet plans.now.taxi
            (map regulation_of regulations.now.lists) plans.now.plans notified.new.told.items }
        ensures each { length notified.new.told.items ≡ length plans.now.plans }
        ensures few { length notified.new.notices.items
            ≤ length notified.old.notices.items + length self.old.changed }
        ensures again { told_again self.old.changed self.new.noted notified.new.told.items
            ≡ notified.old.told.items }
        ensures were { self.new.noted ≡ map (told_of notified.old.told.items) self.old.changed }
        ensures count { length self.new.noted ≡ length self.old.changed }
        ensures others { self.new ≡ record self.old {
          noted = self.new.noted;
          issued = length notified.old.notices.items;
        } }
    {
        self.issued = notified.notices.len();
        note_told(&self.changed, &notified.told, &mut self.noted);
        let (told, notices) = (&mut notified.told, &mut notified.notices);
        regulations.tell(plans, &self.changed, told, notices);
    }

    /// Ends the reading, which was this one.
    pub(crate) fn finish(&mut self, which: Last)
        ensures { self.new ≡ record self.old { which = which } }
    {
        self.which = which;
    }

    /// Undoes the changes of the last reading to the time, the plans, the regulations and the
    /// queue. Allocates nothing.
    pub(crate) fn put_back(
        &mut self,
        time: &mut Minute,
        plans: &mut PlanStore<A>,
        regulations: &mut Regulations<A>,
        queue: &mut DueQueue<A>,
    )
        requires can { CanUndo self.old.which self.old
            (record {
              time = time.old;
              store = plans.old;
              listing = regulations.old;
              queue = queue.old;
            }) }
        requires covers { Covers time.old plans.old.plans queue.old.flights }
        ensures again { IsAgain
            (state_past self.old.which self.old
            (record {
              time = time.old;
              store = plans.old;
              listing = regulations.old;
              queue = queue.old;
            }))
            (record {
              time = time.new;
              store = plans.new;
              listing = regulations.new;
              queue = queue.new;
            }) }
        ensures others { self.new ≡ record self.old { closed = self.new.closed } }
    {
        let which = self.which;
        match which {
            Last::Nothing => {}
            Last::Refused => {}
            Last::Message { number } => {
                plans.take_back();
                regulations.put_back(number, &self.places);
            }
            Last::Time { earlier } => {
                queue.put_back(plans, &self.changed);
                regulations.release_all(plans, &self.changed);
                *time = earlier;
            }
            Last::Open => regulations.take_last(),
            Last::Shut => reopen(&mut self.closed, regulations),
        }
    }

    /// Restores the CTOTs issued to the recorded plans, for `plans` plans, and removes the notices
    /// since.
    pub(crate) fn untell(&self, plans: u32, notified: &mut Notified<A>)
        requires numbers { All
            (λ n. (0 < n) × (n ≤ length notified.old.told.items)) self.now.changed }
        requires each { length self.now.noted ≡ length self.now.changed }
        ensures told { notified.new.told.items
            ≡ take plans (told_again self.now.changed self.now.noted notified.old.told.items) }
        ensures notices { notified.new.notices.items
            ≡ take self.now.issued notified.old.notices.items }
    {
        tell_again(&self.changed, &self.noted, &mut notified.told);
        notified.told.truncate(plans as usize);
        notified.notices.truncate(self.issued);
    }
}

/// Records the CTOTs last issued to these plans.
fn note_told<A: Allocator + Copy>(
    changed: &[u32],
    told: &[Option<Told>],
    noted: &mut Vec<Option<Told>, A>,
)
    requires numbers { All (λ n. (0 < n) × (n ≤ length told.now)) changed.now }
    requires none { noted.old.items ≡ [] }
    requires room { length changed.now ≤ vec_capacity noted.old }
    ensures noted { AreTold changed.now told.now noted.new.items }
    ensures each { length noted.new.items ≡ length changed.now }
    ensures capacity { vec_capacity noted.new ≡ vec_capacity noted.old }
{
    for number in changed {
        noted.push_reserved(told[(*number - 1) as usize]);
    }
}

/// Restores the CTOTs issued to these plans.
fn tell_again<A: Allocator + Copy>(
    changed: &[u32],
    noted: &[Option<Told>],
    told: &mut Vec<Option<Told>, A>,
)
    requires numbers { All (λ n. (0 < n) × (n ≤ length told.old.items)) changed.now }
    requires each { length noted.now ≡ length changed.now }
    ensures { told.new.items ≡ told_again changed.now noted.now told.old.items }
{
    for (index, number) in changed.iter().enumerate() {
        told[(*number - 1) as usize] = noted[index];
    }
}

/// Opens a closed regulation again, at its former index.
fn reopen<A: Allocator + Copy>(closed: &mut Option<Closed<A>>, regulations: &mut Regulations<A>)
    requires { IfSome closed.old (λ c. MayReopen c regulations.old) }
    ensures limit { regulations.new.max_plans ≡ regulations.old.max_plans }
    ensures lists { regulations.new.lists ≡ open_again closed.old regulations.old.lists }
{
    if let Some(closed) = closed.take() {
        regulations.reopen(closed);
    }
}
