//! Feeders at their desk, each with a source of its own, in a thread of its own.
ghost use Rattle.std.specs.Prelude.{◌≡◌, ◌≢◌, ◌≤◌, ◌<◌, [], ℕ, List};
ghost use Rattle.std.specs.Prelude.{Option, length, slice_index_or, IfErr, OnOk};
ghost use Rattle.flow_input.specs.Writes.{Writes};
ghost use Rattle.flow_input.specs.Reader.{Agrees};
ghost use Rattle.flow_desk.specs.Histories.{IsLawful};
ghost use Rattle.flow_live.specs.Feeding.{EndsBy, FedUnlessStopped, HasServed, PieceIs};
ghost use Rattle.flow_live.specs.Feeding.{sink_failures, sink_failures_after, source_failures};
ghost use Rattle.flow_live.specs.Keeping.{AnswersOnly, AnswersSeen};

use crate::answering::{Batch, answer_taken};
use crate::fault::{FeedEnd, StopFault, Watch};
use crate::feed::Feed;
use crate::keeping::hand_on;
use crate::shared::Shared;
use flow_desk::{Name, Pass, Stored};
use flow_input::{Counted, Input, IntakeFault, take_frame};
use flow_log::Outside;
use std::alloc::{Allocator, Global};
use std::io::{Read, Write};
use std::mem::replace;
use std::sync::Wait;
use std::thread;
use std::thread::Threads;

/// A feeder at the desk: its pass and its feed.
#[derive(Drop)]
pub(crate) struct Seated<N: Name, R, W, A: Allocator + Copy = Global> {
    pub pass: Pass<N, A>,
    pub feed: Feed<R, W>,
}

/// Writes answers, and flushes them, since their reader may wait for them.
fn answer<N: Name, W: Write>(
    writer: &mut Counted<W>,
    answers: &[u8],
    stored: &Stored<N>,
) -> Result<(), FeedEnd>
    requires { AnswersOnly N.setup stored.now answers.now }
    ensures writes { Writes W.contents result writer.old writer.new answers.now }
    ensures kind { IfErr result (λ e. e ≡ FeedEnd.Write) }
{
    if hand_on(writer, answers, stored).is_err() {
        return Err(FeedEnd::Write);
    }
    match writer.flush() {
        Ok(()) => Ok(()),
        Err(_) => Err(FeedEnd::Write),
    }
}

/// The end of a feed from which no frame came.
fn end_of(fault: IntakeFault) -> FeedEnd
    requires { fault ≢ IntakeFault.OutOfMemory }
    ensures { EndsBy fault result }
{
    match fault {
        IntakeFault::Read => FeedEnd::Read,
        IntakeFault::TooMuch => FeedEnd::TooMuch,
        IntakeFault::OutOfMemory => unreachable!(),
    }
}

impl<N: Name, Q: Wait + Drop, K: Outside + Drop, H: Watch, P: Wait, A: Allocator + Copy> Shared<
    '_,
    N,
    Q,
    K,
    H,
    P,
    A,
> {
    /// Files the frame that was taken last and the complete ones after it, and writes their answers
    /// when their entries are stored.
    fn answer_piece<W: Write>(
        &self,
        input: &mut Input<A>,
        batch: &mut Batch<N, A>,
        pass: &mut Pass<N, A>,
        writer: &mut Counted<W>,
    ) -> Result<(), FeedEnd>
        requires none { batch.old.queue ≡ [] }
        requires seen { AnswersSeen N.setup pass.old batch.old.seen batch.old.answers.items }
        ensures piece { PieceIs result N.setup pass.old pass.new (W.contents writer.old.device)
            (W.contents writer.new.device) input.old input.new }
        ensures failures { writer.new.failures ≡ sink_failures_after result writer.old.failures }
        ensures agrees { OnOk result
            ((rest : Option (List ℕ)) → Agrees input.old rest → Agrees input.new rest) }
        ensures nearer { OnOk result (input.old.taken ≤ input.new.taken) }
        ensures none { OnOk result (batch.new.queue ≡ []) }
        ensures seen { OnOk result
            (AnswersSeen N.setup pass.new batch.new.seen batch.new.answers.items) }
    {
        batch.answers.clear();
        let Ok(()) = answer_taken(self.wait, self.alloc, &self.desk, pass, input, batch) else {
            return Err(FeedEnd::Stopped(self.stop(StopFault::OutOfMemory)));
        };
        let commit = self
            .keeping
            .commit(self.wait, self.alloc, &self.desk, &batch.seen);
        let stored = match commit {
            Ok(stored) => stored,
            Err(fault) => return Err(FeedEnd::Stopped(self.stop(fault))),
        };
        if let Some(fault) = self.bell.ring(self.wait) {
            return Err(FeedEnd::Stopped(fault));
        }
        answer(writer, batch.answers.as_slice(), &stored)
    }

    /// Answers a feed until it ends. Returns how it ended.
    fn serve_feed<R: Read, W: Write>(
        &self,
        pass: &mut Pass<N, A>,
        reader: &mut Counted<R>,
        writer: &mut Counted<W>,
    ) -> FeedEnd
        ensures fed { IsLawful N.setup pass.old.seen → FedUnlessStopped N.setup pass.old pass.new
            result (W.contents writer.old.device) (W.contents writer.new.device)
            (R.remaining reader.old.device) (R.remaining reader.new.device) }
        ensures source { reader.new.failures ≡ source_failures result reader.old.failures }
        ensures sink { writer.new.failures ≡ sink_failures result writer.old.failures }
    {
        let Ok(mut input) = Input::new(self.alloc) else {
            return FeedEnd::Stopped(self.stop(StopFault::OutOfMemory));
        };
        let mut batch = Batch::new(self.alloc, self.desk.follower_of(self.wait, pass));
        'pieces: loop {
            match take_frame(reader, &mut input) {
                Ok(true) => {}
                Ok(false) => return FeedEnd::Finished,
                Err(fault) => return end_of(fault),
            }
            if let Err(end) = self.answer_piece(&mut input, &mut batch, pass, writer) {
                return end;
            }
        }
    }

    /// Answers a feed until it ends, and records how it did.
    fn run_feed<R: Read, W: Write>(&self, seated: &mut Seated<N, R, W, A>)
        ensures { HasServed R.remaining W.contents N.setup seated.old.pass seated.new.pass
            seated.old.feed seated.new.feed }
    {
        let Feed {
            reader,
            writer,
            end,
        } = &mut seated.feed;
        *end = self.serve_feed(&mut seated.pass, reader, writer);
        match *end {
            FeedEnd::Read | FeedEnd::TooMuch | FeedEnd::Write => {
                self.bell
                    .tell(self.wait, self.watch, seated.pass.feeder(), *end);
            }
            FeedEnd::Open | FeedEnd::Finished | FeedEnd::Stopped(_) => {}
        }
    }
}

/// Runs the feeds of all seats at the same time, each in a thread of its own if one can be made.
fn run_seats<
    N: Name + Send + Sync,
    Q: Wait + Drop + Send,
    K: Outside + Drop + Send,
    R: Read + Send,
    W: Write + Send,
    H: Watch + Sync,
    T: Threads + Sync,
    P: Wait + Sync,
    A: Allocator + Copy + Send + Sync,
>(rt: &T, shared: &Shared<N, Q, K, H, P, A>, seated: &mut Vec<Seated<N, R, W, A>, A>)
    ensures len { length seated.new.items ≡ length seated.old.items }
    ensures each { (i : ℕ) (d : _) → i < length seated.old.items
        → HasServed R.remaining W.contents N.setup (slice_index_or seated.old.items i d).pass
        (slice_index_or seated.new.items i d).pass (slice_index_or seated.old.items i d).feed
        (slice_index_or seated.new.items i d).feed }
{
    let threads = seated.len().max(1);
    thread::for_each_mut(
        rt,
        seated.as_mut_slice(),
        threads,
        &|_, seated| shared.run_feed(seated),
    );
}

/// Runs all feeds at the same time, and wakes the follower when the last has ended. Returns the
/// seats.
pub(crate) fn run_all<
    N: Name + Send + Sync,
    Q: Wait + Drop + Send,
    K: Outside + Drop + Send,
    R: Read + Send,
    W: Write + Send,
    H: Watch + Sync,
    T: Threads + Sync,
    P: Wait + Sync,
    A: Allocator + Copy + Send + Sync,
>(
    rt: &T,
    shared: &Shared<N, Q, K, H, P, A>,
    seated: &mut Vec<Seated<N, R, W, A>, A>,
) -> Vec<Seated<N, R, W, A>, A>
    ensures len { length result.items ≡ length seated.old.items }
    ensures each { (i : ℕ) (d : _) → i < length seated.old.items
        → HasServed R.remaining W.contents N.setup (slice_index_or seated.old.items i d).pass
        (slice_index_or result.items i d).pass (slice_index_or seated.old.items i d).feed
        (slice_index_or result.items i d).feed }
{
    run_seats(rt, shared, seated);
    shared.bell.close(shared.wait);
    replace(seated, Vec::new(shared.alloc))
}
