//! Files the frames of a feeder that are there, and collects their answers.
ghost use Rattle.std.specs.Prelude.{◌≡◌, ◌≤◌, ◌++◌, ◌∷◌, [], List, Option, ℕ, length, OnOk};
ghost use Rattle.flow_input.specs.NextFrame.{filing_kept};
ghost use Rattle.flow_input.specs.Reader.{Agrees};
ghost use Rattle.flow_core.specs.Output.{too_long_line, journal_full_line};
ghost use Rattle.flow_live.specs.Told.{full_answers};
ghost use Rattle.flow_live.specs.Feeding.{Prepares, Serves, TakesNext, CutsTaken};
ghost use Rattle.flow_live.specs.Keeping.{AnswersSeen};

use flow_core::{StepFault, journal_full_line, too_long_line};
use flow_desk::{Desk, Follower, Name, Pass};
use flow_input::{FrameQueue, Input};
use std::alloc::{AllocError, Allocator, Global};
use std::sync::Wait;

/// The greatest number of filings in one critical section: other feeders wait for the lock
/// meanwhile.
const AT_ONCE: usize = 64;

/// The frames of a feeder that are to be filed, and the answers to those that were.
#[derive(Drop)]
pub(crate) struct Batch<N: Name, A: Allocator + Copy = Global> {
    queue: FrameQueue<A>,
    pub answers: Vec<u8, A>,
    /// What the feeder's pass has seen.
    pub seen: Follower<N>,
}

impl<N: Name, A: Allocator + Copy> Batch<N, A> {
    /// Creates an empty batch of a feeder whose pass has seen this.
    pub fn new(alloc: A, seen: Follower<N>) -> Self
        ensures none { (result.queue ≡ []) × (result.answers.items ≡ []) }
        ensures seen { result.seen ≡ seen }
    {
        Batch {
            queue: FrameQueue::new(alloc),
            answers: Vec::new(alloc),
            seen,
        }
    }
}

/// Appends a line of an answer, and the empty line after it.
fn append_line<A: Allocator + Copy>(answers: &mut Vec<u8, A>, line: &[u8]) -> Result<(), AllocError>
    ensures { OnOk result (answers.new.items ≡ answers.old.items ++ (line.now ++ 10 ∷ [])) }
{
    answers.extend_from_slice(line)?;
    answers.push(b'\n')?;
    Ok(())
}

/// Answers the frames that found the journal full.
fn answer_left<A: Allocator + Copy>(
    queue: &mut FrameQueue<A>,
    answers: &mut Vec<u8, A>,
) -> Result<(), AllocError>
    ensures answers { OnOk result (answers.new.items ≡ answers.old.items
        ++ full_answers (length queue.old)) }
    ensures none { OnOk result (queue.new ≡ []) }
{
    'left: while !queue.is_empty() {
        append_line(answers, journal_full_line())?;
        queue.remove_first();
    }
    Ok(())
}

/// Files what is in the queue, and appends the answers.
fn answer_queued<N: Name, Q: Wait + Drop, P: Wait, A: Allocator + Copy>(
    wait: &P,
    alloc: A,
    desk: &Desk<N, Q, A>,
    pass: &mut Pass<N, A>,
    batch: &mut Batch<N, A>,
) -> Result<(), AllocError>
    requires { AnswersSeen N.setup pass.old batch.old.seen batch.old.answers.items }
    ensures served { OnOk result ((p : _) (done : List (List ℕ))
        → Prepares N.setup p done pass.old batch.old.answers.items batch.old.queue
        → Serves N.setup p done pass.new batch.new.answers.items) }
    ensures none { OnOk result (batch.new.queue ≡ []) }
    ensures seen { OnOk result
        (AnswersSeen N.setup pass.new batch.new.seen batch.new.answers.items) }
{
    if batch.queue.is_empty() {
        return Ok(());
    }
    let (answered, seen) = desk.answer_all(wait, alloc, pass, &mut batch.queue, &mut batch.answers);
    batch.seen = seen;
    match answered {
        Ok(()) => Ok(()),
        Err(StepFault::JournalFull) => answer_left(&mut batch.queue, &mut batch.answers),
        Err(StepFault::OutOfMemory) => Err(AllocError),
    }
}

/// Queues the frame that was taken last, to be filed with others. One that is too long gets its
/// line, after the answers to those before it.
fn take_in<N: Name, Q: Wait + Drop, P: Wait, A: Allocator + Copy>(
    wait: &P,
    alloc: A,
    desk: &Desk<N, Q, A>,
    pass: &mut Pass<N, A>,
    input: &Input<A>,
    batch: &mut Batch<N, A>,
) -> Result<(), AllocError>
    requires { AnswersSeen N.setup pass.old batch.old.seen batch.old.answers.items }
    ensures next { OnOk result (TakesNext N.setup (filing_kept input.now.item) pass.old
        batch.old.answers.items batch.old.queue pass.new batch.new.answers.items
        batch.new.queue) }
    ensures seen { OnOk result
        (AnswersSeen N.setup pass.new batch.new.seen batch.new.answers.items) }
{
    let Some(bytes) = input.frame() else {
        answer_queued(wait, alloc, desk, pass, batch)?;
        return append_line(&mut batch.answers, too_long_line());
    };
    batch.queue.push(bytes)?;
    if batch.queue.len() < AT_ONCE {
        return Ok(());
    }
    answer_queued(wait, alloc, desk, pass, batch)
}

/// Answers the frame that was taken last, and those that are whole in the input's buffer.
pub(crate) fn answer_taken<N: Name, Q: Wait + Drop, P: Wait, A: Allocator + Copy>(
    wait: &P,
    alloc: A,
    desk: &Desk<N, Q, A>,
    pass: &mut Pass<N, A>,
    input: &mut Input<A>,
    batch: &mut Batch<N, A>,
) -> Result<(), AllocError>
    requires none { (batch.old.queue ≡ []) × (batch.old.answers.items ≡ []) }
    requires seen { AnswersSeen N.setup pass.old batch.old.seen batch.old.answers.items }
    ensures serving { OnOk result (CutsTaken N.setup pass.old
        (λ more. Serves N.setup pass.old more pass.new batch.new.answers.items) input.old
        input.new) }
    ensures agrees { OnOk result ((rest : Option (List ℕ)) → Agrees input.old rest
        → Agrees input.new rest) }
    ensures nearer { OnOk result (input.old.taken ≤ input.new.taken) }
    ensures none { OnOk result (batch.new.queue ≡ []) }
    ensures seen { OnOk result
        (AnswersSeen N.setup pass.new batch.new.seen batch.new.answers.items) }
{
    take_in(wait, alloc, desk, pass, input, batch)?;
    'frames: while input.take_whole() {
        take_in(wait, alloc, desk, pass, input, batch)?;
    }
    answer_queued(wait, alloc, desk, pass, batch)
}
