//! Runs the feeders of a desk over their feeds, and closes it.
ghost use Rattle.std.specs.Prelude.{◌≡◌, ◌≢◌, ◌<◌, ◌≤◌, ◌+◌, ◌++◌, []};
ghost use Rattle.std.specs.Prelude.{None, Some, length, map, vec_len};
ghost use Rattle.std.specs.Prelude.{vec_capacity, IfOk, IfErr, IfNone};
ghost use Rattle.std.specs.List.{All, fold};
ghost use Rattle.flow_core.specs.History.{state_of};
ghost use Rattle.flow_desk.specs.Desks.{AreOpened, IsMissing};
ghost use Rattle.flow_desk.specs.Histories.{after};
ghost use Rattle.flow_desk.specs.Locks.{AgreesWithPass};
ghost use Rattle.flow_runs.specs.Ends.{EndsWell, IsStop, stop_after};
ghost use Rattle.flow_desk.specs.Replays.{IsAgain};
ghost use Rattle.flow_runs.specs.Filing.{HasFiled};

use crate::fault::RunFault;
use crate::feeding::{Feed, gather, run_all};
use flow_core::{Core, StepFault};
use flow_desk::{Blank, Desk, End, Name, Pass, Replay};
use flow_input::FrameQueue;
use std::alloc::{AllocError, Allocator, Global};
use std::sync::Wait;
use std::thread::Threads;

/// The core of a desk at which feeders have filed.
#[derive(Drop)]
pub(crate) struct Filed<A: Allocator + Copy = Global> {
    pub core: Core<A>,
    /// The core of the second run of the journal; `None` if an allocation failed for it.
    pub again: Option<Core<A>>,
    /// The fault that a feed ended with, if one did and the journal isn't full.
    pub stop: Option<RunFault>,
}

/// Combines the fault of some feeds with the end of one more.
fn stop_with(stop: Option<RunFault>, end: End) -> Option<RunFault>
    ensures is { result ≡ stop_after stop end }
    ensures none { result ≡ None → (stop ≡ None) × EndsWell end }
    ensures error_kinds { IsStop stop → IsStop result }
{
    match end {
        End::Stopped(StepFault::OutOfMemory) => Some(RunFault::OutOfMemory),
        End::Stopped(StepFault::JournalFull) | End::Finished | End::NotStarted => stop,
    }
}

/// `OutOfMemory` if an allocation failed for a feed.
fn stop_among<N: Name, A: Allocator + Copy>(feeds: &[Feed<N, A>]) -> Option<RunFault>
    ensures is { result ≡ fold (λ stop f. stop_after stop f.end) None feeds.now }
    ensures none { IfNone result (All (λ f. EndsWell f.end) feeds.now) }
    ensures error_kinds { IsStop result }
{
    let mut stop = None;
    for feed in feeds {
        stop = stop_with(stop, feed.end);
    }
    stop
}

/// The fault of a run whose feeds ended with `stop`: none if the journal is full, since each filing
/// that is left has found it full then.
fn stop_with_room<A: Allocator + Copy>(core: &Core<A>, stop: Option<RunFault>) -> Option<RunFault>
    ensures room { result ≢ None → length (state_of core.now).journal < core.now.setup.max_entries }
    ensures is { length (state_of core.now).journal < core.now.setup.max_entries → result ≡ stop }
    ensures error_kinds { IsStop stop → IsStop result }
{
    if core.entries() == core.setup().max_entries() {
        return None;
    }
    stop
}

fn take_passes<N: Name, A: Allocator + Copy>(
    feeds: &mut Vec<Feed<N, A>, A>,
    passes: &mut Vec<Pass<N, A>, A>,
)
    requires { vec_len passes.old + length feeds.old.items ≤ vec_capacity passes.old }
    ensures passes { passes.new.items ≡ passes.old.items ++ map (λ f. f.pass) feeds.old.items }
    ensures len { vec_len passes.new ≡ vec_len passes.old + length feeds.old.items }
    ensures room { vec_capacity passes.new ≡ vec_capacity passes.old }
{
    let Some(feed) = feeds.pop() else {
        return;
    };
    take_passes(feeds, passes);
    passes.push_reserved(feed.pass);
}

/// A desk with the feeds that its feeders will file, and the vector in which its passes came.
#[derive(Drop)]
struct Opened<N: Name, Q: Wait + Drop, A: Allocator + Copy = Global> {
    desk: Desk<N, Q, A>,
    passes: Vec<Pass<N, A>, A>,
    feeds: Vec<Feed<N, A>, A>,
}

/// Opens the desk, and gives each feeder its texts.
fn open_feeds<N: Name, Q: Wait + Drop, A: Allocator + Copy>(
    alloc: A,
    blank: Blank<Q, A>,
    mut texts: Vec<FrameQueue<A>, A>,
) -> Result<Opened<N, Q, A>, AllocError>
    requires named { (blank.book ≡ N.book) × (blank.setup ≡ N.setup) × (blank.feeders ≡ N.feeders) }
    requires each { length texts.items ≡ N.feeders }
    ensures opened { IfOk result
        (λ o. AreOpened N.feeders blank.entries (map (λ f. f.pass) o.feeds.items)) }
    ensures texts { IfOk result
        (λ o. map (λ f. f.left) o.feeds.items ≡ texts.items) }
    ensures passes { IfOk result
        (λ o. (o.passes.items ≡ []) × (length o.feeds.items ≤ vec_capacity o.passes)) }
{
    let mut feeds = Vec::new(alloc);
    feeds.reserve(texts.len())?;
    let Ok((desk, mut passes)) = Desk::<N, Q, A>::open(alloc, blank) else {
        return Err(AllocError);
    };
    gather(&mut passes, &mut texts, &mut feeds);
    Ok(Opened {
        desk,
        passes,
        feeds,
    })
}

/// Closes the desk, whose feeds ended with `ends`, and brings the second run to its end.
fn close_desk<N: Name, Q: Wait + Drop, P: Wait, A: Allocator + Copy>(
    wait: &P,
    alloc: A,
    desk: Desk<N, Q, A>,
    passes: Vec<Pass<N, A>, A>,
    replay: Replay<N, A>,
    ends: Option<RunFault>,
) -> Filed<A>
    requires none { IsMissing N.feeders passes.items → ⊥ }
    requires stops { IsStop ends }
    ensures setup { result.core.setup ≡ N.setup }
    ensures one_thread { state_of result.core ≡ after N.setup (state_of result.core).journal }
    ensures below { All (λ e. e.input.feeder < N.feeders) (state_of result.core).journal }
    ensures passes { All (AgreesWithPass (state_of result.core).journal) passes.items }
    ensures again { IsAgain result.again result.core }
    ensures room { result.stop ≢ None
        → length (state_of result.core).journal < result.core.setup.max_entries }
    ensures is { length (state_of result.core).journal < result.core.setup.max_entries
        → result.stop ≡ ends }
    ensures stops { IsStop result.stop }
{
    let first = desk.follower(wait, 0);
    let Ok((core, _all)) = desk.close_followed(wait, passes, first, replay.seen()) else {
        unreachable!()
    };
    let stop = stop_with_room(&core, ends);
    let again = replay.finish(alloc, &core);
    Filed { core, again, stop }
}

/// Opens the desk, files what was dealt to its feeders, and closes it. If an allocation fails
/// before any feed begins, nothing was filed.
pub(crate) fn file_all<
    N: Name + Send + Sync,
    Q: Wait + Drop + Send,
    T: Threads + Sync,
    P: Wait + Sync,
    A: Allocator + Copy + Send + Sync,
>(
    rt: &T,
    wait: &P,
    alloc: A,
    blank: Blank<Q, A>,
    texts: Vec<FrameQueue<A>, A>,
) -> Result<Filed<A>, RunFault>
    requires named { (blank.book ≡ N.book) × (blank.setup ≡ N.setup) × (blank.feeders ≡ N.feeders) }
    requires some { 0 < N.feeders }
    requires each { length texts.items ≡ N.feeders }
    ensures filed { IfOk result (λ f. HasFiled N.setup blank.entries N.feeders
        texts.items f.core f.stop) }
    ensures again { IfOk result (λ f. IsAgain f.again f.core) }
    ensures stops { IfOk result (λ f. IsStop f.stop) }
    ensures fault { IfErr result (λ e. e ≡ RunFault.OutOfMemory) }
{
    let opened = open_feeds::<N, Q, A>(alloc, blank, texts)?;
    let Opened {
        desk,
        mut passes,
        feeds,
    } = opened;
    let (replay, mut feeds) = run_all(rt, wait, alloc, &desk, feeds);
    let ends = stop_among(feeds.as_slice());
    take_passes(&mut feeds, &mut passes);
    Ok(close_desk(wait, alloc, desk, passes, replay, ends))
}
