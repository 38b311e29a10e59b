//! Feeders at their desk: each files the frames that were dealt to it, in a thread of its own.
ghost use Rattle.std.specs.Prelude.{◌≡◌, ◌≢◌, ◌≤◌, ◌<◌, ◌+◌, ◌++◌, ℕ, []};
ghost use Rattle.std.specs.Prelude.{length, map, vec_len, vec_capacity};
ghost use Rattle.std.specs.Prelude.{slice_index_or, IsTrue, IsFalse, OnOk, OnErr};
ghost use Rattle.flow_desk.specs.Feeds.{EndsAs};
ghost use Rattle.flow_runs.specs.Filing.{FiledTo, RanFeed, RanFeeds};

use crate::progress::Progress;
use flow_desk::{Desk, End, Name, Pass, Replay};
use flow_input::FrameQueue;
use std::alloc::{Allocator, Global};
use std::mem::replace;
use std::sync::Wait;
use std::thread;
use std::thread::Threads;

/// The state of a feed: the frames that have no entry yet, and how it ended.
#[derive(Drop)]
pub(crate) struct Feed<N: Name, A: Allocator + Copy = Global> {
    pub pass: Pass<N, A>,
    pub left: FrameQueue<A>,
    pub end: End,
}

/// The number of frames that all feeders together file while each of them holds the lock once: 64
/// each of 4 feeders, 4 each of 64. Whenever the lock goes to another feeder, that has to wake up,
/// and the core's memory moves to its processor. But the more frames are filed at once, the less
/// their order is that of the input.
const AT_ONCE: usize = 256;

/// Files the next frames of a feed in one critical section. Returns `false` if one was refused or
/// nothing is left.
fn file_next<N: Name, Q: Wait + Drop, P: Wait, A: Allocator + Copy>(
    wait: &P,
    alloc: A,
    desk: &Desk<N, Q, A>,
    most: usize,
    feed: &mut Feed<N, A>,
) -> bool
    requires { 0 < most }
    ensures ran { (p : _) (texts : _) → FiledTo p texts feed.old.pass feed.old.left
        → FiledTo p texts feed.new.pass feed.new.left }
    ensures ends { IsFalse result
        → EndsAs N.setup feed.new.end feed.new.pass feed.new.left }
    ensures goes { IsTrue result → length feed.new.left < length feed.old.left }
{
    if feed.left.is_empty() {
        feed.end = End::Finished;
        return false;
    }
    if let Err(fault) = desk.file_all(wait, alloc, &mut feed.pass, &mut feed.left, most) {
        feed.end = End::Stopped(fault);
        return false;
    }
    true
}

/// Files a feed until it ends, some frames at a time, and tells the second run of them.
fn run_feed<N: Name, Q: Wait + Drop, P: Wait, A: Allocator + Copy>(
    wait: &P,
    alloc: A,
    desk: &Desk<N, Q, A>,
    progress: &Progress,
    most: usize,
    feed: &mut Feed<N, A>,
)
    requires { 0 < most }
    ensures { RanFeed N.setup feed.old.pass feed.old.left feed.new.pass feed.new.left feed.new.end }
{
    while file_next(wait, alloc, desk, most, feed) {
        progress.tell(wait, most as u64);
    }
}

/// Pairs the passes with their frames, in their order.
pub(crate) fn gather<N: Name, A: Allocator + Copy>(
    passes: &mut Vec<Pass<N, A>, A>,
    texts: &mut Vec<FrameQueue<A>, A>,
    feeds: &mut Vec<Feed<N, A>, A>,
)
    requires each { length passes.old.items ≡ length texts.old.items }
    requires room { vec_len feeds.old + length passes.old.items ≤ vec_capacity feeds.old }
    ensures passes { map (λ f. f.pass) feeds.new.items
        ≡ map (λ f. f.pass) feeds.old.items ++ passes.old.items }
    ensures texts { map (λ f. f.left) feeds.new.items
        ≡ map (λ f. f.left) feeds.old.items ++ texts.old.items }
    ensures none { passes.new.items ≡ [] }
    ensures len { vec_len feeds.new ≡ vec_len feeds.old + length passes.old.items }
    ensures rooms { (vec_capacity passes.new ≡ vec_capacity passes.old)
        × (vec_capacity feeds.new ≡ vec_capacity feeds.old) }
{
    let Some(pass) = passes.pop() else {
        return;
    };
    let Some(left) = texts.pop() else {
        unreachable!()
    };
    gather(passes, texts, feeds);
    feeds.push_reserved(Feed {
        pass,
        left,
        end: End::NotStarted,
    });
}

/// Runs all feeds at the same time, each in a thread of its own if one can be created.
fn run_each<
    N: Name + Send + Sync,
    Q: Wait + Drop + Send,
    T: Threads + Sync,
    P: Wait + Sync,
    A: Allocator + Copy + Send + Sync,
>(
    rt: &T,
    wait: &P,
    alloc: A,
    desk: &Desk<N, Q, A>,
    progress: &Progress,
    feeds: &mut Vec<Feed<N, A>, A>,
)
    ensures len { length feeds.new.items ≡ length feeds.old.items }
    ensures each { (i : ℕ) (d : _) → i < length feeds.old.items
        → RanFeed N.setup (slice_index_or feeds.old.items i d).pass
        (slice_index_or feeds.old.items i d).left
        (slice_index_or feeds.new.items i d).pass (slice_index_or feeds.new.items i d).left
        (slice_index_or feeds.new.items i d).end }
{
    let threads = feeds.len().max(1);
    let most = (AT_ONCE / threads).max(1);
    thread::for_each_mut(
        rt,
        feeds.as_mut_slice(),
        threads,
        &|_, feed| run_feed(wait, alloc, desk, progress, most, feed),
    );
}

/// Runs the journal a second time while feeders file.
fn replay_meanwhile<N: Name, Q: Wait + Drop, P: Wait, A: Allocator + Copy>(
    wait: &P,
    alloc: A,
    desk: &Desk<N, Q, A>,
    progress: &Progress,
) -> Replay<N, A> {
    let mut replay = Replay::new(wait, alloc, desk);
    for _ in wait.forever() {
        let filings = progress.wait(wait);
        if filings == 0 {
            return replay;
        }
        replay.advance(wait, alloc, desk, filings);
    }
    unreachable!()
}

/// Runs all feeds, and tells the second run when the last has ended. Returns the feeds.
fn run_and_close<
    N: Name + Send + Sync,
    Q: Wait + Drop + Send,
    T: Threads + Sync,
    P: Wait + Sync,
    A: Allocator + Copy + Send + Sync,
>(
    rt: &T,
    wait: &P,
    alloc: A,
    desk: &Desk<N, Q, A>,
    progress: &Progress,
    feeds: &mut Vec<Feed<N, A>, A>,
) -> Vec<Feed<N, A>, A>
    ensures len { length result.items ≡ length feeds.old.items }
    ensures each { (i : ℕ) (d : _) → i < length feeds.old.items
        → RanFeed N.setup (slice_index_or feeds.old.items i d).pass
        (slice_index_or feeds.old.items i d).left
        (slice_index_or result.items i d).pass (slice_index_or result.items i d).left
        (slice_index_or result.items i d).end }
{
    run_each(rt, wait, alloc, desk, progress, feeds);
    progress.close(wait);
    replace(feeds, Vec::new(alloc))
}

/// Runs all feeds, and meanwhile the journal a second time. Returns that run and the feeds.
pub(crate) fn run_all<
    N: Name + Send + Sync,
    Q: Wait + Drop + Send,
    T: Threads + Sync,
    P: Wait + Sync,
    A: Allocator + Copy + Send + Sync,
>(
    rt: &T,
    wait: &P,
    alloc: A,
    desk: &Desk<N, Q, A>,
    mut feeds: Vec<Feed<N, A>, A>,
) -> (Replay<N, A>, Vec<Feed<N, A>, A>)
    ensures { RanFeeds N.setup (map (λ f. f.pass) feeds.items)
        (map (λ f. f.left) feeds.items) (map (λ f. f.pass) result.1.items)
        (map (λ f. f.left) result.1.items) (map (λ f. f.end) result.1.items) }
{
    let progress = Progress::new();
    let progress = &progress;
    // The first gets the thread. If none can be made it is run after the second, and finds that all
    // feeders have ended.
    thread::join_mut(
        rt,
        &mut || replay_meanwhile(wait, alloc, desk, progress),
        &mut move || -> Vec<Feed<N, A>, A>
            ensures len { length result.items ≡ length feeds.entry.items }
            ensures each { (i : ℕ) (d : _) → i < length feeds.entry.items
                → RanFeed N.setup (slice_index_or feeds.entry.items i d).pass
                (slice_index_or feeds.entry.items i d).left
                (slice_index_or result.items i d).pass
                (slice_index_or result.items i d).left
                (slice_index_or result.items i d).end }
        { run_and_close(rt, wait, alloc, desk, progress, &mut feeds) },
    )
}
