//! Feeders that file at the same time, each its own feed.
ghost use Rattle.std.specs.Prelude.{◌≡◌, ◌<◌, ◌≤◌, ◌+◌, ◌++◌, ℕ};
ghost use Rattle.std.specs.Prelude.{[], Some, length, map, vec_len, vec_capacity};
ghost use Rattle.std.specs.Prelude.{slice_index_or, IfOk, IfErr, OnOk, OnErr, IsTrue, IsFalse};
ghost use Rattle.std.specs.List.{All};
ghost use Rattle.flow_desk.specs.Feeds.{Ran, HasRun, HaveRun, EndsAs, IsFresh};

use crate::desk::Desk;
use crate::name::Name;
use crate::pass::Pass;
use flow_core::{Receipt, StepFault};
use fpl_message::Filing;
use std::alloc::{AllocError, Allocator, Global};
use std::collections::VecDeque;
use std::mem::replace;
use std::sync::Wait;
use std::thread;
use std::thread::Threads;

/// What is called before and after each filing.
pub trait Gate {
    /// Called before the feeder files the `i`-th filing of its feed, from 0.
    fn before(&self, feeder: u8, i: usize);

    /// Called after it, also if it was refused.
    fn after(&self, feeder: u8, i: usize);
}

/// How a feed ended.
#[derive(Clone, Copy, Debug, PartialEq, Eq)]
pub enum End {
    /// Each filing has a receipt.
    Finished,
    /// A filing was refused with this fault. It is the first of those that are left.
    Stopped(StepFault),
    /// It was never begun. No feed ends so: without a thread, feeds run one after the other.
    NotStarted,
}

/// A feed that has run: the pass, the receipts of the filings that have one, the filings that have
/// none, and how it ended.
#[derive(Drop)]
pub struct Done<N: Name, A: Allocator + Copy = Global> {
    pub pass: Pass<N, A>,
    pub receipts: Vec<Receipt, A>,
    pub left: Vec<Filing<A>, A>,
    pub end: End,
}

/// Files the next filing of a feed, of which these are left. Returns false if it was refused or
/// nothing is left.
fn file_next<N: Name, Q: Wait + Drop, G: Gate, W: Wait, A: Allocator + Copy>(
    wait: &W,
    alloc: A,
    desk: &Desk<N, Q, A>,
    gate: &G,
    left: &mut VecDeque<Filing<A>, A>,
    feed: &mut Done<N, A>,
) -> bool
    requires room { vec_len feed.old.receipts + length left.old.items
        ≤ vec_capacity feed.old.receipts }
    ensures room { vec_len feed.new.receipts + length left.new.items
        ≤ vec_capacity feed.new.receipts }
    ensures ran { (p : _) (texts : _)
        → Ran p texts feed.old.pass feed.old.receipts.items left.old.items
        → Ran p texts feed.new.pass feed.new.receipts.items left.new.items }
    ensures ends { IsFalse result
        → EndsAs N.setup feed.new.end feed.new.pass left.new.items }
    ensures goes { IsTrue result → length left.new.items + 1 ≡ length left.old.items }
{
    let Some(filing) = left.pop_front() else {
        feed.end = End::Finished;
        return false;
    };
    let feeder = feed.pass.feeder();
    let i = feed.receipts.len();
    gate.before(feeder, i);
    match desk.file(wait, alloc, &mut feed.pass, filing) {
        Ok(receipt) => {
            feed.receipts.push_reserved(receipt);
            gate.after(feeder, i);
            true
        }
        Err((fault, filing)) => {
            left.push_front_reserved(filing);
            feed.end = End::Stopped(fault);
            gate.after(feeder, i);
            false
        }
    }
}

/// Files a feed until it ends.
fn run_feed<N: Name, Q: Wait + Drop, G: Gate, W: Wait, A: Allocator + Copy>(
    wait: &W,
    alloc: A,
    desk: &Desk<N, Q, A>,
    gate: &G,
    feed: &mut Done<N, A>,
)
    requires { IsFresh feed.old.receipts.items feed.old.left.items
        (vec_capacity feed.old.receipts) }
    ensures { HasRun N.setup feed.old.pass feed.old.left.items feed.new.pass feed.new.receipts.items
        feed.new.left.items feed.new.end }
{
    let mut left = VecDeque::from(replace(&mut feed.left, Vec::new(alloc)));
    while file_next(wait, alloc, desk, gate, &mut left, feed) {}
    feed.left = Vec::from(left);
}

/// Runs all feeds at the same time, each in a thread of its own if one can be made.
fn run_all<
    N: Name + Send + Sync,
    Q: Wait + Drop + Send,
    G: Gate + Sync,
    R: Threads + Sync,
    W: Wait + Sync,
    A: Allocator + Copy + Send + Sync,
>(rt: &R, wait: &W, alloc: A, desk: &Desk<N, Q, A>, gate: &G, feeds: &mut Vec<Done<N, A>, A>)
    requires { All (λ f. IsFresh f.receipts.items f.left.items
        (vec_capacity f.receipts)) feeds.old.items }
    ensures len { length feeds.new.items ≡ length feeds.old.items }
    ensures each { (i : ℕ) (d : _) → i < length feeds.old.items
        → HasRun N.setup (slice_index_or feeds.old.items i d).pass
        (slice_index_or feeds.old.items i d).left.items
        (slice_index_or feeds.new.items i d).pass
        (slice_index_or feeds.new.items i d).receipts.items
        (slice_index_or feeds.new.items i d).left.items (slice_index_or feeds.new.items i d).end }
{
    let threads = feeds.len().max(1);
    thread::for_each_mut(
        rt,
        feeds.as_mut_slice(),
        threads,
        &|_, feed| run_feed(wait, alloc, desk, gate, feed),
    );
}

/// Makes a feed of each pass and its filings. If allocation fails, passes and filings are
/// unchanged.
fn gather<N: Name, A: Allocator + Copy>(
    alloc: A,
    passes: &mut Vec<Pass<N, A>, A>,
    texts: &mut Vec<Vec<Filing<A>, A>, A>,
    feeds: &mut Vec<Done<N, A>, A>,
) -> Result<(), AllocError>
    requires each { length passes.old.items ≡ length texts.old.items }
    requires room { vec_len feeds.old + length passes.old.items ≤ vec_capacity feeds.old }
    requires fresh { All (λ f.
        IsFresh f.receipts.items f.left.items (vec_capacity f.receipts)) feeds.old.items }
    ensures passes { OnOk result
        (map (λ f. f.pass) feeds.new.items ≡ map (λ f. f.pass) feeds.old.items
        ++ passes.old.items) }
    ensures texts { OnOk result
        (map (λ f. f.left.items) feeds.new.items ≡ map (λ f. f.left.items) feeds.old.items
        ++ map (λ v. v.items) texts.old.items) }
    ensures fresh { OnOk result (All (λ f. IsFresh f.receipts.items f.left.items
        (vec_capacity f.receipts)) feeds.new.items) }
    ensures len { OnOk result (vec_len feeds.new ≡ vec_len feeds.old + length passes.old.items) }
    ensures back { OnErr result
        ((passes.new.items ≡ passes.old.items) × (texts.new.items ≡ texts.old.items)) }
    ensures rooms { (vec_capacity feeds.new ≡ vec_capacity feeds.old)
        × (vec_capacity passes.new ≡ vec_capacity passes.old)
        × (vec_capacity texts.new ≡ vec_capacity texts.old) }
{
    let Some(pass) = passes.pop() else {
        return Ok(());
    };
    let Some(left) = texts.pop() else {
        unreachable!()
    };
    let Ok(receipts) = Vec::with_capacity(alloc, left.len()) else {
        passes.push_reserved(pass);
        texts.push_reserved(left);
        return Err(AllocError);
    };
    match gather(alloc, passes, texts, feeds) {
        Ok(()) => {
            feeds.push_reserved(Done {
                pass,
                receipts,
                left,
                end: End::NotStarted,
            });
            Ok(())
        }
        Err(AllocError) => {
            passes.push_reserved(pass);
            texts.push_reserved(left);
            Err(AllocError)
        }
    }
}

/// Files the feeds, each by its pass, and calls the gate before and after each filing: one thread
/// files a feed in order, a thread of its own if one can be made. Returns for each feed the pass,
/// the receipts in order, the filings that have none, and how it ended. If allocation fails before
/// any feed is begun, passes and feeds are returned unchanged.
pub fn run_feeders<
    N: Name + Send + Sync,
    Q: Wait + Drop + Send,
    G: Gate + Sync,
    R: Threads + Sync,
    W: Wait + Sync,
    A: Allocator + Copy + Send + Sync,
>(
    rt: &R,
    wait: &W,
    alloc: A,
    desk: &Desk<N, Q, A>,
    mut passes: Vec<Pass<N, A>, A>,
    mut feeds: Vec<Vec<Filing<A>, A>, A>,
    gate: &G,
) -> Result<Vec<Done<N, A>, A>, (AllocError, Vec<Pass<N, A>, A>, Vec<Vec<Filing<A>, A>, A>)>
    requires { length passes.items ≡ length feeds.items }
    ensures run { IfOk result (λ ds. HaveRun N.setup passes.items (map (λ v. v.items) feeds.items)
        (map (λ d. d.pass) ds.items) (map (λ d. d.receipts.items) ds.items)
        (map (λ d. d.left.items) ds.items)
        (map (λ d. d.end) ds.items)) }
    ensures refused { IfErr result (λ e. (e.1.items ≡ passes.items) × (e.2.items ≡ feeds.items)) }
{
    let mut dones = Vec::new(alloc);
    if dones.reserve(passes.len()).is_err() {
        return Err((AllocError, passes, feeds));
    }
    let Ok(()) = gather(alloc, &mut passes, &mut feeds, &mut dones) else {
        return Err((AllocError, passes, feeds));
    };
    run_all(rt, wait, alloc, desk, gate, &mut dones);
    Ok(dones)
}
