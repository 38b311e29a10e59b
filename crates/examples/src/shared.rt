//! A desk that many feeders share, with flow_desk alone.
ghost use Rattle.std.specs.Prelude.{◌≡◌, ◌≢◌, [], Some, IfSome, IsTrue, IsFalse};
ghost use Rattle.flow_core.specs.declared.receipt.Receipt.{Receipt as Given};
ghost use Rattle.flow_desk.specs.Histories.{row_at};
ghost use Rattle.flow_desk.specs.FeederPasses.{PassView, Filed, FiledFront, SawMore};

use flow_core::Row;
use flow_desk::{Desk, Name, Pass};
use flow_input::FrameQueue;
use fpl_message::Filing;
use std::alloc::Allocator;
use std::sync::Wait;

/// Files a text for a feeder, and then reads the row of a plan. Other feeders may have filed
/// between the two: the row is that of a history that begins with all that the pass had seen, and
/// this entry.
///
/// `None` if the text wasn't filed, if the board shows no version, since the desk is gone, or if no
/// plan has that number.
pub fn row_after<N: Name, Q: Wait + Drop, W: Wait, A: Allocator + Copy>(
    wait: &W,
    alloc: A,
    desk: &Desk<N, Q, A>,
    pass: &mut Pass<N, A>,
    filing: Filing<A>,
    plan: u32,
) -> Option<Row>
    ensures { IfSome result (λ row. (filed : PassView) × (receipt : Given)
        × Filed N.setup pass.old filing receipt filed × SawMore filed pass.new
        × (row_at N.setup pass.new.seen plan ≡ Some row)) }
{
    // `file` promises one step of the one history, which begins with all that the pass had seen.
    match desk.file(wait, alloc, pass, filing) {
        Ok(_receipt) => {}
        Err(_) => return None,
    }
    // `look` never waits, and promises a history that begins with what the pass has seen, so with
    // that entry, too.
    match desk.look(pass, plan) {
        Ok(row) => row,
        Err(_) => None,
    }
}

/// Files what a feeder has ready, in order and with no other feeder's entry between. `false` if
/// some of it wasn't filed: it is left then, and the first of it was refused.
pub fn file_ready<N: Name, Q: Wait + Drop, W: Wait, A: Allocator + Copy>(
    wait: &W,
    alloc: A,
    desk: &Desk<N, Q, A>,
    pass: &mut Pass<N, A>,
    ready: &mut FrameQueue<A>,
) -> bool
    ensures filed { FiledFront N.setup pass.old ready.old pass.new ready.new }
    ensures all { IsTrue result → ready.new ≡ [] }
    ensures left { IsFalse result → ready.new ≢ [] }
{
    // `file_all` takes the lock once for all of them, and promises for each what `file` does.
    let count = ready.len();
    match desk.file_all(wait, alloc, pass, ready, count) {
        Ok(()) => true,
        Err(_) => false,
    }
}
