//! A desk of one thread, with flow_core alone.
ghost use Rattle.std.specs.Prelude.{◌≡◌, ◌++◌, ◌∷◌, [], true, false, OnOk, IsErrOf, length};
ghost use Rattle.std.specs.Option.{option_and_then};
ghost use Rattle.std.specs.Io.KnownBytes.{Appends};
ghost use Rattle.flow_input.specs.NextFrame.{second};
ghost use Rattle.flow_input.specs.Writes.{Writes, AppendsFront};
ghost use Rattle.flow_slots.specs.Lineup.{held_slot};
ghost use Rattle.flow_traffic.specs.Traffic.{slots_of};
ghost use Rattle.flow_core.specs.declared.receipt.StepFault.{StepFault as Fault};
ghost use Rattle.flow_core.specs.History.{state_of};
ghost use Rattle.flow_core.specs.Output.{answer_text};
ghost use Rattle.flow_core.specs.Journal.{journal_text};

use flow_core::{Core, Counted, StepFault, WriteFault};
use fpl_message::Filing;
use fpl_text::Text;
use std::alloc::Allocator;
use std::io::Write;

/// Why a text has no answer.
#[derive(Clone, Copy, Debug, PartialEq, Eq)]
pub enum AnswerFault {
    /// It has more than 2,000 bytes, or an allocation failed. Nothing was filed.
    Unread,
    /// It wasn't filed: the journal is full, or an allocation failed.
    Unfiled(StepFault),
    /// It was filed, and the writer failed.
    Unwritten,
}

/// Files a text as feeder 0 of a desk, and writes the answer: the line of its receipt, and one for
/// each slot notice that it caused.
pub fn answer<W: Write, A: Allocator + Copy>(
    alloc: A,
    core: &mut Core<A>,
    text: &[u8],
    writer: &mut Counted<W>,
) -> Result<(), AnswerFault>
    ensures filed { OnOk result (core.new ≡ record {
      setup = core.old.setup;
      filed = core.old.filed ++ record { feeder = 0; text = second text.now } ∷ [];
      undoable = true;
    }) }
    ensures answer { OnOk result
        (Appends (W.contents writer.old.device) (W.contents writer.new.device)
        (answer_text (state_of core.new) (length (state_of core.old).journal))) }
    ensures unread { IsErrOf result AnswerFault.Unread
        → (core.new ≡ core.old) × (writer.new ≡ writer.old) }
    ensures unfiled { (fault : Fault) → IsErrOf result (AnswerFault.Unfiled fault)
        → (core.new ≡ record core.old { undoable = false }) × (writer.new ≡ writer.old) }
    ensures unwritten { IsErrOf result AnswerFault.Unwritten
        → (core.new.filed ≡ core.old.filed ++ record { feeder = 0; text = second text.now } ∷ [])
        × AppendsFront (W.contents writer.old.device) (W.contents writer.new.device)
        (answer_text (state_of core.new) (length (state_of core.old).journal)) }
{
    // `new` promises a filing of exactly these bytes, and that only their number or a failed
    // allocation can refuse it.
    let Ok(filing) = Filing::new(alloc, text) else {
        return Err(AnswerFault::Unread);
    };
    // `step` promises that the desk is then that of one more filing, or unchanged after an `Err`.
    let receipt = match core.step(filing, 0) {
        Ok(receipt) => receipt,
        Err((fault, _)) => return Err(AnswerFault::Unfiled(fault)),
    };
    // `write_answer` promises the bytes of the answer to that entry, or a prefix of them after an
    // `Err`.
    match core.write_answer(receipt.number, writer) {
        Ok(()) => Ok(()),
        Err(_) => Err(AnswerFault::Unwritten),
    }
}

/// Returns the slot that a plan has in an open regulation; `None` if the regulation isn't open, or
/// the plan has no slot there.
pub fn slot_in<A: Allocator + Copy>(core: &Core<A>, id: &Text<8>, plan: u32) -> Option<u32>
    ensures { result ≡ option_and_then (λ l. held_slot l plan)
        (slots_of (state_of core.now).traffic id.now) }
{
    // `slots` promises the slot list of that regulation, and `slot_of` the flight's position in it.
    core.slots(id)?.slot_of(plan)
}

/// Writes the journal of a desk. A desk that `read_journal` makes of it has the same state.
pub fn write_whole<W: Write, A: Allocator + Copy>(
    core: &Core<A>,
    writer: &mut Counted<W>,
) -> Result<(), WriteFault>
    ensures { Writes W.contents result writer.old writer.new
        (journal_text core.now.setup core.now.filed) }
{
    // `write_journal` promises this text, or a prefix of it after an `Err`.
    core.write_journal(writer)
}
