//! Collects the answers to entries, in their order.
ghost use Rattle.std.specs.Prelude.{◌≡◌, ◌<◌, ◌≤◌, ◌++◌, ◌-◌, IfOk, OnErr, take, drop, length};
ghost use Rattle.flow_input.specs.Writes.{Writes};
ghost use Rattle.flow_core.specs.History.{state_of};
ghost use Rattle.flow_desk.specs.Followers.{answers_with};

use flow_core::Core;
use flow_input::{Counted, WriteFault, write_bytes};
use std::alloc::{AllocError, Allocator};
use std::io::Write;

/// Writes the answers to the entries at indices `from` to before `to`, each followed by `end`.
/// Doesn't fail if there are none.
fn write_answers<W: Write, A: Allocator + Copy>(
    core: &Core<A>,
    from: u32,
    to: u32,
    end: &[u8],
    writer: &mut Counted<W>,
) -> Result<(), WriteFault>
    requires { to ≤ length (state_of core.now).journal }
    ensures written { Writes W.contents result writer.old writer.new
        (answers_with end.now (state_of core.now)
        (take (to - from) (drop from (state_of core.now).journal))) }
    ensures some { OnErr result (from < to) }
{
    for index in 0..to.saturating_sub(from) {
        core.write_answer(from + index + 1, writer)?;
        write_bytes(writer, end)?;
    }
    Ok(())
}

/// Appends the answers to the entries at indices `from` to before `to`, each followed by `end`, and
/// returns the vector. Doesn't fail if there are none.
pub(crate) fn append_answers<A: Allocator + Copy>(
    core: &Core<A>,
    from: u32,
    to: u32,
    end: &[u8],
    answers: Vec<u8, A>,
) -> Result<Vec<u8, A>, AllocError>
    requires { to ≤ length (state_of core.now).journal }
    ensures answers { IfOk result (λ v. v.items ≡ answers.items
        ++ answers_with end.now (state_of core.now)
        (take (to - from) (drop from (state_of core.now).journal))) }
    ensures some { OnErr result (from < to) }
{
    let mut writer = Counted::new(answers);
    match write_answers(core, from, to, end, &mut writer) {
        Ok(()) => Ok(writer.into_device()),
        Err(_) => Err(AllocError),
    }
}
