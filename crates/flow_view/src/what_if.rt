//! What a regulation would do at other rates.
ghost use Rattle.std.specs.Prelude.{◌≡◌, ◌≤◌, ◌++◌, Some, true, codes};
ghost use Rattle.std.specs.Prelude.{IfOk, IfErr, OnOk, OnErr, map, length};
ghost use Rattle.std.specs.List.{AllByRecursion};
ghost use Rattle.flow_view.specs.Openings.{is_opening};
ghost use Rattle.flow_view.specs.Sweeps.{order_at, with_filing, verdict_of, last_rows, swept};
ghost use Rattle.flow_view.specs.Sweeps.{CanFile, Opens, IsToldOf, IsToldBy, IsEndedBy};
ghost use Rattle.flow_view.specs.Totals.{totals_of};
ghost use Rattle.flow_slots.specs.Period.{most_slots};
ghost use Rattle.flow_view.specs.declared.what_if.SweepFault.TheVariants.{OutOfMemory};

use crate::past::take_back;
use crate::slot_row::{SlotRow, rows_of};
use crate::totals::{Totals, totals_of};
use flow_core::{Core, Kind, Verdict};
use fpl_message::{Filing, MAX_BYTES, Refusal};
use itoa::Buffer;
use std::alloc::{AllocError, Allocator};

/// The totals of a slot list at a rate.
#[derive(Clone, Copy)]
pub struct Swept {
    /// Flights an hour.
    pub rate: u32,
    pub totals: Totals,
}

/// Why a sweep ends without a result.
#[derive(Clone, Copy, Debug, PartialEq, Eq)]
pub enum SweepFault {
    /// The desk refuses the order.
    Refused(Refusal),
    /// The order has more than 2,000 bytes.
    TooLong,
    /// The journal holds as many entries as the setup allows.
    JournalFull,
    OutOfMemory,
}

impl From<AllocError> for SweepFault {
    ghost from_gives = { λ _ made. made ≡ OutOfMemory };

    fn from(_error: AllocError) -> Self {
        SweepFault::OutOfMemory
    }
}

/// Checks that an order with these digits of a rate can be filed: it is short enough, and the
/// journal isn't full.
fn check_room<A: Allocator + Copy>(
    core: &Core<A>,
    order: &[u8],
    digits: &[u8],
) -> Result<(), SweepFault>
    requires { length digits.now ≤ 40 }
    ensures room { OnOk result (CanFile core.now (order.now ++ codes " " ++ digits.now)) }
    ensures refused { IfErr result
        (λ e. IsToldBy core.now (order.now ++ codes " " ++ digits.now) e) }
{
    if order.len() >= MAX_BYTES - digits.len() {
        return Err(SweepFault::TooLong);
    }
    if core.entries() >= core.setup().max_entries() {
        return Err(SweepFault::JournalFull);
    }
    Ok(())
}

/// An order with the digits of a rate.
fn text_of<A: Allocator + Copy>(
    alloc: A,
    order: &[u8],
    digits: &[u8],
) -> Result<Vec<u8, A>, AllocError>
    ensures { IfOk result (λ text. text.items ≡ order.now ++ codes " " ++ digits.now) }
{
    let mut text = Vec::from_slice(alloc, order)?;
    text.extend_from_slice(b" ")?;
    text.extend_from_slice(digits)?;
    Ok(text)
}

/// Files a text at a desk as feeder 0, and returns the verdict. A text that the desk refuses is an
/// entry too.
fn file<A: Allocator + Copy>(
    alloc: A,
    core: &mut Core<A>,
    text: &[u8],
) -> Result<Verdict, AllocError>
    requires { CanFile core.old text.now }
    ensures setup { core.new.setup ≡ core.old.setup }
    ensures filed { OnOk result (core.new.filed ≡ (with_filing core.old text.now).filed) }
    ensures undoable { OnOk result (core.new.undoable ≡ true) }
    ensures verdict { IfOk result (λ verdict. verdict_of core.old text.now ≡ Some verdict) }
    ensures unchanged { OnErr result (core.new.filed ≡ core.old.filed) }
{
    let Ok(filing) = Filing::new(alloc, text) else {
        return Err(AllocError);
    };
    match core.step(filing, 0) {
        Ok(receipt) => Ok(receipt.verdict),
        Err(_) => Err(AllocError),
    }
}

/// The rows of the regulation that was opened last.
fn last_rows<A: Allocator + Copy>(alloc: A, core: &Core<A>) -> Result<Vec<SlotRow, A>, AllocError>
    ensures rows { IfOk result (λ rows. rows.items ≡ last_rows core.now) }
    ensures few { IfOk result (λ rows. length rows.items ≤ most_slots) }
{
    match core.regulations().last() {
        Some(regulation) => rows_of(alloc, core, regulation.spot(), regulation.list()),
        None => Ok(Vec::new(alloc)),
    }
}

/// The totals of the regulation that was opened last, if the filing with this verdict opened one,
/// else why not.
fn totals_at<A: Allocator + Copy>(
    alloc: A,
    core: &Core<A>,
    verdict: Verdict,
) -> Result<Totals, SweepFault>
    ensures totals { IfOk result (λ totals. totals ≡ totals_of (last_rows core.now)) }
    ensures opened { OnOk result (is_opening verdict ≡ true) }
    ensures refused { IfErr result (λ e. IsToldOf verdict e) }
{
    match verdict {
        Verdict::Accepted {
            kind: Kind::Open,
            ..
        } => {
            let rows = last_rows(alloc, core)?;
            Ok(totals_of(rows.as_slice()))
        }
        Verdict::Refused(refusal) => Err(SweepFault::Refused(refusal)),
        _ => Err(SweepFault::Refused(Refusal::BadOrder)),
    }
}

/// The totals at a rate. The desk is unchanged afterwards, but perhaps its last filing can't be
/// undone any more.
fn swept_at<A: Allocator + Copy>(
    alloc: A,
    core: &mut Core<A>,
    order: &[u8],
    rate: u32,
) -> Result<Swept, SweepFault>
    ensures setup { core.new.setup ≡ core.old.setup }
    ensures filed { core.new.filed ≡ core.old.filed }
    ensures swept { IfOk result (λ line. line ≡ swept core.old order.now rate) }
    ensures opened { OnOk result (Opens core.old (order_at order.now rate)) }
    ensures refused { IfErr result (λ e. IsToldBy core.old (order_at order.now rate) e) }
{
    let mut buffer = Buffer::new();
    let digits = buffer.format(rate).as_bytes();
    check_room(core, order, digits)?;
    let text = text_of(alloc, order, digits)?;
    let verdict = file(alloc, core, text.as_slice())?;
    let totals = totals_at(alloc, core, verdict);
    take_back(core);
    match totals {
        Ok(totals) => Ok(Swept { rate, totals }),
        Err(fault) => Err(fault),
    }
}

/// What a regulation would do at each of these rates. `order` is an OPEN up to its rate, as `OPEN
/// WHATIF ARR EDDF 2409011000 2409011300`, with the name of a regulation that isn't open. At each
/// rate the order is filed, the totals of the new slot list are taken, and the filing is undone:
/// the desk is unchanged afterwards, but perhaps its last filing can't be undone any more. An order
/// that the desk refuses ends the sweep with that refusal, and one that is no OPEN with `BadOrder`.
/// The sweep ends at a rate with `TooLong` exactly if the order with that rate has more than 2,000
/// bytes, with `JournalFull` exactly if it hasn't and the journal is full, and with `OutOfMemory`
/// only if neither holds.
pub fn sweep<A: Allocator + Copy>(
    alloc: A,
    core: &mut Core<A>,
    order: &[u8],
    rates: &[u32],
) -> Result<Vec<Swept, A>, SweepFault>
    ensures setup { core.new.setup ≡ core.old.setup }
    ensures filed { core.new.filed ≡ core.old.filed }
    ensures swept { IfOk result (λ lines. lines.items ≡ map (swept core.old order.now) rates.now) }
    ensures opened { OnOk result
        (AllByRecursion (λ rate. Opens core.old (order_at order.now rate)) rates.now) }
    ensures refused { IfErr result (λ e. IsEndedBy core.old order.now rates.now e) }
{
    let mut lines = Vec::new(alloc);
    for rate in rates {
        let line = match swept_at(alloc, core, order, *rate) {
            Ok(line) => line,
            Err(fault) => return Err(fault),
        };
        let Ok(()) = lines.push(line) else {
            return Err(SweepFault::OutOfMemory);
        };
    }
    Ok(lines)
}
