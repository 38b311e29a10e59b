//! The text of answer lines and slot notices, and the buffer of a line before it is written.

ghost use Rattle.std.specs.Prelude.{◌≡◌, ◌≤◌, ◌+◌, ◌++◌, ◌-◌, length, codes, ◌<◌, ◌/◌, ◌%◌};
ghost use Rattle.std.specs.Prelude.{◌∷◌, [], decimal};
ghost use Rattle.std.specs.List.{flat_map};
ghost use Rattle.flow_input.specs.Writes.{Writes};
ghost use Rattle.arrayvec.specs.ArrayVec.{array_vec_len};
ghost use Rattle.flow_core.specs.Output.{kind_text, window_text, plan_text, refusal_text};
ghost use Rattle.flow_core.specs.Output.{verdict_text, answer_line, flight_text, told_text};
ghost use Rattle.flow_core.specs.Output.{notice_line, too_long_line, journal_full_line};

use crate::receipt::Receipt;
use arrayvec::ArrayVec;
use flow_input::{Counted, WriteFault, write_bytes};
use flow_regulations::{Notice, Said, Told, Window};
use flow_traffic::{Kind, Verdict};
use fpl_message::Refusal;
use itoa::Buffer;
use std::io::Write;

/// Returns the answer to a frame of more than 2,000 bytes.
pub fn too_long_line() -> &'static [u8]
    ensures { result.now ≡ too_long_line }
{
    b"- NO 90 TooLong\n"
}

/// Returns the answer to a filing at a full journal.
pub fn journal_full_line() -> &'static [u8]
    ensures { result.now ≡ journal_full_line }
{
    b"- NO 91 JournalFull\n"
}

/// Appends the part of an accepted filing's answer that precedes the plan. A text whose length is
/// known when it is compiled is written without a call.
fn put_accepted(line: &mut Line, kind: Kind)
    requires { array_vec_len line.old + 8 ≤ 192 }
    ensures items { line.new.items ≡ line.old.items ++ (codes " OK " ++ kind_text kind) }
    ensures len { array_vec_len line.new ≤ array_vec_len line.old + 8 }
{
    match kind {
        Kind::Fpl => put(line, b" OK FPL"),
        Kind::Dla => put(line, b" OK DLA"),
        Kind::Chg => put(line, b" OK CHG"),
        Kind::Cnl => put(line, b" OK CNL"),
        Kind::Open => put(line, b" OK OPEN"),
        Kind::Shut => put(line, b" OK SHUT"),
        Kind::Time => put(line, b" OK TIME"),
    }
}

fn window_name(window: Window) -> &'static [u8]
    ensures name { result.now ≡ window_text window }
    ensures short { length result.now ≤ 8 }
{
    match window {
        Window::None => b"None",
        Window::Early => b"Early",
        Window::InWindow => b"InWindow",
        Window::Late => b"Late",
    }
}

/// Appends the number of the plan, if the filing was about one.
fn put_plan(line: &mut Line, plan: u32)
    requires { array_vec_len line.old + 21 ≤ 192 }
    ensures items { line.new.items ≡ line.old.items ++ plan_text plan }
    ensures len { array_vec_len line.new ≤ array_vec_len line.old + 21 }
{
    if plan > 0 {
        line.push(b' ');
        put_number(line, u64::from(plan));
    }
}

/// Appends the number of a refusal, its name, and the number of the field or the offset, if any.
fn put_refusal(line: &mut Line, refusal: Refusal)
    requires { array_vec_len line.old + 70 ≤ 192 }
    ensures items { line.new.items ≡ line.old.items ++ refusal_text refusal }
    ensures len { array_vec_len line.new ≤ array_vec_len line.old + 70 }
{
    put(line, b" NO ");
    put_below_100(line, refusal.number());
    line.push(b' ');
    put(line, refusal.name());
    if let Some(detail) = refusal.detail() {
        line.push(b' ');
        put_number(line, detail as u64);
    }
}

#[inline(always)]
fn put_verdict(line: &mut Line, verdict: Verdict)
    requires { array_vec_len line.old + 70 ≤ 192 }
    ensures items { line.new.items ≡ line.old.items ++ verdict_text verdict }
    ensures len { array_vec_len line.new ≤ array_vec_len line.old + 70 }
{
    match verdict {
        Verdict::Accepted { kind, plan } => {
            put_accepted(line, kind);
            put_plan(line, plan);
        }
        Verdict::Departed { plan, window } => {
            put(line, b" OK DEP ");
            put_number(line, u64::from(plan));
            line.push(b' ');
            put(line, window_name(window));
        }
        Verdict::Refused(refusal) => put_refusal(line, refusal),
    }
}

/// Appends the answer line of a receipt. `line` is passed in, so that its 192 bytes aren't copied.
#[inline(always)]
fn put_answer(line: &mut Line, receipt: &Receipt)
    requires { array_vec_len line.old + 91 ≤ 192 }
    ensures { line.new.items ≡ line.old.items ++ answer_line receipt.now }
{
    put_number(line, u64::from(receipt.number));
    put_verdict(line, receipt.verdict);
    line.push(b'\n');
}

/// Appends the fields that identify the flight of a notice.
fn put_flight(line: &mut Line, notice: &Notice)
    requires { array_vec_len line.old + 70 ≤ 192 }
    ensures items { line.new.items ≡ line.old.items ++ flight_text notice.now }
    ensures len { array_vec_len line.new ≤ array_vec_len line.old + 70 }
{
    put(line, b" -ARCID ");
    put(line, notice.ident.as_bytes());
    put(line, b" -ADEP ");
    put(line, notice.dep.as_bytes());
    put(line, b" -ADES ");
    put(line, notice.dest.as_bytes());
    put(line, b" -EOBD ");
    put(line, notice.off_block.yymmdd().as_bytes());
    put(line, b" -EOBT ");
    put(line, notice.off_block.hhmm().as_bytes());
}

/// Appends a calculated take-off time (CTOT) and the regulation that causes it.
fn put_told(line: &mut Line, told: &Told)
    requires { array_vec_len line.old + 30 ≤ 192 }
    ensures items { line.new.items ≡ line.old.items ++ told_text told.now }
    ensures len { array_vec_len line.new ≤ array_vec_len line.old + 30 }
{
    put(line, told.ctot.hhmm().as_bytes());
    put(line, b" -REGUL ");
    put(line, told.regulation.as_bytes());
}

fn put_notice(line: &mut Line, notice: &Notice)
    requires { array_vec_len line.old + 121 ≤ 192 }
    ensures { line.new.items ≡ line.old.items ++ notice_line notice.now }
{
    match &notice.says {
        Said::Sam(told) => {
            put(line, b"-TITLE SAM");
            put_flight(line, notice);
            put(line, b" -CTOT ");
            put_told(line, told);
        }
        Said::Srm(told) => {
            put(line, b"-TITLE SRM");
            put_flight(line, notice);
            put(line, b" -NEWCTOT ");
            put_told(line, told);
        }
        Said::Slc => {
            put(line, b"-TITLE SLC");
            put_flight(line, notice);
        }
    }
    line.push(b'\n');
}

fn write_line<W: Write>(writer: &mut Counted<W>, receipt: &Receipt) -> Result<(), WriteFault>
    ensures { Writes W.contents result writer.old writer.new (answer_line receipt.now) }
{
    let mut line = ArrayVec::new();
    put_answer(&mut line, receipt);
    write_bytes(writer, line.as_slice())
}

fn write_notice<W: Write>(writer: &mut Counted<W>, notice: &Notice) -> Result<(), WriteFault>
    ensures { Writes W.contents result writer.old writer.new (notice_line notice.now) }
{
    let mut line = ArrayVec::new();
    put_notice(&mut line, notice);
    write_bytes(writer, line.as_slice())
}

/// Writes the answer line of a receipt and the lines of its notices. After an `Err` a prefix of
/// them was written.
pub(crate) fn write_lines<W: Write>(
    writer: &mut Counted<W>,
    receipt: &Receipt,
    notices: &[Notice],
) -> Result<(), WriteFault>
    ensures { Writes W.contents result writer.old writer.new
        (answer_line receipt.now ++ flat_map notice_line notices.now) }
{
    write_line(writer, receipt)?;
    write_notices(writer, notices)
}

fn write_notices<W: Write>(writer: &mut Counted<W>, notices: &[Notice]) -> Result<(), WriteFault>
    ensures { Writes W.contents result writer.old writer.new (flat_map notice_line notices.now) }
{
    for notice in notices {
        write_notice(writer, notice)?;
    }
    Ok(())
}

/// A line of at most 192 bytes.
pub(crate) type Line = ArrayVec<u8, 192>;

/// Appends a text to a line that has the capacity.
#[inline(always)]
pub(crate) fn put(line: &mut Line, text: &[u8])
    requires { array_vec_len line.old + length text.now ≤ 192 }
    ensures items { line.new.items ≡ line.old.items ++ text.now }
    ensures len { array_vec_len line.new ≡ array_vec_len line.old + length text.now }
{
    let _all = line.try_extend_from_slice(text);
}

/// The numbers below 100, in two digits each.
const PAIRS: [u8; 200] = *b"0001020304050607080910111213141516171819\
    2021222324252627282930313233343536373839\
    4041424344454647484950515253545556575859\
    6061626364656667686970717273747576777879\
    8081828384858687888990919293949596979899";

/// Appends two digits of a number below 100.
fn put_pair(line: &mut Line, number: u32)
    requires below { number < 100 }
    requires room { array_vec_len line.old + 2 ≤ 192 }
    ensures items { line.new.items ≡ line.old.items ++ (48 + number / 10)
        ∷ (48 + number % 10) ∷ [] }
    ensures len { array_vec_len line.new ≡ array_vec_len line.old + 2 }
{
    let index = 2 * number as usize;
    line.push(PAIRS[index]);
    line.push(PAIRS[index + 1]);
}

/// Appends a number below 100 in decimal digits.
#[tactic(auto, using(std::proofs::lemmas::Fmt::decimal_digit, itoa::proofs::Decimal::decimal_two))]
pub(crate) fn put_below_100(line: &mut Line, number: u32)
    requires below { number < 100 }
    requires room { array_vec_len line.old + 2 ≤ 192 }
    ensures items { line.new.items ≡ line.old.items ++ decimal number }
    ensures len { array_vec_len line.new ≤ array_vec_len line.old + 2 }
{
    if number < 10 {
        line.push(b'0' + number as u8);
    } else {
        put_pair(line, number);
    }
}

/// Appends a number below 10,000 in decimal digits.
fn put_below_10_000(line: &mut Line, number: u32)
    requires below { number < 10000 }
    requires room { array_vec_len line.old + 4 ≤ 192 }
    ensures items { line.new.items ≡ line.old.items ++ decimal number }
    ensures len { array_vec_len line.new ≤ array_vec_len line.old + 4 }
{
    if number < 100 {
        put_below_100(line, number);
        return;
    }
    put_below_100(line, number / 100);
    put_pair(line, number % 100);
}

/// Appends a number below 1,000,000 in decimal digits.
fn put_below_1_000_000(line: &mut Line, number: u32)
    requires below { number < 1000000 }
    requires room { array_vec_len line.old + 6 ≤ 192 }
    ensures items { line.new.items ≡ line.old.items ++ decimal number }
    ensures len { array_vec_len line.new ≤ array_vec_len line.old + 6 }
{
    if number < 100 {
        put_below_100(line, number);
        return;
    }
    put_below_10_000(line, number / 100);
    put_pair(line, number % 100);
}

/// Appends a number in decimal digits; of a number below a million they are written at their index,
/// two at a time.
pub(crate) fn put_number(line: &mut Line, number: u64)
    requires { array_vec_len line.old + 20 ≤ 192 }
    ensures items { line.new.items ≡ line.old.items ++ decimal number }
    ensures len { array_vec_len line.new ≤ array_vec_len line.old + 20 }
{
    if number < 1_000_000 {
        put_below_1_000_000(line, number as u32);
        return;
    }
    let mut buffer = Buffer::new();
    put(line, buffer.format(number).as_bytes());
}
