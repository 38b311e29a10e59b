//! The period of a regulation with its rates: the times of its slots, and the first slot not before
//! an entry, which a table has for each minute.

ghost use Rattle.std.specs.Prelude.{◌≡◌, ◌+◌, ◌-◌, ◌*◌, ◌<◌, ◌≤◌, ◌↔◌, IsSome, IfSome, IsTrue};
ghost use Rattle.std.specs.Prelude.{None, length, IfOk};
ghost use Rattle.flow_slots.specs.Limits.{rises, rates_fit, is_period, broken_limit};
ghost use Rattle.flow_slots.specs.Period.{Period, IsRegular, IsWithin, AreSubperiods, slots_in};
ghost use Rattle.flow_slots.specs.Period.{time_from, slot_from, slot_time, first_slot};
ghost use Rattle.flow_slots.specs.Period.{slots_before_end, IsFirstSlot, most_before_end};
ghost use Rattle.flow_slots.specs.Period.{most_slots};

use fpl_text::{MOST_PARTS, Minute, Part, YEAR_2000, YEAR_2099};
use std::alloc::{AllocError, Allocator};
use std::marker::Model;

/// The limit of a rate, in slots an hour.
const MOST_AN_HOUR: u32 = 240;

/// The limit of a period, in minutes.
pub const LONGEST_PERIOD: u32 = 1440;

/// A limit of a regulation.
#[derive(Clone, Copy, Debug, PartialEq, Eq)]
pub enum Limit {
    /// Of the period and its sub-periods.
    Period,
    /// Of the hourly rates.
    Rate,
}

/// The period of a regulation and its hourly rates, from which its list of slots is made (ATFCM
/// Users Manual, slot allocation). It begins with one rate, and each of the parts begins a further
/// sub-period with a rate of its own; the last one continues after the end.
#[derive(Drop)]
pub struct Shape {
    start: Minute,
    end: Minute,
    rate: u32,
    parts: [Part; MOST_PARTS],
    count: usize,
}

impl Model for Shape {
    ghost use Rattle.std.specs.Prelude.{◌≤◌, take};
    ghost use Rattle.flow_slots.specs.Period.{Period, IsRegular};
    ghost use Rattle.fpl_text.specs.declared.part.TheConstants.{MOST_PARTS};

    ghost Value = { Period };

    ghost view = { λ s. record {
      start = s.start;
      end = s.end;
      rate = s.rate;
      parts = take s.count s.parts;
    } };

    ghost invariant = { λ s. (s.count ≤ MOST_PARTS) × IsRegular (record {
      start = s.start;
      end = s.end;
      rate = s.rate;
      parts = take s.count s.parts;
    }) };
}

/// The number of slots in `minutes` minutes.
fn slots_in(rate: u32, minutes: u32) -> u32
    requires rate { rate ≤ MOST_AN_HOUR }
    requires minutes { minutes ≤ LONGEST_PERIOD }
    ensures { result ≡ slots_in rate minutes }
{
    (minutes * rate).div_ceil(60)
}

/// Whether each sub-period begins after the one before it, and the last one before the end.
fn rises(end: Minute, start: Minute, parts: &[Part]) -> bool
    ensures { result ≡ rises end start parts.now }
{
    let mut last = start;
    for part in parts {
        if part.from <= last {
            return false;
        }
        last = part.from;
    }
    last < end
}

/// Whether each rate is at most 240 flights an hour, and the last one at least 1.
fn rates_fit(rate: u32, parts: &[Part]) -> bool
    ensures { result ≡ rates_fit rate parts.now }
{
    let mut hourly = rate;
    for part in parts {
        if MOST_AN_HOUR < hourly {
            return false;
        }
        hourly = part.rate;
    }
    0 < hourly && hourly <= MOST_AN_HOUR
}

/// Whether the period has 1 to 1,440 minutes, and its sub-periods begin one after the other within
/// it.
fn is_period(start: Minute, end: Minute, parts: &[Part]) -> bool
    ensures { result ≡ is_period start end parts.now }
{
    end.minutes().saturating_sub(start.minutes()) <= LONGEST_PERIOD && rises(end, start, parts)
}

/// Returns the limit that is broken: a period of 1 to 1,440 minutes, whose sub-periods begin one
/// after the other within it, or rates of at most 240 flights an hour, the last one at least 1.
/// That of the period comes first. `None` if all are kept.
pub fn broken_limit(start: Minute, end: Minute, rate: u32, parts: &[Part]) -> Option<Limit>
    ensures { result
        ≡ broken_limit (record { start = start; end = end; rate = rate; parts = parts.now }) }
{
    if !is_period(start, end, parts) {
        return Some(Limit::Period);
    }
    if !rates_fit(rate, parts) {
        return Some(Limit::Rate);
    }
    None
}

fn time_from(start: Minute, end: Minute, rate: u32, parts: &[Part], k: u32) -> Minute
    requires subperiods { AreSubperiods end start rate parts.now }
    requires at_most_a_day { end - start ≤ LONGEST_PERIOD }
    requires before { end < YEAR_2099 }
    requires last { k ≤ most_slots }
    ensures { result ≡ time_from start rate parts.now k }
{
    let mut from = start;
    let mut hourly = rate;
    let mut left = k;
    for part in parts {
        let slots = slots_in(hourly, part.from.minutes() - from.minutes());
        if left < slots {
            return Minute::from_minutes(from.minutes() + 60 * left / hourly);
        }
        left -= slots;
        from = part.from;
        hourly = part.rate;
    }
    Minute::from_minutes(from.minutes() + 60 * left / hourly)
}

/// The number of the first slot not before a time in minutes.
fn slot_from(start: Minute, end: Minute, rate: u32, parts: &[Part], moment: u32) -> u32
    requires subperiods { AreSubperiods end start rate parts.now }
    requires at_most_a_day { end - start ≤ LONGEST_PERIOD }
    requires not_before { start ≤ moment }
    requires not_after { moment ≤ end }
    ensures { result ≡ slot_from start rate parts.now moment }
{
    let mut from = start;
    let mut hourly = rate;
    let mut before = 0;
    for part in parts {
        if moment < part.from.minutes() {
            return before + slots_in(hourly, moment - from.minutes());
        }
        before += slots_in(hourly, part.from.minutes() - from.minutes());
        from = part.from;
        hourly = part.rate;
    }
    before + slots_in(hourly, moment - from.minutes())
}

impl Shape {
    /// Creates the shape of a regulation from `start` to before `end`, which begins with `rate`
    /// slots an hour; each part begins a further sub-period. In the years 2000 to 2098 and with at
    /// most 7 parts it returns `None` if, and only if, [`broken_limit`] returns a limit.
    pub fn new(start: Minute, end: Minute, rate: u32, parts: &[Part]) -> Option<Shape>
        ensures limits { IsSome result
            ↔ IsRegular (record { start = start; end = end; rate = rate; parts = parts.now }) }
        ensures exact { YEAR_2000 ≤ start → end < YEAR_2099 → length parts.now ≤ MOST_PARTS
            → (IsSome result
            ↔ (broken_limit (record { start = start; end = end; rate = rate; parts = parts.now })
            ≡ None)) }
        ensures value { IfSome result
            (λ s. s ≡ record { start = start; end = end; rate = rate; parts = parts.now }) }
    {
        let count = parts.len();
        if count > MOST_PARTS || start.minutes() < YEAR_2000 || YEAR_2099 <= end.minutes() {
            return None;
        }
        if broken_limit(start, end, rate, parts).is_some() {
            return None;
        }
        let mut held = [Part {
            from: start,
            rate: 0,
        }; MOST_PARTS];
        held[..count].copy_from_slice(parts);
        Some(Shape {
            start,
            end,
            rate,
            parts: held,
            count,
        })
    }

    /// Returns the time of slot `k`, counted from 0: a sub-period has a slot each 60 / rate minutes
    /// from its beginning, rounded down, and the last one continues after the end.
    pub fn slot_time(&self, k: u32) -> Minute
        requires { k ≤ most_slots }
        ensures { result ≡ slot_time self.now k }
    {
        time_from(
            self.start,
            self.end,
            self.rate,
            &self.parts[..self.count],
            k,
        )
    }

    /// Returns the start of the period, and its end, the first minute after it.
    pub fn period(&self) -> (Minute, Minute)
        ensures start { result.0 ≡ self.now.start }
        ensures end { result.1 ≡ self.now.end }
    {
        (self.start, self.end)
    }

    /// Returns the first rate, in slots an hour.
    pub fn rate(&self) -> u32
        ensures { result ≡ self.now.rate }
    {
        self.rate
    }

    /// Returns the further sub-periods, in their order.
    pub fn parts(&self) -> &[Part]
        ensures { result.now ≡ self.now.parts }
    {
        &self.parts[..self.count]
    }

    /// Whether a time is in the period.
    pub fn contains(&self, moment: Minute) -> bool
        ensures { IsTrue result ↔ IsWithin self.now moment }
    {
        self.start <= moment && moment < self.end
    }

    /// Returns the number of the first slot not before `entry`.
    pub fn first_slot(&self, entry: Minute) -> u32
        requires { IsWithin self.now entry }
        ensures value { result ≡ first_slot self.now entry }
        ensures first { IsFirstSlot self.now entry result }
    {
        slot_from(
            self.start,
            self.end,
            self.rate,
            &self.parts[..self.count],
            entry.minutes(),
        )
    }

    /// Whether both have the same period, rates and sub-periods.
    pub(crate) fn is(&self, other: &Shape) -> bool
        ensures { IsTrue result ↔ (self.now ≡ other.now) }
    {
        self.start == other.start
            && self.end == other.end
            && self.rate == other.rate
            && self.parts[..self.count] == other.parts[..other.count]
    }

    #[inline]
    pub(crate) fn start_minutes(&self) -> u32
        ensures { result ≡ self.now.start }
    {
        self.start.minutes()
    }

    /// The length of the period in minutes.
    pub(crate) fn minutes(&self) -> u32
        ensures { result ≡ self.now.end - self.now.start }
    {
        self.end.minutes().saturating_sub(self.start.minutes())
    }

    /// The number of the first slot `minutes` minutes after the start.
    pub(crate) fn first_slot_in(&self, minutes: u32) -> u32
        requires { minutes < self.now.end - self.now.start }
        ensures value { result ≡ first_slot self.now (self.now.start + minutes) }
        ensures most { result ≤ most_before_end }
    {
        let moment = self.start.minutes() + minutes;
        slot_from(
            self.start,
            self.end,
            self.rate,
            &self.parts[..self.count],
            moment,
        )
    }

    /// Returns the number of slots before the end.
    pub fn slots_before_end(&self) -> u32
        ensures value { result ≡ slots_before_end self.now }
        ensures at_most { result ≤ most_before_end }
        ensures regular { IsRegular self.now }
    {
        slot_from(
            self.start,
            self.end,
            self.rate,
            &self.parts[..self.count],
            self.end.minutes(),
        )
    }
}

/// The shape of a regulation with a table of the first slot of each minute, so that a chain that
/// moves up divides nothing. A slot's number takes two bytes.
#[derive(Drop)]
pub(crate) struct FirstSlots<A: Allocator + Copy> {
    shape: Shape,
    by_minute: Vec<u16, A>,
}

impl<A: Allocator + Copy> Model for FirstSlots<A> {
    ghost use Rattle.flow_slots.specs.Period.{Period, AreFirstSlots};

    ghost Value = { Period };

    ghost view = { λ f. f.shape };

    ghost invariant = { λ f. AreFirstSlots f.shape f.by_minute.items };
}

impl<A: Allocator + Copy> FirstSlots<A> {
    pub(crate) fn new(alloc: A, shape: Shape) -> Result<FirstSlots<A>, AllocError>
        ensures { IfOk result (λ f. f ≡ shape) }
    {
        let minutes = shape.minutes();
        let mut by_minute = vec![in alloc; 0; minutes as usize]?;
        for minute in 0..minutes {
            by_minute[minute as usize] = shape.first_slot_in(minute) as u16;
        }
        Ok(FirstSlots { shape, by_minute })
    }

    pub(crate) fn shape(&self) -> &Shape
        ensures { result.now ≡ self.now }
    {
        &self.shape
    }

    #[inline]
    pub(crate) fn by_ref(&self) -> FirstSlotsRef<'_>
        ensures { result ≡ self.now }
    {
        FirstSlotsRef {
            shape: &self.shape,
            by_minute: &self.by_minute,
        }
    }

    /// The number of the first slot not before an entry in minutes.
    #[inline]
    pub(crate) fn at(&self, entry: u32) -> u32
        requires { IsWithin self.now entry }
        ensures { result ≡ first_slot self.now entry }
    {
        self.by_ref().at(entry - self.shape.start_minutes())
    }
}

/// The first slots by reference: a loop that writes cells keeps the table's place in a register.
#[derive(Drop)]
pub(crate) struct FirstSlotsRef<'a> {
    shape: &'a Shape,
    by_minute: &'a [u16],
}

impl<'a> Model for FirstSlotsRef<'a> {
    ghost use Rattle.flow_slots.specs.Period.{Period, AreFirstSlots};

    ghost Value = { Period };

    ghost view = { λ f. f.shape.now };

    ghost invariant = { λ f. AreFirstSlots f.shape.now f.by_minute.now };
}

impl<'a> FirstSlotsRef<'a> {
    /// The number of the first slot not before an entry, which is given in minutes from the start.
    #[inline]
    pub(crate) fn at(&self, minutes: u32) -> u32
        requires { minutes < self.now.end - self.now.start }
        ensures { result ≡ first_slot self.now (self.now.start + minutes) }
    {
        u32::from(self.by_minute[minutes as usize])
    }

    /// Whether a time, in minutes from the start, is before the end, and its first slot before slot
    /// `k`.
    #[inline]
    pub(crate) fn is_before(&self, minutes: u32, k: usize) -> bool
        ensures { IsTrue result ↔ (minutes < self.now.end - self.now.start)
            × (first_slot self.now (self.now.start + minutes) < k) }
    {
        (minutes as usize) < self.by_minute.len()
            && usize::from(self.by_minute[minutes as usize]) < k
    }
}
