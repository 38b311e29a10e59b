//! The delay of flights, each by its most penalising regulation.
ghost use Rattle.std.specs.Prelude.{◌≡◌, ◌≤◌, ◌+◌, ◌-◌, ◌*◌, ℕ, IfOk, length, flat_map, slice_get};
ghost use Rattle.std.specs.Option.{option_map, option_to_list};
ghost use Rattle.std.specs.List.Sorted.{IsPermutation, IsNonDecreasingBy};
ghost use Rattle.flow_view.specs.Delays.{row_delay, worse_flight, worse_by, worse_in};
ghost use Rattle.flow_view.specs.Delays.{delays, flights_from_to, flights_over};
ghost use Rattle.flow_view.specs.Delays.{spread_of, delay_in_all, greatest_delay};
ghost use Rattle.flow_view.specs.Delays.{delay_totals, rank_of};
ghost use Rattle.flow_plans.specs.declared.setup.TheConstants.{MAX_PLANS};

use crate::opening::Opening;
use crate::slot_row::SlotRow;
use fpl_text::Text;
use std::alloc::{AllocError, Allocator};

/// The delay of a flight, in its most penalising regulation.
#[derive(Clone, Copy)]
pub struct FlightDelay {
    /// The number of the flight's plan, from 1.
    pub plan: u32,
    /// The minutes from the planned entry to the slot.
    pub minutes: u32,
    /// The number of the entry that opened the regulation.
    pub opened_by: u32,
    /// The name of the regulation.
    pub regulation: Text<8>,
}

/// The number of flights by delay, in minutes.
#[derive(Clone, Copy)]
pub struct Spread {
    pub none: u64,
    /// Of 1 to 5 minutes.
    pub to_5: u64,
    /// Of 6 to 15.
    pub to_15: u64,
    /// Of 16 to 30.
    pub to_30: u64,
    /// Of 31 to 60.
    pub to_60: u64,
    pub over_60: u64,
}

/// Sums and counts of the delays of flights, each flight once.
#[derive(Clone, Copy)]
pub struct DelayTotals {
    /// The number of flights that have a slot.
    pub flights: u64,
    /// The number of them that have a slot after their planned entry.
    pub delayed: u64,
    /// The number of them that have a delay of more than 15 minutes.
    pub over_15: u64,
    /// The sum of the delays, in minutes.
    pub total: u64,
    /// The greatest delay, in minutes.
    pub greatest: u32,
    /// The flights by delay.
    pub spread: Spread,
}

/// The delay that the slot of a row gives in its regulation.
fn delay_in<A: Allocator + Copy>(opening: &Opening<A>, row: &SlotRow) -> FlightDelay
    ensures { result ≡ row_delay opening.now row.now }
{
    FlightDelay {
        plan: row.plan,
        minutes: row.delay(),
        opened_by: opening.opened_by(),
        regulation: *opening.id(),
    }
}

/// The greater delay, the first of equal ones.
fn worse(most: Option<FlightDelay>, later: FlightDelay) -> Option<FlightDelay>
    ensures { result ≡ worse_flight most later }
{
    match most {
        Some(delay) if later.minutes <= delay.minutes => Some(delay),
        _ => Some(later),
    }
}

/// Includes a further row in the greatest delays, of which that of plan `n` is at index `n - 1`.
fn note_row<A: Allocator + Copy>(
    greatest: &mut [Option<FlightDelay>],
    opening: &Opening<A>,
    row: &SlotRow,
)
    ensures { (n : ℕ) → slice_get greatest.new n
        ≡ option_map (λ most. worse_by (n + 1) opening.now most row.now)
        (slice_get greatest.old n) }
{
    if row.plan == 0 {
        return;
    }
    let index = (row.plan - 1) as usize;
    if index < greatest.len() {
        greatest[index] = worse(greatest[index], delay_in(opening, row));
    }
}

/// Includes the rows of a further regulation in the greatest delays.
fn note_rows<A: Allocator + Copy>(greatest: &mut [Option<FlightDelay>], opening: &Opening<A>)
    ensures { (n : ℕ) → slice_get greatest.new n
        ≡ option_map (λ most. worse_in (n + 1) most opening.now) (slice_get greatest.old n) }
{
    for row in opening.rows() {
        note_row(greatest, opening, row);
    }
}

/// Collects the delays that there are.
fn collected<A: Allocator + Copy>(
    alloc: A,
    greatest: &[Option<FlightDelay>],
) -> Result<Vec<FlightDelay, A>, AllocError>
    ensures delays { IfOk result
        (λ made. made.items ≡ flat_map (λ d. option_to_list d) greatest.now) }
    ensures few { IfOk result (λ made. length made.items ≤ length greatest.now) }
{
    let mut delays = Vec::new(alloc);
    for delay in greatest {
        if let Some(delay) = delay {
            delays.push(*delay)?;
        }
    }
    Ok(delays)
}

/// The delays of the flights of plans 1 to `plans`, by number. The delay of a flight that has a
/// slot in one of these regulations is that of the most penalising one, of equal ones the first
/// opened. Returns `Err` if allocation fails.
pub fn delays_of<A: Allocator + Copy>(
    alloc: A,
    plans: u32,
    openings: &[Opening<A>],
) -> Result<Vec<FlightDelay, A>, AllocError>
    ensures delays { IfOk result (λ made. made.items ≡ delays plans openings.now) }
    ensures few { IfOk result (λ made. length made.items ≤ plans) }
{
    let mut greatest = vec![in alloc; None; plans as usize]?;
    for opening in openings {
        note_rows(&mut greatest, opening);
    }
    collected(alloc, greatest.as_slice())
}

/// The number of flights with a delay of `least` to `most` minutes.
fn flights_from_to(delays: &[FlightDelay], least: u32, most: u32) -> u64
    ensures { result ≡ flights_from_to least most delays.now }
{
    let mut count = 0;
    for delay in delays {
        count += u64::from(least <= delay.minutes && delay.minutes <= most);
    }
    count
}

/// The number of flights with a delay of more than `minutes`.
fn flights_over(delays: &[FlightDelay], minutes: u32) -> u64
    ensures { result ≡ flights_over minutes delays.now }
{
    let mut count = 0;
    for delay in delays {
        count += u64::from(minutes < delay.minutes);
    }
    count
}

/// The flights by delay.
fn spread_of(delays: &[FlightDelay]) -> Spread
    ensures { result ≡ spread_of delays.now }
{
    Spread {
        none: flights_from_to(delays, 0, 0),
        to_5: flights_from_to(delays, 1, 5),
        to_15: flights_from_to(delays, 6, 15),
        to_30: flights_from_to(delays, 16, 30),
        to_60: flights_from_to(delays, 31, 60),
        over_60: flights_over(delays, 60),
    }
}

/// The sum of the delays, in minutes.
fn delay_in_all(delays: &[FlightDelay]) -> u64
    requires { length delays.now ≤ MAX_PLANS }
    ensures { result ≡ delay_in_all delays.now }
{
    let mut total = 0;
    for delay in delays {
        total += u64::from(delay.minutes);
    }
    total
}

/// The greatest delay, in minutes.
fn greatest_delay(delays: &[FlightDelay]) -> u32
    ensures { result ≡ greatest_delay delays.now }
{
    let mut most: u32 = 0;
    for delay in delays {
        most = most.max(delay.minutes);
    }
    most
}

/// The sums and counts of the delays of flights.
pub fn delay_totals(delays: &[FlightDelay]) -> DelayTotals
    requires { length delays.now ≤ MAX_PLANS }
    ensures { result ≡ delay_totals delays.now }
{
    DelayTotals {
        flights: delays.len() as u64,
        delayed: flights_over(delays, 0),
        over_15: flights_over(delays, 15),
        total: delay_in_all(delays),
        greatest: greatest_delay(delays),
        spread: spread_of(delays),
    }
}

/// The rank of a flight among the most delayed, as one number: the greater delay comes first, of
/// equal ones that of the first plan.
fn rank(minutes: u32, plan: u32) -> u64
    ensures { result ≡ 4_294_967_296 * (4_294_967_295 - minutes) + plan }
{
    4_294_967_296 * u64::from(u32::MAX - minutes) + u64::from(plan)
}

/// Sorts the delays of flights, the greatest first and equal ones by plan.
pub fn most_delayed_first(delays: &mut [FlightDelay])
    ensures permutation { IsPermutation delays.old delays.new }
    ensures order { IsNonDecreasingBy rank_of delays.new }
{
    delays.sort_unstable_by_key(|delay| rank(delay.minutes, delay.plan));
}
