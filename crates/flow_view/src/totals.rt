//! Sums and counts of the rows of a slot list.
ghost use Rattle.std.specs.Prelude.{◌≡◌, ◌≤◌, ◌<◌, length};
ghost use Rattle.flow_view.specs.Totals.{entry_of, delay_of, totals_of, mean_tenths};
ghost use Rattle.fpl_text.specs.declared.minute.TheConstants.{GREATEST_MINUTE};
ghost use Rattle.flow_plans.specs.declared.setup.TheConstants.{MAX_ENTRIES};

use crate::slot_row::SlotRow;
use fpl_text::Minute;

/// Sums and counts of the rows of a slot list.
#[derive(Clone, Copy)]
pub struct Totals {
    /// The number of flights that hold a slot.
    pub flights: u64,
    /// The number of them with a frozen slot, departed ones included.
    pub frozen: u64,
    /// The number of them with a slot after their planned entry.
    pub delayed: u64,
    /// The sum of the delays, in minutes.
    pub total: u64,
    /// The greatest delay, in minutes.
    pub greatest: u32,
}

impl SlotRow {
    /// The planned entry of the flight.
    pub fn entry(&self) -> Option<Minute>
        ensures { result ≡ entry_of self.now }
    {
        match &self.flight {
            Some(flight) => flight.entry,
            None => None,
        }
    }

    /// The minutes from the planned entry to the slot; 0 if there is no such entry.
    pub fn delay(&self) -> u32
        ensures value { result ≡ delay_of self.now }
        ensures bound { result ≤ GREATEST_MINUTE }
    {
        match self.entry() {
            Some(entry) => self.time.minutes().saturating_sub(entry.minutes()),
            None => 0,
        }
    }
}

/// The sums and counts of the rows.
pub fn totals_of(rows: &[SlotRow]) -> Totals
    requires { length rows.now ≤ MAX_ENTRIES }
    ensures { result ≡ totals_of rows.now }
{
    let mut totals = Totals {
        flights: 0,
        frozen: 0,
        delayed: 0,
        total: 0,
        greatest: 0,
    };
    for row in rows {
        let delay = row.delay();
        totals = Totals {
            flights: totals.flights + 1,
            frozen: totals.frozen + u64::from(row.frozen),
            delayed: totals.delayed + u64::from(delay > 0),
            total: totals.total + u64::from(delay),
            greatest: totals.greatest.max(delay),
        };
    }
    totals
}

/// The mean delay of `flights` flights, in tenths of a minute, rounded; 0 for no flights.
pub fn mean_tenths(total: u64, flights: u64) -> u64
    ensures { result ≡ mean_tenths total flights }
{
    if flights == 0 {
        return 0;
    }
    total.saturating_mul(10).saturating_add(flights / 2) / flights
}
