//! The off-block date and time: what a flight plan asks for, and what a delay makes of one.
ghost use Rattle.std.specs.Prelude.{◌≡◌, ◌≤◌, ◌<◌, ◌+◌, ◌-◌, ◌*◌, Ok};
ghost use Rattle.std.specs.Prelude.{Err, Some, None, IfOk, MatchOption};
ghost use Rattle.flow_plans.specs.Settings.{IsDeskTime};
ghost use Rattle.flow_plans.specs.Times.{first_from, delayed_to, off_blocks_end};
ghost use Rattle.flow_plans.specs.Changes.{asked_off_block, Returns};
ghost use Rattle.fpl_text.specs.declared.minute.TheConstants.{GREATEST_MINUTE};

use crate::fault::PlanFault;
use fpl_message::Fpl;
use fpl_text::{Day, Minute, TimeOfDay};
use std::alloc::Allocator;

/// The limit of a delay, in minutes.
const LONGEST_DELAY: u32 = 720;

/// How many minutes after the desk's time the off-block time may be.
pub(crate) const FURTHEST_AHEAD: u32 = 7200;

/// The off-block date and time after a delay to a time of day.
#[tactic(auto, unfolding(crate::specs::Times::delayed_to))]
pub(crate) fn delayed_to(now: Minute, held: Minute, time: TimeOfDay) -> Result<Minute, PlanFault>
    requires now { IsDeskTime now }
    requires held { held < off_blocks_end }
    ensures answer { Returns result (delayed_to now held time) }
    ensures bound { IfOk result (λ moment. moment < off_blocks_end) }
{
    if held.time_of_day() == time {
        return Err(PlanFault::NotLater);
    }
    let moment = first_from(minute_of(held.minutes() + 1), time);
    if moment.minutes() > held.minutes() + LONGEST_DELAY {
        return Err(PlanFault::DelayTooLong);
    }
    if moment < now {
        return Err(PlanFault::Past);
    }
    if moment.minutes() > now.minutes() + FURTHEST_AHEAD {
        return Err(PlanFault::TooEarly);
    }
    Ok(moment)
}

/// The first time with this time of day that is not before `moment`.
#[tactic(auto, unfolding(crate::specs::Times::first_from))]
fn first_from(moment: Minute, time: TimeOfDay) -> Minute
    requires { moment ≤ off_blocks_end }
    ensures { result ≡ first_from moment time }
{
    let minutes = moment.minutes();
    let today = 1440 * (minutes / 1440) + u32::from(time.minutes());
    if today < minutes {
        minute_of(today + 1440)
    } else {
        minute_of(today)
    }
}

#[tactic(auto, unfolding(fpl_text::specs::Moments::moment_within))]
fn minute_of(minutes: u32) -> Minute
    requires { minutes ≤ GREATEST_MINUTE }
    ensures { result ≡ minutes }
{
    Minute::new(minutes).unwrap()
}

/// A time of day on a day; `None` if it is too far ahead for any desk.
#[tactic(auto, unfolding(fpl_text::specs::Moments::moment_within))]
fn moment_on(day: Day, time: TimeOfDay) -> Option<Minute>
    ensures { MatchOption result (GREATEST_MINUTE < 1440 * day + time) (λ moment.
        moment ≡ 1440 * day + time) }
{
    Minute::new(1440 * day.number() + u32::from(time.minutes()))
}

/// The off-block date and time that a flight plan asks for; `None` if it is too far ahead for any
/// desk.
pub(crate) fn moment_of<A: Allocator + Copy>(message: &Fpl<A>, now: Minute) -> Option<Minute>
    requires { IsDeskTime now }
    ensures { MatchOption result (GREATEST_MINUTE < asked_off_block now message.now)
        (λ moment. moment ≡ asked_off_block now message.now) }
{
    let time = message.departure().time;
    match message.other().day() {
        Some(day) => moment_on(day, time),
        None => Some(first_from(now, time)),
    }
}
