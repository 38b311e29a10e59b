//! The course of a flight: what was filed about it, with its times.
use flow_core::{Core, Entry, Kind, Said, Verdict, Window};
use fpl_message::{Filing, Message, Order, Reading};
use fpl_text::{Minute, Text, TimeOfDay};
use std::alloc::{AllocError, Global};
use std::collections::HashMap;
use std::fmt;

/// A time of day.
#[derive(Clone, Copy)]
pub struct OfDay {
    hour: u8,
    minute: u8,
}

impl OfDay {
    fn of(time: TimeOfDay) -> OfDay {
        OfDay {
            hour: time.hour(),
            minute: time.minute(),
        }
    }
}

impl fmt::Display for OfDay {
    fn fmt<W: fmt::Write>(&self, f: &mut fmt::Formatter<W>) -> fmt::Result {
        let hour = self.hour;
        let minute = self.minute;
        write!(f, "{hour:02}{minute:02}")
    }
}

/// How a take-off time compares with the CTOT last issued.
#[derive(Clone, Copy)]
pub enum Timing {
    Early,
    InWindow,
    Late,
}

impl Timing {
    /// The timing of a slot tolerance window. `None` if no CTOT was issued.
    fn of(window: Window) -> Option<Timing> {
        match window {
            Window::None => None,
            Window::Early => Some(Timing::Early),
            Window::InWindow => Some(Timing::InWindow),
            Window::Late => Some(Timing::Late),
        }
    }

    /// Its name, as in the desk's answers.
    pub fn name(self) -> &'static str {
        match self {
            Timing::Early => "Early",
            Timing::InWindow => "InWindow",
            Timing::Late => "Late",
        }
    }
}

/// The kind of an event.
#[derive(Clone, Copy)]
pub enum What {
    Fpl,
    Dla,
    Chg,
    Cnl,
    Dep,
    Sam,
    Srm,
    Slc,
}

impl What {
    /// The title of the message or of the notice.
    pub fn title(self) -> &'static str {
        match self {
            What::Fpl => "FPL",
            What::Dla => "DLA",
            What::Chg => "CHG",
            What::Cnl => "CNL",
            What::Dep => "DEP",
            What::Sam => "SAM",
            What::Srm => "SRM",
            What::Slc => "SLC",
        }
    }
}

/// The kind of an accepted message, and the plan that it is about.
fn about(verdict: Verdict) -> Option<(What, u32)> {
    match verdict {
        Verdict::Accepted { kind, plan } => match kind {
            Kind::Fpl => Some((What::Fpl, plan)),
            Kind::Dla => Some((What::Dla, plan)),
            Kind::Chg => Some((What::Chg, plan)),
            Kind::Cnl => Some((What::Cnl, plan)),
            _ => None,
        },
        Verdict::Departed { plan, .. } => Some((What::Dep, plan)),
        Verdict::Refused(_) => None,
    }
}

/// An accepted message about a flight, or a notice to it.
#[derive(Clone, Copy)]
pub struct Event {
    /// The index of the flight among those that were asked for.
    pub place: usize,
    /// The number of the entry.
    pub entry: u32,
    /// The desk's time then.
    pub time: Minute,
    pub what: What,
    /// The plan that a message is about.
    pub plan: Option<u32>,
    /// The off-block time that a message gives, or that the plan of a notice had.
    pub off_block: Option<Minute>,
    /// The time of day of a departure.
    pub actual: Option<OfDay>,
    /// How the take-off time compares with the CTOT last issued.
    pub timing: Option<Timing>,
    /// The CTOT that a notice issues, and the regulation that causes it.
    pub ctot: Option<Minute>,
    pub cause: Option<Text<8>>,
}

/// Reads the entries of a journal in order, and keeps the desk's time and the off-block times of
/// plans.
#[derive(Drop)]
pub struct Course<'a> {
    alloc: Global,
    core: &'a Core,
    /// The desk's time after the entry that was read last.
    time: Minute,
    off_blocks: HashMap<u32, Minute>,
}

/// The first time at this time of day that isn't before `moment`.
fn first_from(moment: Minute, time: TimeOfDay) -> Option<Minute> {
    let later = u32::from(time.minutes()) + 1440 - moment.minutes() % 1440;
    moment.plus(later % 1440)
}

impl<'a> Course<'a> {
    /// Starts before the first entry.
    pub fn new(alloc: Global, core: &'a Core) -> Self {
        Course {
            alloc,
            core,
            time: core.setup().start(),
            off_blocks: HashMap::new(alloc),
        }
    }

    /// The desk's time after the entry that was read last.
    pub fn time(&self) -> Minute {
        self.time
    }

    /// The filing of an entry.
    fn filing_of(&self, entry: &Entry<'_>) -> Result<Filing, AllocError> {
        let Ok(filing) = Filing::read_as(self.alloc, entry.edition(), entry.text()) else {
            return Err(AllocError);
        };
        Ok(filing)
    }

    /// Reads an entry, which may set the desk's time.
    pub fn pass(&mut self, entry: &Entry<'_>) -> Result<(), AllocError> {
        let Verdict::Accepted {
            kind: Kind::Time,
            ..
        } = entry.receipt().verdict
        else {
            return Ok(());
        };
        let filing = self.filing_of(entry)?;
        if let Reading::Ord(Order::SetTime { at }) = filing.reading() {
            self.time = *at;
        }
        Ok(())
    }

    /// The off-block time as first filed.
    fn first_off_block(&self, plan: u32, time: TimeOfDay) -> Option<Minute> {
        let day = self.core.plan(plan)?.key().day.number();
        let midnight = Minute::new(day.saturating_mul(1440))?;
        midnight.plus(u32::from(time.minutes()))
    }

    /// The off-block time after a delay.
    fn delayed(&self, plan: u32, time: TimeOfDay) -> Option<Minute> {
        let held = self.off_blocks.get(&plan)?;
        first_from(*held, time)
    }

    /// The off-block time that an accepted message about this plan gives, and the time of day of a
    /// departure. The caller has asked for those of all earlier messages about it.
    fn times_of(
        &mut self,
        filing: &Filing,
        plan: u32,
    ) -> Result<(Option<Minute>, Option<OfDay>), AllocError> {
        let Reading::Msg(message) = filing.reading() else {
            return Ok((None, None));
        };
        let off_block = match message {
            Message::Fpl(filed) => self.first_off_block(plan, filed.departure().time),
            Message::Dla(delay) => self.delayed(plan, delay.time),
            Message::Chg(change) => match change.departure() {
                Some(departure) => self.delayed(plan, departure.time),
                None => None,
            },
            _ => None,
        };
        if let Some(moment) = off_block {
            self.off_blocks.insert(plan, moment)?;
        }
        match message {
            Message::Dep(departure) => Ok((off_block, Some(OfDay::of(departure.time)))),
            _ => Ok((off_block, None)),
        }
    }

    /// The event of a message about one of these flights, if an entry filed one.
    fn message_in(
        &mut self,
        entry: &Entry<'_>,
        places: &HashMap<Text<7>, usize>,
    ) -> Result<Option<Event>, AllocError> {
        let receipt = entry.receipt();
        let Some((what, number)) = about(receipt.verdict) else {
            return Ok(None);
        };
        let Some(place) = self.place_of(number, places) else {
            return Ok(None);
        };
        let filing = self.filing_of(entry)?;
        let (off_block, actual) = self.times_of(&filing, number)?;
        let timing = match receipt.verdict {
            Verdict::Departed { window, .. } => Timing::of(window),
            _ => None,
        };
        Ok(Some(Event {
            place,
            entry: receipt.number,
            time: self.time,
            what,
            plan: Some(number),
            off_block,
            actual,
            timing,
            ctot: None,
            cause: None,
        }))
    }

    /// The index of the flight of a plan among these flights.
    fn place_of(&self, number: u32, places: &HashMap<Text<7>, usize>) -> Option<usize> {
        let plan = self.core.plan(number)?;
        places.get(&plan.key().ident).copied()
    }

    /// The notice of this number, if it is to one of these flights.
    fn notice_in(
        &self,
        entry: u32,
        number: u64,
        places: &HashMap<Text<7>, usize>,
    ) -> Option<Event> {
        let notice = self.core.notice(number)?;
        let place = places.get(&notice.ident).copied()?;
        let (what, ctot, cause) = match &notice.says {
            Said::Sam(told) => (What::Sam, Some(told.ctot), Some(told.regulation)),
            Said::Srm(told) => (What::Srm, Some(told.ctot), Some(told.regulation)),
            Said::Slc => (What::Slc, None, None),
        };
        Some(Event {
            place,
            entry,
            time: self.time,
            what,
            plan: None,
            off_block: Some(notice.off_block),
            actual: None,
            timing: None,
            ctot,
            cause,
        })
    }
}

/// All messages about these flights and notices to them: those of one flight together and in the
/// order of the journal, the flights in the order of their indices.
pub fn courses_of(
    alloc: Global,
    core: &Core,
    places: &HashMap<Text<7>, usize>,
) -> Result<Vec<Event>, AllocError> {
    let mut events = Vec::new(alloc);
    let mut course = Course::new(alloc, core);
    for index in 0..core.entries() {
        let Some(entry) = core.entry(index + 1) else {
            break;
        };
        course.pass(&entry)?;
        if let Some(event) = course.message_in(&entry, places)? {
            events.push(event)?;
        }
        let receipt = entry.receipt();
        for index in 0..receipt.notices {
            let number = receipt.first_notice.saturating_add(u64::from(index));
            if let Some(event) = course.notice_in(receipt.number, number, places) {
                events.push(event)?;
            }
        }
    }
    events.sort_by_key(|event| event.place)?;
    Ok(events)
}
