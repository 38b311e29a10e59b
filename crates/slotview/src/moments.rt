//! Times as they are written.
use fpl_text::Minute;
use std::fmt;

/// The time of day of a time, hh:mm.
#[derive(Clone, Copy)]
pub struct Clock(pub Minute);

impl fmt::Display for Clock {
    fn fmt<W: fmt::Write>(&self, f: &mut fmt::Formatter<W>) -> fmt::Result {
        let minute = self.0.minutes() % 1440;
        let hours = minute / 60;
        let minutes = minute % 60;
        write!(f, "{hours:02}:{minutes:02}")
    }
}

/// The date of a time: its year, month and day.
#[derive(Clone, Copy)]
pub struct DateOf(pub Minute);

impl fmt::Display for DateOf {
    fn fmt<W: fmt::Write>(&self, f: &mut fmt::Formatter<W>) -> fmt::Result {
        let date = self.0.day().date();
        let year = date.year();
        let month = date.month();
        let day = date.day();
        write!(f, "{year:04}-{month:02}-{day:02}")
    }
}

/// A time by ISO 8601, in UTC.
#[derive(Clone, Copy)]
pub struct Iso(pub Minute);

impl fmt::Display for Iso {
    fn fmt<W: fmt::Write>(&self, f: &mut fmt::Formatter<W>) -> fmt::Result {
        let date = DateOf(self.0);
        let time = Clock(self.0);
        write!(f, "{date}T{time}:00Z")
    }
}

/// The time of day of a time in four digits, after the day of the month if that is another day.
#[derive(Clone, Copy)]
pub struct Short {
    pub moment: Minute,
    /// The number of the day whose times are written without it.
    pub day: u32,
}

impl fmt::Display for Short {
    fn fmt<W: fmt::Write>(&self, f: &mut fmt::Formatter<W>) -> fmt::Result {
        let minute = self.moment.minutes() % 1440;
        let hours = minute / 60;
        let minutes = minute % 60;
        if self.moment.day().number() != self.day {
            let day = self.moment.day().date().day();
            write!(f, "{day:02}")?;
        }
        write!(f, "{hours:02}{minutes:02}")
    }
}

/// A time in the form of orders: yymmddhhmm.
#[derive(Clone, Copy)]
pub struct Digits(pub Minute);

impl fmt::Display for Digits {
    fn fmt<W: fmt::Write>(&self, f: &mut fmt::Formatter<W>) -> fmt::Result {
        let date = self.0.day().date();
        let year = date.year() % 100;
        let month = date.month();
        let day = date.day();
        let minute = self.0.minutes() % 1440;
        let hours = minute / 60;
        let minutes = minute % 60;
        write!(f, "{year:02}{month:02}{day:02}{hours:02}{minutes:02}")
    }
}
