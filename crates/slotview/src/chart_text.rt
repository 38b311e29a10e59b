//! The words and numbers of a picture.
use crate::moments::{Clock, DateOf};
use crate::named::id_of;
use crate::summary::words_of;
use flow_slots::Shape;
use flow_view::Opening;
use fpl_text::{Minute, Part};
use std::alloc::{AllocError, Global};

/// The name of a regulation, its point and its period. If it was shut, the name has the entry that
/// opened it.
pub fn title_of(alloc: Global, opening: &Opening) -> Result<String, AllocError> {
    let (kind, place) = words_of(opening.spot());
    let name = id_of(opening);
    let (start, end) = opening.shape().period();
    let period = period_text(alloc, start, end)?;
    let period = period.as_str();
    if opening.shut_by().is_some() {
        let opened = opening.opened_by();
        format!(in alloc; "{name}@{opened}, {kind} {place}, {period}")
    } else {
        format!(in alloc; "{name}, {kind} {place}, {period}")
    }
}

/// The number of the entry that shut a regulation, as text. Empty if it is open.
pub fn shut_text(alloc: Global, opening: &Opening) -> Result<String, AllocError> {
    match opening.shut_by() {
        Some(entry) => format!(in alloc; "shut by entry {entry}"),
        None => Ok(String::new(alloc)),
    }
}

/// The parts that aren't empty, with commas between them.
pub fn joined(alloc: Global, parts: &[&str]) -> Result<String, AllocError> {
    let mut text = String::new(alloc);
    for part in parts {
        if part.is_empty() {
            continue;
        }
        if !text.is_empty() {
            text.push_str(", ")?;
        }
        text.push_str(part)?;
    }
    Ok(text)
}

/// The title of a regulation with the entry that shut it.
pub fn heading_of(alloc: Global, opening: &Opening) -> Result<String, AllocError> {
    let title = title_of(alloc, opening)?;
    let shut = shut_text(alloc, opening)?;
    joined(alloc, [title.as_str(), shut.as_str()].as_slice())
}

/// A period in words.
pub fn period_text(alloc: Global, start: Minute, end: Minute) -> Result<String, AllocError> {
    let date = DateOf(start);
    let from = Clock(start);
    let to = Clock(end);
    let mut text = format!(in alloc; "{date} {from} to ")?;
    if start.minutes() / 1440 != end.minutes() / 1440 {
        let date = DateOf(end);
        write!(text, "{date} ")?;
    }
    write!(text, "{to} UTC")?;
    Ok(text)
}

/// The number of sub-periods in the first line of rates.
const IN_FIRST_LINE: usize = 4;

/// The hourly rates of the sub-periods, in two lines.
pub fn rates_of(alloc: Global, shape: &Shape) -> Result<(String, String), AllocError> {
    let (start, _) = shape.period();
    let rate = shape.rate();
    let from = Clock(start);
    let mut first = format!(in alloc; "Slots an hour: {rate} from {from}")?;
    let mut second = String::new(alloc);
    for (index, part) in shape.parts().iter().enumerate() {
        if index + 1 < IN_FIRST_LINE {
            add_rate(&mut first, part)?;
        } else {
            add_rate(&mut second, part)?;
        }
    }
    Ok((first, second))
}

/// Appends the rate of a further sub-period to a line.
fn add_rate(line: &mut String, part: &Part) -> Result<(), AllocError> {
    if !line.is_empty() {
        line.push_str(", ")?;
    }
    let rate = part.rate;
    let from = Clock(part.from);
    write!(line, "{rate} from {from}")
}
