//! The regulations of a desk and the counts of their points on a page.
use crate::chart::put_chart;
use crate::chart_text::{heading_of, period_text};
use crate::count::{counts_in, flights_of, later_by, period_of};
use crate::count_chart::put_count_chart;
use crate::delay::mean_of;
use crate::fault::{Fault, unwritten};
use crate::html::{Caption, Head, Number, PICTURE_BOX, Tenths, When, begin_table, end_table, put};
use crate::list::holding_name;
use crate::moments::Digits;
use crate::named::id_of;
use crate::options::Asked;
use crate::summary::{rates_text, totals_in, words_of};
use flow_core::Core;
use flow_slots::LONGEST_PERIOD;
use flow_view::{Count, Line, Opening, lines_with};
use fpl_message::Spot;
use fpl_text::Minute;
use std::alloc::{AllocError, Global};
use std::io::Write;

static REGULATIONS: [Head; 11] = [
    Head("Name", false),
    Head("Place", false),
    Head("From", false),
    Head("To", false),
    Head("Slots an hour", false),
    Head("Flights", true),
    Head("Delayed", true),
    Head("Total, min", true),
    Head("Mean, min", true),
    Head("Most, min", true),
    Head("Shut by entry", true),
];

static SLOTS: [Head; 11] = [
    Head("Slot", true),
    Head("Time", false),
    Head("Flight", false),
    Head("From", false),
    Head("To", false),
    Head("EOBT", false),
    Head("Entry", false),
    Head("Delay, min", true),
    Head("State", false),
    Head("CTOT issued", false),
    Head("Cause", false),
];

static COUNTS: [Head; 6] = [
    Head("Hour", false),
    Head("Flights", true),
    Head("Subject", true),
    Head("Exempt", true),
    Head("Departed", true),
    Head("Entered", true),
];

/// The minutes of a step of a picture: fewer in a short period.
fn step_of(opening: &Opening) -> u32 {
    let (from, to) = opening.shape().period();
    if to.minutes().saturating_sub(from.minutes()) > 480 {
        60
    } else {
        20
    }
}

/// Writes the row of a regulation.
fn put_row<W: Write>(alloc: Global, writer: &mut W, opening: &Opening) -> Result<(), Fault> {
    let totals = totals_in(opening);
    let id = id_of(opening);
    let entry = opening.opened_by();
    let (kind, place) = words_of(opening.spot());
    let (start, end) = opening.shape().period();
    let day = start.day().number();
    let from = When {
        moment: Some(start),
        day,
    };
    let to = When {
        moment: Some(end),
        day,
    };
    let rates = rates_text(alloc, opening.shape())?;
    let flights = totals.flights;
    let delayed = totals.delayed;
    let total = totals.total;
    let mean = Tenths(mean_of(total, flights));
    let most = totals.greatest;
    let shut = Number(opening.shut_by());
    write!(
        writer,
        "<tr><th scope=\"row\"><a href=\"#regulation-{id}-{entry}\">{id}</a></th>\
            <td>{kind} {place}</td>\
            <td>{from}</td><td>{to}</td><td>{rates}</td><td class=\"n\">{flights}</td>\
            <td class=\"n\">{delayed}</td><td class=\"n\">{total}</td><td class=\"n\">{mean}</td>\
            <td class=\"n\">{most}</td><td class=\"n\">{shut}</td></tr>\n"
    )
    .map_err(unwritten)
}

/// Writes a line of a slot list.
fn put_line<W: Write>(writer: &mut W, line: &Line, day: u32) -> Result<(), Fault> {
    let Some(flight) = &line.row.flight else {
        return Ok(());
    };
    let slot = line.row.slot;
    let time = When {
        moment: Some(line.row.time),
        day,
    };
    let ident = str::from_utf8(flight.ident.as_bytes()).unwrap_or("");
    let dep = str::from_utf8(flight.dep.as_bytes()).unwrap_or("");
    let dest = str::from_utf8(flight.dest.as_bytes()).unwrap_or("");
    let eobt = When {
        moment: Some(flight.off_block),
        day,
    };
    let entry = When {
        moment: flight.entry,
        day,
    };
    let delay = line.delay;
    let state = str::from_utf8(holding_name(line.holding)).unwrap_or("");
    let ctot = When {
        moment: line.ctot,
        day,
    };
    let cause = match &line.cause {
        Some(cause) => str::from_utf8(cause.as_bytes()).unwrap_or(""),
        None => "",
    };
    write!(
        writer,
        "<tr><td class=\"n\">{slot}</td><td>{time}</td>\
            <th scope=\"row\"><a href=\"#flight-{ident}\">{ident}</a></th><td>{dep}</td>\
            <td>{dest}</td>\
            <td>{eobt}</td><td>{entry}</td><td class=\"n\">{delay}</td><td>{state}</td>\
            <td>{ctot}</td>\
            <td>{cause}</td></tr>\n"
    )
    .map_err(unwritten)
}

/// Writes the slot list of a regulation.
fn put_slots<W: Write>(alloc: Global, writer: &mut W, opening: &Opening) -> Result<(), Fault> {
    let (start, _) = opening.shape().period();
    let day = start.day().number();
    let id = id_of(opening);
    let entry = opening.opened_by();
    let table = format!(in alloc; "slots-{id}-{entry}")?;
    let text = format!(in alloc; "Slot list of {id}")?;
    begin_table(writer, Caption(table.as_str(), text.as_str()), &SLOTS)?;
    put(writer, "<tbody>\n")?;
    for line in &lines_with(alloc, opening.rows())? {
        put_line(writer, line, day)?;
    }
    put(writer, "</tbody>\n")?;
    end_table(writer)
}

/// Writes a regulation: its picture and its slot list, folded.
fn put_regulation<W: Write>(
    alloc: Global,
    writer: &mut W,
    core: &Core,
    opening: &Opening,
) -> Result<(), Fault> {
    let heading = heading_of(alloc, opening)?;
    let heading = heading.as_str();
    let id = id_of(opening);
    let entry = opening.opened_by();
    let flights = opening.rows().len();
    write!(
        writer,
        "<section id=\"regulation-{id}-{entry}\">\n<h3>{heading}</h3>\n\
            <details><summary>Chart and slot list of {id}: {flights} flights</summary>\n\
            {PICTURE_BOX}"
    )
    .map_err(unwritten)?;
    put_chart(alloc, writer, core, opening, step_of(opening))?;
    put(writer, "</div>\n")?;
    put_slots(alloc, writer, opening)?;
    put(writer, "</details>\n</section>\n")
}

/// Writes the regulations of a desk, including those that were shut.
pub fn put_regulation_section<W: Write>(
    alloc: Global,
    writer: &mut W,
    core: &Core,
    openings: &[Opening],
) -> Result<(), Fault> {
    put(
        writer,
        "<section id=\"regulations\">\n<h2>Regulations</h2>\n",
    )?;
    begin_table(
        writer,
        Caption(
            "regulations",
            "A regulation that was shut is shown as it was before that",
        ),
        &REGULATIONS,
    )?;
    put(writer, "<tbody>\n")?;
    for opening in openings {
        put_row(alloc, writer, opening)?;
    }
    put(writer, "</tbody>\n")?;
    end_table(writer)?;
    for opening in openings {
        put_regulation(alloc, writer, core, opening)?;
    }
    put(writer, "</section>\n")
}

/// The time that is counted for a regulation: whole hours, from one before its period to one after
/// it. If that is longer than may be counted, the longest time that may be, from the start of the
/// period, which is no longer.
fn hours_of(opening: &Opening) -> (Minute, Minute) {
    let (start, end) = opening.shape().period();
    let before = (start.minutes() / 60).saturating_sub(1);
    let after = end.minutes().div_ceil(60).saturating_add(1);
    let from = Minute::new(before.saturating_mul(60)).unwrap_or(start);
    let to = Minute::new(after.saturating_mul(60)).unwrap_or(end);
    if is_countable(from, to) {
        (from, to)
    } else {
        (start, later_by(start, LONGEST_PERIOD))
    }
}

/// Whether a period is short enough to be counted.
fn is_countable(from: Minute, to: Minute) -> bool {
    to.minutes().saturating_sub(from.minutes()) <= LONGEST_PERIOD
}

/// What is counted for a regulation: its hours, and those of the other regulations of its point
/// that don't make them too many.
fn asked_for(opening: &Opening, openings: &[Opening]) -> Asked {
    let (mut from, mut to) = hours_of(opening);
    for other in openings {
        if !is_same(other.spot(), opening.spot()) {
            continue;
        }
        let (start, end) = hours_of(other);
        if is_countable(from.min(start), to.max(end)) {
            from = from.min(start);
            to = to.max(end);
        }
    }
    Asked {
        spot: *opening.spot(),
        from: Some(from),
        to: Some(to),
        step: 60,
        slide: 60,
    }
}

/// Whether what is counted has the point and the hours of a regulation.
fn has_hours(asked: &Asked, opening: &Opening) -> bool {
    let (start, end) = hours_of(opening);
    let begins = asked.from.is_some_and(|from| from <= start);
    let ends = asked.to.is_some_and(|to| end <= to);
    begins && ends && is_same(&asked.spot, opening.spot())
}

/// What is counted for the regulations of a desk, so that the hours of each are.
fn all_asked(alloc: Global, openings: &[Opening]) -> Result<Vec<Asked>, AllocError> {
    let mut all: Vec<Asked> = Vec::new(alloc);
    for opening in openings {
        if !all.iter().any(|asked| has_hours(asked, opening)) {
            all.push(asked_for(opening, openings))?;
        }
    }
    Ok(all)
}

/// Writes the counts of an hour.
fn put_count<W: Write>(writer: &mut W, count: &Count, day: u32) -> Result<(), Fault> {
    let from = When {
        moment: Some(count.from),
        day,
    };
    let to = When {
        moment: Some(count.to),
        day,
    };
    let flights = flights_of(count);
    let subject = count.subject;
    let exempt = count.exempt;
    let departed = count.departed;
    let entered = count.entered;
    write!(
        writer,
        "<tr><th scope=\"row\">{from} to {to}</th><td class=\"n\">{flights}</td>\
            <td class=\"n\">{subject}</td>\
            <td class=\"n\">{exempt}</td><td class=\"n\">{departed}</td>\
            <td class=\"n\">{entered}</td></tr>\n"
    )
    .map_err(unwritten)
}

/// Writes the counts of a point by the hour.
fn put_hours<W: Write>(
    alloc: Global,
    writer: &mut W,
    core: &Core,
    asked: &Asked,
) -> Result<(), Fault> {
    let period = period_of(core, asked);
    let day = period.0.day().number();
    put(writer, "<tbody>\n")?;
    for count in &counts_in(alloc, core, &asked.spot, period, (asked.step, asked.slide))? {
        put_count(writer, count, day)?;
    }
    put(writer, "</tbody>\n")
}

/// Writes the counts of a regulated point, with their picture.
fn put_place<W: Write>(
    alloc: Global,
    writer: &mut W,
    core: &Core,
    asked: &Asked,
) -> Result<(), Fault> {
    let (kind, place) = words_of(&asked.spot);
    let (from, to) = period_of(core, asked);
    let period = period_text(alloc, from, to)?;
    let period = period.as_str();
    write!(
        writer,
        "<h3>{kind} {place}, {period}</h3>\n\
            <details><summary>Entry counts of {kind} {place}</summary>\n\
            {PICTURE_BOX}"
    )
    .map_err(unwritten)?;
    put_count_chart(alloc, writer, core, asked)?;
    put(writer, "</div>\n")?;
    let from = Digits(from);
    let table = format!(in alloc; "counts-{kind}-{place}-{from}")?;
    let text = "Flights that are planned to enter, regulated or not";
    begin_table(writer, Caption(table.as_str(), text), &COUNTS)?;
    put_hours(alloc, writer, core, asked)?;
    end_table(writer)?;
    put(writer, "</details>\n")
}

/// Whether two points are the same.
fn is_same(spot: &Spot, other: &Spot) -> bool {
    words_of(spot) == words_of(other)
}

/// Writes the counts of the regulated points.
pub fn put_count_section<W: Write>(
    alloc: Global,
    writer: &mut W,
    core: &Core,
    openings: &[Opening],
) -> Result<(), Fault> {
    put(
        writer,
        "<section id=\"counts\">\n<h2>Counts of the regulated places</h2>\n",
    )?;
    for asked in &all_asked(alloc, openings)? {
        put_place(alloc, writer, core, asked)?;
    }
    put(writer, "</section>\n")
}
