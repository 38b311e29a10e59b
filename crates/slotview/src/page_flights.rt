//! The courses of the regulated flights on a page.
use crate::course::{Event, courses_of};
use crate::delay::Delays;
use crate::fault::{Fault, unwritten};
use crate::html::{Actual, Caption, Head, When, begin_table, end_table, put};
use flow_core::Core;
use flow_view::FlightDelay;
use fpl_text::Text;
use std::alloc::{AllocError, Global};
use std::collections::HashMap;
use std::io::Write;

static COURSE: [Head; 8] = [
    Head("Entry", true),
    Head("Desk's time", false),
    Head("Message", false),
    Head("EOBT", false),
    Head("Departed", false),
    Head("Window", false),
    Head("CTOT", false),
    Head("Cause", false),
];

/// A regulated flight, with its greatest delay.
#[derive(Drop)]
struct Regulated {
    ident: Text<7>,
    dep: Text<4>,
    dest: Text<4>,
    minutes: u32,
    regulation: Text<8>,
}

/// The regulated flights of a desk, and the index of each among them.
#[derive(Drop)]
struct Flights {
    list: Vec<Regulated>,
    places: HashMap<Text<7>, usize>,
}

/// The flights of these delays, each identification once.
fn flights_of(alloc: Global, core: &Core, delays: &[FlightDelay]) -> Result<Flights, AllocError> {
    let mut list = Vec::new(alloc);
    let mut places = HashMap::new(alloc);
    for delay in delays {
        let Some(plan) = core.plan(delay.plan) else {
            continue;
        };
        let key = plan.key();
        if places.contains_key(&key.ident) {
            continue;
        }
        places.insert(key.ident, list.len())?;
        list.push(Regulated {
            ident: key.ident,
            dep: key.dep,
            dest: key.dest,
            minutes: delay.minutes,
            regulation: delay.regulation,
        })?;
    }
    Ok(Flights { list, places })
}

/// Writes a message about a flight, or a notice to it.
fn put_event<W: Write>(writer: &mut W, event: &Event, day: u32) -> Result<(), Fault> {
    let entry = event.entry;
    let time = When {
        moment: Some(event.time),
        day,
    };
    let what = event.what.title();
    let eobt = When {
        moment: event.off_block,
        day,
    };
    let actual = Actual(event.actual);
    let window = match event.timing {
        Some(timing) => timing.name(),
        None => "",
    };
    let ctot = When {
        moment: event.ctot,
        day,
    };
    let cause = match &event.cause {
        Some(cause) => str::from_utf8(cause.as_bytes()).unwrap_or(""),
        None => "",
    };
    write!(
        writer,
        "<tr><td class=\"n\">{entry}</td><td>{time}</td><td>{what}</td><td>{eobt}</td>\
            <td>{actual}</td>\
            <td>{window}</td><td>{ctot}</td><td>{cause}</td></tr>\n"
    )
    .map_err(unwritten)
}

/// Begins the course of a flight.
fn begin_course<W: Write>(writer: &mut W, flight: &Regulated) -> Result<(), Fault> {
    let ident = str::from_utf8(flight.ident.as_bytes()).unwrap_or("");
    let dep = str::from_utf8(flight.dep.as_bytes()).unwrap_or("");
    let dest = str::from_utf8(flight.dest.as_bytes()).unwrap_or("");
    let minutes = flight.minutes;
    let regulation = str::from_utf8(flight.regulation.as_bytes()).unwrap_or("");
    write!(
        writer,
        "<tbody id=\"flight-{ident}\">\n<tr><th scope=\"rowgroup\" colspan=\"8\">{ident}, \
            {dep} to {dest}: {minutes} min by {regulation}</th></tr>\n"
    )
    .map_err(unwritten)
}

/// Writes the courses of flights, one after the other.
fn put_courses<W: Write>(
    writer: &mut W,
    flights: &[Regulated],
    events: &[Event],
    day: u32,
) -> Result<(), Fault> {
    let mut shown: Option<usize> = None;
    for event in events {
        if shown != Some(event.place) {
            if shown.is_some() {
                put(writer, "</tbody>\n")?;
            }
            match flights.get(event.place) {
                Some(flight) => begin_course(writer, flight)?,
                None => put(writer, "<tbody>\n")?,
            }
            shown = Some(event.place);
        }
        put_event(writer, event, day)?;
    }
    let end = if shown.is_some() {
        "</tbody>\n"
    } else {
        "<tbody></tbody>\n"
    };
    put(writer, end)
}

/// Writes the courses of the regulated flights, the most delayed first.
pub fn put_flight_section<W: Write>(
    alloc: Global,
    writer: &mut W,
    core: &Core,
    delays: &Delays,
) -> Result<(), Fault> {
    let flights = flights_of(alloc, core, delays.flights.as_slice())?;
    let events = courses_of(alloc, core, &flights.places)?;
    let day = core.now().day().number();
    put(
        writer,
        "<section id=\"flights\">\n<h2>Regulated flights</h2>\n",
    )?;
    begin_table(
        writer,
        Caption(
            "flights",
            "What was filed about each flight and said to it, the most delayed first",
        ),
        &COURSE,
    )?;
    put_courses(writer, flights.list.as_slice(), events.as_slice(), day)?;
    end_table(writer)?;
    put(writer, "</section>\n")
}
