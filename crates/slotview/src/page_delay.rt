//! The delay of flights on a page.
use crate::delay::{Delays, MOST_SHOWN, classes_of, mean_of};
use crate::fault::{Fault, unwritten};
use crate::html::{Caption, Head, PICTURE_BOX, Tenths, When, begin_table, end_table, put};
use crate::svg::{Frame, Pixels, put_frame};
use flow_core::Core;
use flow_view::{DelayTotals, FlightDelay};
use std::alloc::{AllocError, Global};
use std::io::Write;

static TOTALS: [Head; 6] = [
    Head("Regulated flights", true),
    Head("Delayed", true),
    Head("Over 15 min", true),
    Head("Total, min", true),
    Head("Mean, min", true),
    Head("Most, min", true),
];

static DELAYED: [Head; 7] = [
    Head("Flight", false),
    Head("From", false),
    Head("To", false),
    Head("EOBT", false),
    Head("CTOT issued", false),
    Head("Delay, min", true),
    Head("Cause", false),
];

/// The height of the longest bar of a histogram, in tenths of a pixel.
const HIGHEST: u64 = 1400;

/// Writes the sums and counts.
fn put_totals<W: Write>(writer: &mut W, totals: &DelayTotals) -> Result<(), Fault> {
    begin_table(
        writer,
        Caption(
            "totals",
            "Each flight once, by its most penalising regulation",
        ),
        &TOTALS,
    )?;
    let flights = totals.flights;
    let delayed = totals.delayed;
    let over_15 = totals.over_15;
    let total = totals.total;
    let mean = Tenths(mean_of(total, flights));
    let most = totals.greatest;
    write!(
        writer,
        "<tbody><tr><td class=\"n\">{flights}</td><td class=\"n\">{delayed}</td>\
            <td class=\"n\">{over_15}</td>\
            <td class=\"n\">{total}</td><td class=\"n\">{mean}</td><td class=\"n\">{most}</td>\
            </tr></tbody>\n"
    )
    .map_err(unwritten)?;
    end_table(writer)
}

/// The text of a histogram for readers who can't see it.
fn histogram_text(alloc: Global, totals: &DelayTotals) -> Result<String, AllocError> {
    let mut text = String::from_str(alloc, "Flights by delay in minutes:")?;
    for (index, (minutes, count)) in classes_of(&totals.spread).iter().enumerate() {
        text.push_str(if index == 0 { " " } else { ", " })?;
        write!(text, "{minutes}: {count}")?;
    }
    Ok(text)
}

/// Draws the number of flights by delay.
fn put_histogram<W: Write>(
    alloc: Global,
    writer: &mut W,
    totals: &DelayTotals,
) -> Result<(), Fault> {
    let text = histogram_text(alloc, totals)?;
    let frame = Frame {
        id: "histogram",
        title: "Flights by delay, minutes",
        text: text.as_str(),
        height: 240,
    };
    put(writer, PICTURE_BOX)?;
    put_frame(writer, frame)?;
    let mut most = 1;
    for (_, count) in &classes_of(&totals.spread) {
        most = (*count).max(most);
    }
    let mut left = 40u32;
    for (minutes, count) in &classes_of(&totals.spread) {
        let high = count.saturating_mul(HIGHEST) / most.max(1);
        let high = u32::try_from(high).unwrap_or(0);
        let top = Pixels(2000u32.saturating_sub(high));
        let height = Pixels(high);
        let above = Pixels(1940u32.saturating_sub(high));
        let middle = left.saturating_add(45);
        write!(
            writer,
            "<rect x=\"{left}\" y=\"{top}\" width=\"90\" height=\"{height}\" fill=\"#0072B2\"/>\
                <text x=\"{middle}\" y=\"{above}\" text-anchor=\"middle\">{count}</text>\
                <text x=\"{middle}\" y=\"220\" text-anchor=\"middle\">{minutes}</text>\n"
        )
        .map_err(unwritten)?;
        left = left.saturating_add(120);
    }
    put(writer, "</svg>\n</div>\n")
}

/// Writes a delayed flight.
fn put_delayed<W: Write>(writer: &mut W, core: &Core, delay: &FlightDelay) -> Result<(), Fault> {
    let Some(plan) = core.plan(delay.plan) else {
        return Ok(());
    };
    let told = match core.row(delay.plan) {
        Some(row) => row.told.map(|told| told.ctot),
        None => None,
    };
    let ident = str::from_utf8(plan.key().ident.as_bytes()).unwrap_or("");
    let dep = str::from_utf8(plan.key().dep.as_bytes()).unwrap_or("");
    let dest = str::from_utf8(plan.key().dest.as_bytes()).unwrap_or("");
    let day = core.now().day().number();
    let eobt = When {
        moment: Some(plan.off_block()),
        day,
    };
    let ctot = When { moment: told, day };
    let minutes = delay.minutes;
    let cause = str::from_utf8(delay.regulation.as_bytes()).unwrap_or("");
    let entry = delay.opened_by;
    write!(
        writer,
        "<tr><th scope=\"row\"><a href=\"#flight-{ident}\">{ident}</a></th><td>{dep}</td>\
            <td>{dest}</td>\
            <td>{eobt}</td><td>{ctot}</td><td class=\"n\">{minutes}</td>\
            <td><a href=\"#regulation-{cause}-{entry}\">{cause}</a></td></tr>\n"
    )
    .map_err(unwritten)
}

/// Writes the delay of flights: sums and counts, a histogram, and the most delayed flights.
pub fn put_delay_section<W: Write>(
    alloc: Global,
    writer: &mut W,
    core: &Core,
    delays: &Delays,
) -> Result<(), Fault> {
    put(
        writer,
        "<section id=\"delay\">\n<h2>Delay of flights</h2>\n",
    )?;
    put_totals(writer, &delays.totals)?;
    put_histogram(alloc, writer, &delays.totals)?;
    put(writer, "<h3>Most delayed</h3>\n")?;
    begin_table(
        writer,
        Caption(
            "delayed",
            "The most delayed flights and the regulations that cause it",
        ),
        &DELAYED,
    )?;
    put(writer, "<tbody>\n")?;
    for delay in delays.flights.iter().take(MOST_SHOWN) {
        if delay.minutes > 0 {
            put_delayed(writer, core, delay)?;
        }
    }
    put(writer, "</tbody>\n")?;
    end_table(writer)?;
    put(writer, "</section>\n")
}
