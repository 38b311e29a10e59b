//! A page of a day: one HTML document with the delay of flights, the regulations with their
//! pictures and slot lists, the counts of their points, and the courses of the regulated flights.
//! It has no scripts and loads nothing from elsewhere, and it is well-formed XML, too.
use crate::delay::delays_in;
use crate::fault::{Fault, unwritten};
use crate::html::{begin_page, end_page, put};
use crate::moments::{Clock, DateOf};
use crate::named::id_of;
use crate::page_delay::put_delay_section;
use crate::page_flights::put_flight_section;
use crate::page_regulations::{put_count_section, put_regulation_section};
use crate::summary::states_of;
use flow_core::Core;
use flow_view::{Opening, openings_of};
use std::alloc::Global;
use std::io::Write;

/// Writes how many entries, plans and regulations there are.
fn put_counts<W: Write>(writer: &mut W, core: &Core, openings: &[Opening]) -> Result<(), Fault> {
    let states = states_of(core);
    let entries = core.entries();
    let filed = states.filed;
    let departed = states.departed;
    let cancelled = states.cancelled;
    let regulations = openings.len();
    let shut = openings
        .iter()
        .filter(|opening| opening.shut_by().is_some())
        .count();
    write!(
        writer,
        "<p>{entries} entries. Plans: {filed} filed, {departed} departed, {cancelled} cancelled. \
            Regulations: {regulations}, {shut} of them shut. All times are UTC, hhmm, and \
            ddhhmm where it is another day.</p>\n"
    )
    .map_err(unwritten)
}

/// If there are more regulations than this, their links are folded.
const MOST_UNFOLDED: usize = 12;

/// Writes links to the regulations.
fn put_regulation_links<W: Write>(writer: &mut W, openings: &[Opening]) -> Result<(), Fault> {
    let count = openings.len();
    let open = if count > MOST_UNFOLDED {
        ""
    } else {
        " open=\"open\""
    };
    write!(
        writer,
        "<details{open}><summary>Regulations: {count}</summary><ul class=\"many\">\n"
    )
    .map_err(unwritten)?;
    for opening in openings {
        let id = id_of(opening);
        let entry = opening.opened_by();
        let note = if opening.shut_by().is_some() {
            ", shut"
        } else {
            ""
        };
        write!(
            writer,
            "<li><a href=\"#regulation-{id}-{entry}\">{id}{note}</a></li>\n"
        )
        .map_err(unwritten)?;
    }
    put(writer, "</ul></details>\n")
}

/// Writes links to the sections, and to the regulations, if there are any.
fn put_links<W: Write>(writer: &mut W, openings: &[Opening]) -> Result<(), Fault> {
    put(
        writer,
        "<nav aria-label=\"Sections\"><ul>\n<li><a href=\"#delay\">Delay</a></li>\n\
            <li><a href=\"#regulations\">Regulations</a></li>\n\
            <li><a href=\"#counts\">Counts</a></li>\n\
            <li><a href=\"#flights\">Flights</a></li>\n</ul>\n",
    )?;
    if !openings.is_empty() {
        put_regulation_links(writer, openings)?;
    }
    put(writer, "</nav>\n<main>\n")
}

/// Writes the sections of a page.
fn put_sections<W: Write>(
    alloc: Global,
    writer: &mut W,
    core: &Core,
    openings: &[Opening],
) -> Result<(), Fault> {
    let delays = delays_in(alloc, core, openings)?;
    put_delay_section(alloc, writer, core, &delays)?;
    put_regulation_section(alloc, writer, core, openings)?;
    put_count_section(alloc, writer, core, openings)?;
    put_flight_section(alloc, writer, core, &delays)
}

/// Writes the page of a desk.
pub fn put_page<W: Write + Drop>(alloc: Global, mut writer: W, core: &Core) -> Result<(), Fault> {
    let openings = openings_of(alloc, core)?;
    let openings = openings.as_slice();
    let date = DateOf(core.now());
    let time = Clock(core.now());
    let title = format!(in alloc; "Desk on {date} at {time} UTC")?;
    begin_page(&mut writer, title.as_str())?;
    put_counts(&mut writer, core, openings)?;
    put_links(&mut writer, openings)?;
    put_sections(alloc, &mut writer, core, openings)?;
    end_page(&mut writer)?;
    writer.flush().map_err(unwritten)
}
