//! The picture of how many flights enter a point, by steps of time.
use crate::chart_text::period_text;
use crate::count::{counts_in, flights_of, later_by, most_of, period_of};
use crate::fault::{Fault, unwritten};
use crate::moments::{Clock, Digits};
use crate::options::Asked;
use crate::summary::words_of;
use crate::svg::{Frame, Panel, put_frame, put_key};
use flow_core::Core;
use flow_view::{Count, Scale};
use fpl_text::Minute;
use std::alloc::Global;
use std::io::Write;

/// A kind of flights that enter a point: its name, its color, the position of its legend, and the
/// text of that.
struct Kind(&'static str, &'static str, (u32, u32), &'static str);

/// The kinds of flights in a count, from the lowest part of a bar upwards.
static KINDS: [Kind; 4] = [
    Kind(
        "subject",
        "#E69F00",
        (20, 60),
        "filed, subject to regulation",
    ),
    Kind("exempt", "#009E73", (240, 60), "filed, exempt"),
    Kind("departed", "#56B4E9", (380, 60), "departed"),
    Kind(
        "entered",
        "#0072B2",
        (480, 60),
        "departed, entry at or before the desk's time",
    ),
];

/// The number of flights of each kind in a count.
fn parts_of(count: &Count) -> [u64; 4] {
    [count.subject, count.exempt, count.departed, count.entered]
}

/// Writes the bar of a count, a part for each kind.
fn put_count<W: Write>(
    writer: &mut W,
    panel: &Panel,
    count: &Count,
    to: Minute,
) -> Result<(), Fault> {
    let from = Clock(count.from);
    let end = Clock(count.to);
    let all = flights_of(count);
    let mut below = 0u32;
    for (kind, part) in KINDS.iter().zip(&parts_of(count)) {
        let part = u32::try_from(*part).unwrap_or(u32::MAX);
        if part == 0 {
            continue;
        }
        let Kind(name, color, _, _) = kind;
        panel.put_bar(writer, (count.from, to), (part, below), color)?;
        write!(
            writer,
            "<title>{from} to {end}: {name} {part} of {all}</title></rect>\n"
        )
        .map_err(unwritten)?;
        below = below.saturating_add(part);
    }
    Ok(())
}

/// Begins the picture of the counts of a point, with its legend.
fn put_head<W: Write>(
    alloc: Global,
    writer: &mut W,
    asked: &Asked,
    (start, end): (Minute, Minute),
) -> Result<(), Fault> {
    let (kind, name) = words_of(&asked.spot);
    let step = asked.step;
    let from = Digits(start);
    let id = format!(in alloc; "count-{kind}-{name}-{from}")?;
    let period = period_text(alloc, start, end)?;
    let period = period.as_str();
    let title = format!(in alloc; "{kind} {name}, {period}")?;
    let text = format!(in alloc; "Flights that are planned to enter, per {step} min")?;
    let frame = Frame {
        id: id.as_str(),
        title: title.as_str(),
        text: text.as_str(),
        height: 312,
    };
    put_frame(writer, frame)?;
    for Kind(_, color, at, words) in &KINDS {
        put_key(writer, *at, color, words)?;
    }
    let text = text.as_str();
    write!(
        writer,
        "<g transform=\"translate(64 104)\">\n<text x=\"0\" y=\"-10\">{text}</text>\n"
    )
    .map_err(unwritten)
}

/// Writes the counts of a point as an SVG document.
pub fn put_count_chart<W: Write>(
    alloc: Global,
    writer: &mut W,
    core: &Core,
    asked: &Asked,
) -> Result<(), Fault> {
    let (start, end) = period_of(core, asked);
    let steps = (asked.step, asked.slide);
    let counts = counts_in(alloc, core, &asked.spot, (start, end), steps)?;
    let most = u32::try_from(most_of(counts.as_slice())).unwrap_or(u32::MAX);
    let panel = Panel::new(Scale::new(start, end, most), start, asked.slide);
    put_head(alloc, writer, asked, (start, end))?;
    panel.put_grid(writer)?;
    for count in &counts {
        let to = later_by(count.from, asked.slide.min(asked.step));
        put_count(writer, &panel, count, to)?;
    }
    panel.put_times(writer)?;
    writer.write_all(b"</g>\n</svg>\n").map_err(unwritten)
}
