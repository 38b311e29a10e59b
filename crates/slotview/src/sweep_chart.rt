//! The picture of the total delay that a regulation would give at several rates.
use crate::fault::{Fault, unwritten};
use crate::options::WhatIf;
use crate::svg::{Frame, Pixels, put_frame};
use crate::words::capitals_of;
use flow_view::{PANEL_HEIGHT, PANEL_WIDTH, Swept};
use std::alloc::{AllocError, Global};
use std::io::Write;

/// The greatest number of lines above the lowest one.
const MOST_LINES: u64 = 5;

/// The greatest number of rates with a label.
const MOST_LABELS: usize = 24;

/// The minutes between two lines: the least round number with few lines up to the greatest delay.
fn between_of(greatest: u64) -> u64 {
    let mut unit = 1u64;
    for _ in 0..18 {
        for round in [1, 2, 5] {
            let between = unit.saturating_mul(round);
            if greatest <= between.saturating_mul(MOST_LINES) {
                return between;
            }
        }
        unit = unit.saturating_mul(10);
    }
    unit
}

/// The share of a length that a part is of a whole.
fn share(length: u32, part: u64, whole: u64) -> u32 {
    let length = u64::from(length);
    let share = length.saturating_mul(part) / whole.max(1);
    u32::try_from(share.min(length)).unwrap_or(0)
}

/// The scale of the panel.
#[derive(Clone, Copy)]
struct Measure {
    /// The minutes between two lines, the number of lines, and that of rates.
    between: u64,
    lines: u64,
    rates: u64,
}

impl Measure {
    fn of(lines: &[Swept]) -> Measure {
        let mut greatest = 1;
        for line in lines {
            greatest = line.totals.total.max(greatest);
        }
        let between = between_of(greatest).max(1);
        Measure {
            between,
            lines: greatest.div_ceil(between),
            rates: lines.len() as u64,
        }
    }

    /// The distance of a delay below the upper edge.
    fn down(&self, total: u64) -> Pixels {
        let top = self.between.saturating_mul(self.lines);
        Pixels(PANEL_HEIGHT.saturating_sub(share(PANEL_HEIGHT, total, top)))
    }

    /// The distance of a rate from the left edge, by its index from 0.
    fn across(&self, place: u64) -> Pixels {
        let half = place.saturating_mul(2).saturating_add(1);
        Pixels(share(PANEL_WIDTH, half, self.rates.saturating_mul(2)))
    }

    /// The number of rates for each label.
    fn each(&self) -> usize {
        (self.rates as usize).div_ceil(MOST_LABELS)
    }
}

/// Writes the lines of delays with their numbers.
fn put_lines<W: Write>(writer: &mut W, measure: &Measure) -> Result<(), Fault> {
    let right = Pixels(PANEL_WIDTH);
    for line in 0..measure.lines.saturating_add(1) {
        let total = measure.between.saturating_mul(line);
        let y = measure.down(total);
        write!(
            writer,
            "<path class=\"grid\" d=\"M0 {y}H{right}\" stroke=\"#DDDDDD\"/>\
                <text x=\"-8\" y=\"{y}\" dy=\"4\" text-anchor=\"end\">{total}</text>\n"
        )
        .map_err(unwritten)?;
    }
    Ok(())
}

/// The line through the delays.
fn path_of(alloc: Global, measure: &Measure, lines: &[Swept]) -> Result<String, AllocError> {
    let mut path = String::new(alloc);
    for (place, line) in lines.iter().enumerate() {
        let x = measure.across(place as u64);
        let y = measure.down(line.totals.total);
        let sign = if place == 0 { 'M' } else { 'L' };
        write!(path, "{sign}{x} {y}")?;
    }
    Ok(path)
}

/// Writes the points of the rates, with what is said of each, and their labels.
fn put_points<W: Write>(writer: &mut W, measure: &Measure, lines: &[Swept]) -> Result<(), Fault> {
    let each = measure.each().max(1);
    for (place, line) in lines.iter().enumerate() {
        let rate = line.rate;
        let total = line.totals.total;
        let delayed = line.totals.delayed;
        let x = measure.across(place as u64);
        let y = measure.down(total);
        write!(
            writer,
            "<circle cx=\"{x}\" cy=\"{y}\" r=\"4\" fill=\"#0072B2\">\
                <title>{rate} an hour: {total} min, {delayed} flights delayed</title></circle>\n"
        )
        .map_err(unwritten)?;
        if place % each == 0 {
            write!(
                writer,
                "<text x=\"{x}\" y=\"178\" text-anchor=\"middle\">{rate}</text>\n"
            )
            .map_err(unwritten)?;
        }
    }
    Ok(())
}

/// Writes the total delay at each rate as an SVG document.
pub fn put_sweep_chart<W: Write + Drop>(
    alloc: Global,
    mut writer: W,
    what_if: &WhatIf<'_>,
    lines: &[Swept],
) -> Result<(), Fault> {
    let words = [what_if.kind, what_if.place, what_if.from, what_if.to];
    let title = capitals_of(alloc, words)?;
    let frame = Frame {
        id: "sweep",
        title: title.as_str(),
        text: "Total delay, minutes, by the rate of the regulation",
        height: 276,
    };
    put_frame(&mut writer, frame)?;
    let measure = Measure::of(lines);
    let path = path_of(alloc, &measure, lines)?;
    let path = path.as_str();
    writer
        .write_all(
            b"<g transform=\"translate(64 68)\">\n\
                <text x=\"0\" y=\"-10\">Total delay, minutes</text>\n",
        )
        .map_err(unwritten)?;
    put_lines(&mut writer, &measure)?;
    write!(
        writer,
        "<path d=\"{path}\" fill=\"none\" stroke=\"#0072B2\" stroke-width=\"2\"/>\n"
    )
    .map_err(unwritten)?;
    put_points(&mut writer, &measure, lines)?;
    writer
        .write_all(
            b"<text x=\"356\" y=\"200\" text-anchor=\"middle\">Rate, flights an hour</text>\n\
                </g>\n</svg>\n",
        )
        .map_err(unwritten)?;
    writer.flush().map_err(unwritten)
}
