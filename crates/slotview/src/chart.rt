//! The picture of a regulation: demand and slots by steps of time.
use crate::chart_text::{joined, rates_of, shut_text, title_of};
use crate::count::{counts_in, flights_of, later_by};
use crate::fault::{Fault, unwritten};
use crate::load::greatest_of;
use crate::moments::Clock;
use crate::named::id_of;
use crate::svg::{Frame, Panel, Pixels, put_frame, put_key};
use flow_core::Core;
use flow_slots::{LONGEST_PERIOD, Shape};
use flow_view::{Load, Opening, PANEL_HEIGHT, Scale, SlotRow, held_in, held_later, loads_of};
use fpl_text::Minute;
use std::alloc::{AllocError, Global};
use std::io::Write;

/// The least number of minutes drawn before and after a period, unless the picture would be too
/// wide.
const MARGIN: u32 = 60;

/// What the bars of a panel count.
#[derive(Clone, Copy, PartialEq, Eq)]
enum Counted {
    Demand,
    Held,
}

impl Counted {
    fn name(self) -> &'static str {
        match self {
            Counted::Demand => "demand",
            Counted::Held => "held",
        }
    }

    fn caption(self) -> &'static str {
        match self {
            Counted::Demand => "Demand",
            Counted::Held => "Held",
        }
    }

    fn color(self) -> &'static str {
        match self {
            Counted::Demand => "#E69F00",
            Counted::Held => "#0072B2",
        }
    }

    /// The color of the bars before and after the period.
    fn pale_color(self) -> &'static str {
        match self {
            Counted::Demand => "#F5D899",
            Counted::Held => "#99C7E0",
        }
    }

    /// The distance of the panel's upper edge from that of the picture, in pixels.
    fn top(self) -> u32 {
        match self {
            Counted::Demand => 156,
            Counted::Held => 356,
        }
    }

    fn of(self, load: &Load) -> u32 {
        let count = match self {
            Counted::Demand => load.demand,
            Counted::Held => load.held,
        };
        u32::try_from(count).unwrap_or(u32::MAX)
    }
}

/// What is drawn: the steps of the period, and those before and after it, of `step` minutes each.
#[derive(Drop)]
struct Drawn {
    step: u32,
    before: Vec<Load>,
    within: Vec<Load>,
    after: Vec<Load>,
}

/// The minutes drawn before and after a period: whole steps that include all held slots.
fn margins_of(shape: &Shape, rows: &[SlotRow], step: u32) -> (u32, u32) {
    let (start, end) = shape.period();
    let minutes = end.minutes().saturating_sub(start.minutes());
    let room = LONGEST_PERIOD.saturating_sub(minutes);
    let step = step.max(1);
    let least = MARGIN.div_ceil(step).saturating_mul(step);
    let half = (room / 2 / step).saturating_mul(step);
    let before = least.min(half).min(start.minutes());
    let held = match rows.last() {
        Some(row) if row.time >= end => {
            let later = row.time.minutes().saturating_sub(end.minutes());
            (later / step).saturating_add(1).saturating_mul(step)
        }
        _ => 0,
    };
    let rest = room.saturating_sub(before) / step;
    (before, least.max(held).min(rest.saturating_mul(step)))
}

/// The steps outside the period: all flights that enter the point, and the slots that are held.
fn loads_outside(
    alloc: Global,
    core: &Core,
    opening: &Opening,
    (from, to): (Minute, Minute),
    step: u32,
) -> Result<Vec<Load>, AllocError> {
    let mut loads = Vec::new(alloc);
    for count in &counts_in(alloc, core, opening.spot(), (from, to), (step, step))? {
        loads.push(Load {
            from: count.from,
            to: count.to,
            demand: flights_of(count),
            slots: 0,
            held: held_in(opening.rows(), count.from, count.to),
        })?;
    }
    Ok(loads)
}

/// Counts what is drawn of a regulation.
fn drawn_of(alloc: Global, core: &Core, opening: &Opening, step: u32) -> Result<Drawn, AllocError> {
    let shape = opening.shape();
    let (start, end) = shape.period();
    let minutes = end.minutes().saturating_sub(start.minutes());
    let step = step.min(minutes).clamp(1, LONGEST_PERIOD);
    let (lead, wake) = margins_of(shape, opening.rows(), step);
    let first = Minute::new(start.minutes().saturating_sub(lead)).unwrap_or(start);
    let last = later_by(end, wake);
    Ok(Drawn {
        step,
        before: loads_outside(alloc, core, opening, (first, start), step)?,
        within: loads_of(alloc, shape, opening.rows(), step)?,
        after: loads_outside(alloc, core, opening, (end, last), step)?,
    })
}

/// The rates with the times from which they apply, and the end of the period.
fn rates_in(alloc: Global, shape: &Shape) -> Result<Vec<(Minute, u32)>, AllocError> {
    let (start, _) = shape.period();
    let mut rates = Vec::new(alloc);
    rates.push((start, shape.rate()))?;
    for part in shape.parts() {
        rates.push((part.from, part.rate))?;
    }
    Ok(rates)
}

/// The number of slots that a rate gives in a step, rounded up.
fn slots_at(rate: u32, step: u32) -> u32 {
    let slots = u64::from(rate) * u64::from(step);
    u32::try_from(slots.div_ceil(60)).unwrap_or(u32::MAX)
}

/// The distance of a rate, in flights a step, below the upper edge of a panel.
fn rate_down(panel: &Panel, rate: u32, step: u32) -> Pixels {
    let slots = u64::from(rate) * u64::from(step);
    let most = u64::from(panel.scale.top()) * 60;
    let up = slots.saturating_mul(u64::from(PANEL_HEIGHT)) / most.max(1);
    let up = u32::try_from(up).unwrap_or(PANEL_HEIGHT);
    Pixels(PANEL_HEIGHT.saturating_sub(up))
}

/// The path of the rates: one line over the period.
fn path_of(alloc: Global, panel: &Panel, shape: &Shape, step: u32) -> Result<String, AllocError> {
    let (_, end) = shape.period();
    let mut path = String::new(alloc);
    for (from, rate) in rates_in(alloc, shape)?.as_slice() {
        let x = Pixels(panel.scale.across(*from));
        let y = rate_down(panel, *rate, step);
        if path.is_empty() {
            write!(path, "M{x} {y}")?;
        } else {
            write!(path, "H{x}V{y}")?;
        }
    }
    let x = Pixels(panel.scale.across(end));
    write!(path, "H{x}")?;
    Ok(path)
}

/// Writes the rates, dark on a light edge.
fn put_path<W: Write>(writer: &mut W, path: &str) -> Result<(), Fault> {
    write!(
        writer,
        "<path class=\"edge\" d=\"{path}\" \
            fill=\"none\" stroke=\"#FFFFFF\" stroke-width=\"4\"/>\n\
            <path class=\"rate\" d=\"{path}\" \
            fill=\"none\" stroke=\"#222222\" stroke-width=\"2\"/>\n"
    )
    .map_err(unwritten)
}

/// Writes the bars of the steps in the period, each with its title.
fn put_within<W: Write>(
    writer: &mut W,
    panel: &Panel,
    counted: Counted,
    loads: &[Load],
) -> Result<(), Fault> {
    let name = counted.name();
    for load in loads {
        let count = counted.of(load);
        if count == 0 {
            continue;
        }
        panel.put_bar(writer, (load.from, load.to), (count, 0), counted.color())?;
        let from = Clock(load.from);
        let to = Clock(load.to);
        let slots = load.slots;
        write!(
            writer,
            "<title>{from} to {to}: {name} {count}, slots {slots}</title></rect>\n"
        )
        .map_err(unwritten)?;
    }
    Ok(())
}

/// Writes the bars of the steps outside the period.
fn put_outside<W: Write>(
    writer: &mut W,
    panel: &Panel,
    counted: Counted,
    loads: &[Load],
) -> Result<(), Fault> {
    let name = counted.name();
    for load in loads {
        let count = counted.of(load);
        if count == 0 {
            continue;
        }
        panel.put_bar(
            writer,
            (load.from, load.to),
            (count, 0),
            counted.pale_color(),
        )?;
        let from = Clock(load.from);
        let to = Clock(load.to);
        write!(
            writer,
            "<title>{from} to {to}, outside the period: {name} {count}</title></rect>\n"
        )
        .map_err(unwritten)?;
    }
    Ok(())
}

/// Writes a panel: its lines, the bars of the steps, and the rates.
fn put_panel<W: Write>(
    writer: &mut W,
    panel: &Panel,
    counted: Counted,
    drawn: &Drawn,
    path: &str,
) -> Result<(), Fault> {
    let top = counted.top();
    let caption = counted.caption();
    let step = drawn.step;
    write!(
        writer,
        "<g transform=\"translate(64 {top})\">\n\
            <text x=\"0\" y=\"-10\">{caption}: flights per step of {step} min</text>\n"
    )
    .map_err(unwritten)?;
    panel.put_grid(writer)?;
    put_outside(writer, panel, counted, drawn.before.as_slice())?;
    put_within(writer, panel, counted, drawn.within.as_slice())?;
    put_outside(writer, panel, counted, drawn.after.as_slice())?;
    put_path(writer, path)?;
    if counted == Counted::Held {
        panel.put_times(writer)?;
    }
    writer.write_all(b"</g>\n").map_err(unwritten)
}

/// Writes the rates; those of further sub-periods are in a line of their own.
fn put_rates<W: Write>(writer: &mut W, rates: &str, more: &str) -> Result<(), Fault> {
    write!(writer, "<text x=\"20\" y=\"50\">{rates}</text>\n").map_err(unwritten)?;
    if more.is_empty() {
        return Ok(());
    }
    write!(writer, "<text x=\"20\" y=\"68\">{more}</text>\n").map_err(unwritten)
}

/// Writes the legend of the colours.
fn put_legend<W: Write>(writer: &mut W) -> Result<(), Fault> {
    let demand = Counted::Demand;
    let held = Counted::Held;
    let subject = "planned entries of the flights that are subject";
    put_key(writer, (20, 92), demand.color(), subject)?;
    put_key(writer, (380, 92), held.color(), "slots that they hold")?;
    let all = "before and after: planned entries of all flights";
    put_key(writer, (20, 112), demand.pale_color(), all)?;
    put_key(
        writer,
        (380, 112),
        held.pale_color(),
        "slots held after the period",
    )?;
    writer
        .write_all(
            b"<path class=\"rate\" d=\"M620 88H644\" stroke=\"#222222\" stroke-width=\"2\"/>\
                <text x=\"650\" y=\"92\">the rate</text>\n",
        )
        .map_err(unwritten)
}

/// Writes the number of the entry that shut a regulation, below the title at the right.
fn put_shut<W: Write>(writer: &mut W, shut: &str) -> Result<(), Fault> {
    if shut.is_empty() {
        return Ok(());
    }
    write!(
        writer,
        "<text x=\"780\" y=\"50\" text-anchor=\"end\">{shut}</text>\n"
    )
    .map_err(unwritten)
}

/// Writes the title of a picture, and its legend.
fn put_head<W: Write>(alloc: Global, writer: &mut W, opening: &Opening) -> Result<(), Fault> {
    let title = title_of(alloc, opening)?;
    let shut = shut_text(alloc, opening)?;
    let (rates, more) = rates_of(alloc, opening.shape())?;
    let name = id_of(opening);
    let entry = opening.opened_by();
    let id = format!(in alloc; "{name}-{entry}")?;
    let text = joined(
        alloc,
        [rates.as_str(), more.as_str(), shut.as_str()].as_slice(),
    )?;
    let frame = Frame {
        id: id.as_str(),
        title: title.as_str(),
        text: text.as_str(),
        height: 588,
    };
    put_frame(writer, frame)?;
    put_shut(writer, shut.as_str())?;
    put_rates(writer, rates.as_str(), more.as_str())?;
    put_legend(writer)
}

/// The greatest count that is drawn, the slots of the rates included.
fn greatest_in(alloc: Global, drawn: &Drawn, shape: &Shape) -> Result<u32, AllocError> {
    let most = greatest_of(drawn.before.as_slice())
        .max(greatest_of(drawn.within.as_slice()))
        .max(greatest_of(drawn.after.as_slice()));
    let mut greatest = u32::try_from(most).unwrap_or(u32::MAX);
    for (_, rate) in rates_in(alloc, shape)?.as_slice() {
        greatest = greatest.max(slots_at(*rate, drawn.step));
    }
    Ok(greatest)
}

/// Writes demand and slots of a regulation, in steps of `step` minutes, as an SVG document.
pub fn put_chart<W: Write>(
    alloc: Global,
    writer: &mut W,
    core: &Core,
    opening: &Opening,
    step: u32,
) -> Result<(), Fault> {
    let shape = opening.shape();
    let (start, end) = shape.period();
    let drawn = drawn_of(alloc, core, opening, step)?;
    let greatest = greatest_in(alloc, &drawn, shape)?;
    let first = drawn.before.first().map_or(start, |load| load.from);
    let last = drawn.after.last().map_or(end, |load| load.to);
    let panel = Panel::new(Scale::new(first, last, greatest), start, drawn.step);
    let path = path_of(alloc, &panel, shape, drawn.step)?;
    put_head(alloc, writer, opening)?;
    for counted in [Counted::Demand, Counted::Held] {
        put_panel(writer, &panel, counted, &drawn, path.as_str())?;
    }
    let later = held_later(shape, opening.rows());
    if later > 0 {
        write!(
            writer,
            "<text x=\"20\" y=\"576\">Slots held after the period: {later}</text>\n"
        )
        .map_err(unwritten)?;
    }
    writer.write_all(b"</svg>\n").map_err(unwritten)
}
