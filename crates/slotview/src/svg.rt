//! What the pictures have in common: lengths, their frame, and the lines and labels of a panel.
use crate::fault::{Fault, unwritten};
use crate::moments::Clock;
use flow_view::{PANEL_HEIGHT, PANEL_WIDTH, Scale};
use fpl_text::Minute;
use std::fmt;
use std::io::Write;

/// The greatest number of labels on a time axis.
const MOST_LABELS: u32 = 20;

/// A length in tenths of a pixel, written in pixels.
#[derive(Clone, Copy)]
pub struct Pixels(pub u32);

impl fmt::Display for Pixels {
    fn fmt<W: fmt::Write>(&self, f: &mut fmt::Formatter<W>) -> fmt::Result {
        let Pixels(tenths) = *self;
        let whole = tenths / 10;
        let rest = tenths % 10;
        write!(f, "{whole}.{rest}")
    }
}

/// The name of a picture among those of a page, its title, its description, and its height in
/// pixels.
#[derive(Clone, Copy)]
pub struct Frame<'a> {
    pub id: &'a str,
    pub title: &'a str,
    pub text: &'a str,
    pub height: u32,
}

/// Begins a picture 800 pixels wide.
pub fn put_frame<W: Write>(writer: &mut W, frame: Frame<'_>) -> Result<(), Fault> {
    let Frame {
        id,
        title,
        text,
        height,
    } = frame;
    write!(
        writer,
        "<svg xmlns=\"http://www.w3.org/2000/svg\" class=\"chart\" width=\"800\" \
            height=\"{height}\" viewBox=\"0 0 800 {height}\" \
            role=\"img\" aria-labelledby=\"title-{id} text-{id}\" \
            font-family=\"sans-serif\" font-size=\"12\" fill=\"#222222\">\n\
            <title id=\"title-{id}\">{title}</title>\n<desc id=\"text-{id}\">{text}</desc>\n"
    )
    .map_err(unwritten)?;
    write!(
        writer,
        "<rect class=\"paper\" width=\"800\" height=\"{height}\" fill=\"#FFFFFF\"/>\n\
            <text x=\"20\" y=\"28\" font-size=\"14\" font-weight=\"bold\">{title}</text>\n"
    )
    .map_err(unwritten)
}

/// Writes a square of a legend with its text.
pub fn put_key<W: Write>(
    writer: &mut W,
    (x, y): (u32, u32),
    color: &str,
    text: &str,
) -> Result<(), Fault> {
    let right = x.saturating_add(18);
    let top = y.saturating_sub(10);
    write!(
        writer,
        "<rect x=\"{x}\" y=\"{top}\" width=\"12\" height=\"12\" fill=\"{color}\"/>\
            <text x=\"{right}\" y=\"{y}\">{text}</text>\n"
    )
    .map_err(unwritten)
}

/// A panel: its scale, and the labels of its time axis.
#[derive(Clone, Copy)]
pub struct Panel {
    pub scale: Scale,
    /// The time of the first label.
    first: Minute,
    /// The number of minutes between two labels.
    between: u32,
}

impl Panel {
    /// A panel with labels at whole steps from one of its times on, and before it.
    pub fn new(scale: Scale, from: Minute, step: u32) -> Panel {
        let step = step.max(1);
        let steps = scale.minutes_between().div_ceil(step);
        let between = steps.saturating_mul(step).max(1);
        let before = from.minutes().saturating_sub(scale.start.minutes());
        Panel {
            scale,
            first: scale.start.plus(before % between).unwrap_or(scale.start),
            between,
        }
    }

    /// The time of a label, counted from 0, if the panel has it.
    fn label(&self, place: u32) -> Option<Minute> {
        let moment = self.first.plus(self.between.saturating_mul(place))?;
        let end = self.scale.start.plus(self.scale.minutes)?;
        if moment <= end { Some(moment) } else { None }
    }

    /// The distance of a count below the upper edge.
    pub fn down(&self, count: u32) -> Pixels {
        Pixels(PANEL_HEIGHT - self.scale.up(count))
    }

    /// Writes the lines of counts and times, and the numbers of the counts.
    pub fn put_grid<W: Write>(&self, writer: &mut W) -> Result<(), Fault> {
        let right = Pixels(PANEL_WIDTH);
        for line in 0..self.scale.lines + 1 {
            let count = self.scale.between * line;
            let y = self.down(count);
            write!(
                writer,
                "<path class=\"grid\" d=\"M0 {y}H{right}\" stroke=\"#DDDDDD\"/>\
                    <text x=\"-8\" y=\"{y}\" dy=\"4\" text-anchor=\"end\">{count}</text>\n"
            )
            .map_err(unwritten)?;
        }
        let bottom = Pixels(PANEL_HEIGHT);
        for place in 0..MOST_LABELS {
            let Some(moment) = self.label(place) else {
                break;
            };
            let x = Pixels(self.scale.across(moment));
            write!(
                writer,
                "<path class=\"grid\" d=\"M{x} 0V{bottom}\" stroke=\"#DDDDDD\"/>\n"
            )
            .map_err(unwritten)?;
        }
        Ok(())
    }

    /// Writes the times below the panel.
    pub fn put_times<W: Write>(&self, writer: &mut W) -> Result<(), Fault> {
        for place in 0..MOST_LABELS {
            let Some(moment) = self.label(place) else {
                break;
            };
            let x = Pixels(self.scale.across(moment));
            let clock = Clock(moment);
            write!(
                writer,
                "<text x=\"{x}\" y=\"178\" text-anchor=\"middle\">{clock}</text>\n"
            )
            .map_err(unwritten)?;
        }
        writer
            .write_all(b"<text x=\"356\" y=\"200\" text-anchor=\"middle\">Time, UTC</text>\n")
            .map_err(unwritten)
    }

    /// Begins a bar from one time to another that begins at the height of a count.
    pub fn put_bar<W: Write>(
        &self,
        writer: &mut W,
        (from, to): (Minute, Minute),
        (count, below): (u32, u32),
        color: &str,
    ) -> Result<(), Fault> {
        let (left, right) = self.scale.bar(from, to);
        let x = Pixels(left);
        let top = count.saturating_add(below);
        let y = self.down(top);
        let width = Pixels(right.saturating_sub(left));
        let height = Pixels(self.scale.up(top).saturating_sub(self.scale.up(below)));
        write!(
            writer,
            "<rect x=\"{x}\" y=\"{y}\" width=\"{width}\" height=\"{height}\" fill=\"{color}\">"
        )
        .map_err(unwritten)
    }
}
