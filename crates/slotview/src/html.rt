//! The parts of a page: its head, and tables.
use crate::course::OfDay;
use crate::fault::{Fault, unwritten};
use crate::moments::Short;
use fpl_text::Minute;
use std::fmt;
use std::io::Write;

/// The style of the page: light or dark as its reader prefers, narrow on a phone, and unfolded in
/// print.
const STYLE: &str = "\
:root{color-scheme:light dark;--paper:#fff;--ink:#222;--faint:#ddd;--link:#0050a0}
@media (prefers-color-scheme:dark){:root{--paper:#16181c;--ink:#e6e6e6;\
--faint:#454a52;--link:#8cc4ff}}
body{margin:0 auto;max-width:62rem;padding:0 1rem 3rem;font:1rem/1.5 system-ui,sans-serif;\
background:var(--paper);color:var(--ink)}
h1{font-size:clamp(1.4rem,6vw,2rem)}
h2{font-size:1.3rem}
h3{font-size:1.1rem}
a{color:var(--link)}
nav ul{display:flex;flex-wrap:wrap;gap:.2rem 1rem;list-style:none;padding:0;margin:.5rem 0}
nav .many{display:block;columns:7.5rem;column-gap:.5rem}
summary{cursor:pointer}
.wide{overflow-x:auto;margin:.5rem 0}
table{border-collapse:collapse;font-variant-numeric:tabular-nums}
.caption{margin:1rem 0 0}
th,td{padding:.15rem .6rem .15rem 0;border-bottom:1px solid var(--faint);\
text-align:left;white-space:nowrap}
thead th{white-space:normal;vertical-align:bottom}
.n{text-align:right}
.chart{display:block;width:100%;min-width:36rem;max-width:800px;height:auto;fill:var(--ink)}
.paper{fill:var(--paper)}
.grid{stroke:var(--faint)}
.edge{stroke:var(--paper)}
.rate{stroke:var(--ink)}
@media print{:root{--paper:#fff;--ink:#222;--faint:#ddd;--link:#222}\
body{max-width:none;font-size:9pt}nav{display:none}.wide{overflow:visible}\
.chart{min-width:0}tr,.chart{break-inside:avoid}\
details::details-content{content-visibility:visible;block-size:auto}}
";

/// Begins the box of a picture, which scrolls if it is narrower.
pub const PICTURE_BOX: &str =
    "<div class=\"wide\" role=\"region\" aria-label=\"Picture\" tabindex=\"0\">\n";

/// Writes a text.
pub fn put<W: Write>(writer: &mut W, text: &str) -> Result<(), Fault> {
    writer.write_all(text.as_bytes()).map_err(unwritten)
}

/// Begins a page of this title.
pub fn begin_page<W: Write>(writer: &mut W, title: &str) -> Result<(), Fault> {
    write!(
        writer,
        "<!DOCTYPE html>\n<html lang=\"en\" xmlns=\"http://www.w3.org/1999/xhtml\">\n<head>\n\
            <meta charset=\"utf-8\"/>\n\
            <meta name=\"viewport\" content=\"width=device-width, initial-scale=1\"/>\n\
            <title>{title}</title>\n<style>\n{STYLE}</style>\n</head>\n<body>\n<h1>{title}</h1>\n"
    )
    .map_err(unwritten)
}

/// Ends a page.
pub fn end_page<W: Write>(writer: &mut W) -> Result<(), Fault> {
    put(writer, "</main>\n</body>\n</html>\n")
}

/// The heading of a column, and whether its cells are numbers.
pub struct Head(pub &'static str, pub bool);

/// The id of a table among those of the page, and its caption.
pub struct Caption<'a>(pub &'a str, pub &'a str);

/// Begins a table. Its caption is above the box in which a wide table scrolls.
pub fn begin_table<W: Write>(
    writer: &mut W,
    caption: Caption<'_>,
    heads: &[Head],
) -> Result<(), Fault> {
    let Caption(id, text) = caption;
    write!(
        writer,
        "<p class=\"caption\" id=\"table-{id}\">{text}</p>\n\
            <div class=\"wide\" role=\"region\" aria-labelledby=\"table-{id}\" tabindex=\"0\">\n\
            <table aria-labelledby=\"table-{id}\">\n<thead><tr>"
    )
    .map_err(unwritten)?;
    for Head(name, is_number) in heads {
        let class = if *is_number { " class=\"n\"" } else { "" };
        write!(writer, "<th scope=\"col\"{class}>{name}</th>").map_err(unwritten)?;
    }
    put(writer, "</tr></thead>\n")
}

/// Ends a table.
pub fn end_table<W: Write>(writer: &mut W) -> Result<(), Fault> {
    put(writer, "</table></div>\n")
}

/// A time, if there is one: its hour and minute, after the day of the month if that is another day.
#[derive(Clone, Copy)]
pub struct When {
    pub moment: Option<Minute>,
    pub day: u32,
}

impl fmt::Display for When {
    fn fmt<W: fmt::Write>(&self, f: &mut fmt::Formatter<W>) -> fmt::Result {
        let Some(moment) = self.moment else {
            return Ok(());
        };
        let short = Short {
            moment,
            day: self.day,
        };
        write!(f, "{short}")
    }
}

/// A time of day, if there is one.
#[derive(Clone, Copy)]
pub struct Actual(pub Option<OfDay>);

impl fmt::Display for Actual {
    fn fmt<W: fmt::Write>(&self, f: &mut fmt::Formatter<W>) -> fmt::Result {
        match self.0 {
            Some(time) => write!(f, "{time}"),
            None => Ok(()),
        }
    }
}

/// A number, if there is one.
#[derive(Clone, Copy)]
pub struct Number(pub Option<u32>);

impl fmt::Display for Number {
    fn fmt<W: fmt::Write>(&self, f: &mut fmt::Formatter<W>) -> fmt::Result {
        match self.0 {
            Some(number) => write!(f, "{number}"),
            None => Ok(()),
        }
    }
}

/// A number of tenths.
#[derive(Clone, Copy)]
pub struct Tenths(pub u32);

impl fmt::Display for Tenths {
    fn fmt<W: fmt::Write>(&self, f: &mut fmt::Formatter<W>) -> fmt::Result {
        let Tenths(tenths) = *self;
        let whole = tenths / 10;
        let rest = tenths % 10;
        write!(f, "{whole}.{rest}")
    }
}
