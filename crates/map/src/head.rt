// The map's front, with its style, and its head: title, period and the grid's size.
use crate::frame::{Frame, LINE, PANEL_X};
use crate::parts::{Counted, plural, write_text};
use std::fmt;
use std::fmt::{Display, Formatter, Write};
use words::Page;

const PERIOD_Y: usize = 80;

// The numbers of a day, of which the first are its serial and the day of the year.
const DAY_NUMBERS: usize = 7;

const SERIAL: usize = 0;

const DAY_OF_YEAR: usize = 1;

// How things look: texts (the title, headings, counts, and the numbers along the edges), cells (the shades, from the lightest on, and open water), lines
// (arrows, diamonds, the map's edge and the legend's boxes), and the hatch of open water.
const STYLE: &str = r##"<title>Recharge</title>
<style type="text/css">
text{font:13px sans-serif;fill:#222}
.t{font-size:30px;font-weight:bold}
.k{font-weight:bold}
.n{text-anchor:end}
.i text{font-size:11px;text-anchor:middle}
.j text{font-size:11px;text-anchor:end}
.a{fill:#fafcc4}.b{fill:#d0e99b}.c{fill:#a2d68b}.d{fill:#70c289}
.e{fill:#41ac86}.f{fill:#279382}.g{fill:#157b7a}.h{fill:#0c636e}
.w{fill:url(#w);stroke:none}
.m{stroke:#fff;stroke-width:.03}
.s{fill:none;stroke:#222;stroke-linecap:round}
.l{fill:none;stroke:#fff;stroke-linecap:round}
.q{fill:#fff;stroke:#222}
.o{fill:none;stroke:#222}
.p{fill:none;stroke:#aaa;stroke-width:.05}
.z{stroke:#aaa}
</style>
<defs><pattern id="w" width="1" height=".25" patternUnits="userSpaceOnUse"><path fill="#d8e8fa" d="M0 0h1v.25h-1z"/><path fill="#1f66bd" d="M0 .08h1v.09h-1z"/></pattern></defs>
"##;

const NAMESPACES: &str = r#"<?xml version="1.0" encoding="UTF-8"?>
<svg xmlns="http://www.w3.org/2000/svg" xmlns:xlink="http://www.w3.org/1999/xlink" version="1.1" "#;

// The page's size, and a white page, so that a dark one does not show through.
pub(crate) fn write_front(page: &mut Page, width: usize, height: usize) -> fmt::Result {
    page.write_str(NAMESPACES)?;
    writeln!(
        page,
        r#"width="{width}" height="{height}" viewBox="0 0 {width} {height}">"#
    )?;
    page.write_str(STYLE)?;
    writeln!(
        page,
        r##"<path fill="#fff" d="M0 0h{width}v{height}H0z"/>"##
    )
}

// One number of the first day, and of the last where that is another.
#[derive(Clone, Copy)]
struct Span {
    first: i32,
    last: Option<i32>,
}

impl Display for Span {
    fn fmt<W: fmt::Write>(&self, f: &mut Formatter<W>) -> fmt::Result {
        let first = self.first;
        match self.last {
            Some(last) => write!(f, "{first} to {last}"),
            None => write!(f, "{first}"),
        }
    }
}

// A number of the days; 0 past the last. A serial or a day of the year is never below zero.
fn date_at(days: &[i32], place: usize) -> i32 {
    days.get(place).copied().unwrap_or(0).max(0)
}

fn span_of(days: &[i32], number: usize) -> Span {
    let others = (days.len() / DAY_NUMBERS).saturating_sub(1);
    let last = date_at(days, (DAY_NUMBERS * others).saturating_add(number));
    Span {
        first: date_at(days, number),
        last: if others == 0 { None } else { Some(last) },
    }
}

fn write_period(page: &mut Page, days: &[i32]) -> fmt::Result {
    let count = days.len() / DAY_NUMBERS;
    if count == 0 {
        return write_text(page, PANEL_X, PERIOD_Y, "No days");
    }
    let several = plural(count);
    let serials = span_of(days, SERIAL);
    let counted = Counted(count, "day");
    write_text(
        page,
        PANEL_X,
        PERIOD_Y,
        format_args!("Serial{several} {serials} ({counted}),"),
    )?;
    let dates = span_of(days, DAY_OF_YEAR);
    write_text(
        page,
        PANEL_X,
        PERIOD_Y + LINE,
        format_args!("day of year {dates}"),
    )
}

fn write_size(page: &mut Page, frame: Frame, cells: usize) -> fmt::Result {
    let columns = Counted(frame.columns, "column");
    let rows = Counted(frame.rows, "row");
    let cells = Counted(cells, "cell");
    write_text(
        page,
        PANEL_X,
        PERIOD_Y + 2 * LINE,
        format_args!("{columns}, {rows}, {cells}"),
    )
}

pub(crate) fn write_head(page: &mut Page, frame: Frame, cells: usize, days: &[i32]) -> fmt::Result {
    writeln!(
        page,
        r#"<text class="t" x="{PANEL_X}" y="52">Recharge</text>"#
    )?;
    write_period(page, days)?;
    write_size(page, frame, cells)
}
