// The legend: an entry for each class, with its limits in inches and how many cells it has, one for each mark, and two notes.
use crate::cells::Cells;
use crate::classes::{Classes, Land};
use crate::frame::{LINE, PANEL_X};
use crate::marks::Mark;
use crate::parts::write_text;
use std::fmt;
use std::fmt::{Display, Formatter, Write};
use words::{Inches, Page};

const LABEL_X: usize = 72;

const COUNT_X: usize = 252;

const LEGEND_Y: usize = 168;

// From one entry to the next.
const ENTRY: usize = 24;

// Of an entry's text, below its top.
const BASELINE: usize = 14;

const UNITS_PER_INCH: u64 = 10000;

// What is drawn beside each mark's entry.
const WATER: &str = r#"<path class="w" d="M0 0h2v1h-2z"/><path class="p" d="M0 0h2v1h-2z"/>"#;

const CLOSED: &str =
    r#"<path class="p" d="M.5 0h1v1h-1z"/><path class="q" d="M1 .2l.3 .3l-.3 .3l-.3-.3z"/>"#;

const RUNOFF: &str =
    r#"<path class="p" d="M.5 0h1v1h-1z"/><path class="s" d="M1 .5m-.25 0h.55m-.15-.15l.15 .15l-.15 .15"/>"#;

// The top of the entry behind so many others; half an entry parts the classes from those behind them.
pub(crate) fn entry_y(classes: usize, others: usize) -> usize {
    let y = others.saturating_mul(ENTRY).saturating_add(LEGEND_Y);
    if others < classes {
        return y;
    }
    y.saturating_add(ENTRY / 2)
}

// A limit in inches, with the step's decimals, of which no step has more than three.
#[derive(Clone, Copy)]
struct Limit {
    units: u64,
    step: u64,
}

impl Display for Limit {
    fn fmt<W: fmt::Write>(&self, f: &mut Formatter<W>) -> fmt::Result {
        let whole = self.units / UNITS_PER_INCH;
        let parts = self.units % UNITS_PER_INCH;
        if self.step % UNITS_PER_INCH == 0 {
            return write!(f, "{whole}");
        }
        if self.step % 1000 == 0 {
            return write!(f, "{whole}.{}", parts / 1000);
        }
        if self.step % 100 == 0 {
            return write!(f, "{whole}.{:02}", parts / 100);
        }
        write!(f, "{whole}.{:03}", parts / 10)
    }
}

// A class's limits. An open one has no upper limit.
#[derive(Clone, Copy)]
struct Limits {
    lower: Limit,
    upper: Option<Limit>,
}

impl Limits {
    fn of(classes: Classes, class: usize) -> Limits {
        let step = classes.scale.step;
        Limits {
            lower: Limit {
                units: classes.lower(class),
                step,
            },
            upper: classes.upper(class).map(|units| Limit { units, step }),
        }
    }
}

impl Display for Limits {
    fn fmt<W: fmt::Write>(&self, f: &mut Formatter<W>) -> fmt::Result {
        let lower = self.lower;
        match self.upper {
            Some(upper) => write!(f, "{lower} to {upper}"),
            None => write!(f, "{lower} or more"),
        }
    }
}

fn write_count(page: &mut Page, y: usize, cells: usize) -> fmt::Result {
    let line = y.saturating_add(BASELINE);
    writeln!(
        page,
        r#"<text class="n" x="{COUNT_X}" y="{line}">{cells}</text>"#
    )
}

fn write_swatch(page: &mut Page, y: usize, mark: Mark) -> fmt::Result {
    let letter = mark.letter();
    writeln!(
        page,
        r#"<path class="{letter} z" d="M{PANEL_X} {y}h36v18h-36z"/>"#
    )
}

fn write_label(page: &mut Page, y: usize, words: impl Display + Drop) -> fmt::Result {
    write_text(page, LABEL_X, y.saturating_add(BASELINE), words)
}

fn write_class(page: &mut Page, cells: &Cells, classes: Classes, class: usize) -> fmt::Result {
    let y = entry_y(classes.count, class);
    let mark = Mark::Land(classes.shade(class));
    write_swatch(page, y, mark)?;
    write_label(page, y, Limits::of(classes, class))?;
    write_count(page, y, cells.count_marked(mark))
}

// What is drawn as in a map of cells of 18 pixels, of which an entry shows two, and what it says.
fn write_mark(page: &mut Page, y: usize, drawn: &str, says: &'static str) -> fmt::Result {
    write!(
        page,
        r#"<g transform="translate({PANEL_X},{y}) scale(18)" stroke-width=".08">"#
    )?;
    writeln!(page, "{drawn}</g>")?;
    write_label(page, y, says)
}

fn write_marks(page: &mut Page, cells: &Cells, top: usize) -> fmt::Result {
    write_mark(page, top, WATER, "open water")?;
    write_count(page, top, cells.count_marked(Mark::OpenWater))?;
    let closed = top.saturating_add(ENTRY);
    write_mark(page, closed, CLOSED, "closed depression")?;
    write_count(page, closed, cells.count_depressions())?;
    write_mark(
        page,
        closed.saturating_add(ENTRY),
        RUNOFF,
        "where runoff goes",
    )
}

fn write_notes(page: &mut Page, y: usize, land: Land) -> fmt::Result {
    let least = Inches(land.least);
    let most = Inches(land.most);
    write_text(page, PANEL_X, y, "A cell on a limit is in the class above.")?;
    let words = format_args!("On land from {least} to {most}");
    write_text(page, PANEL_X, y.saturating_add(LINE), words)
}

fn write_classes(page: &mut Page, cells: &Cells, classes: Classes) -> fmt::Result {
    for class in 0..classes.count {
        write_class(page, cells, classes, class)?;
    }
    Ok(())
}

// Without classes, nor notes on them, where there is no land.
pub(crate) fn write_legend(
    page: &mut Page,
    cells: &Cells,
    classes: Option<Classes>,
) -> fmt::Result {
    writeln!(
        page,
        r#"<text class="k" x="{PANEL_X}" y="158">Inches</text>"#
    )?;
    writeln!(
        page,
        r#"<text class="k n" x="{COUNT_X}" y="158">Cells</text>"#
    )?;
    let Some(classes) = classes else {
        return write_marks(page, cells, entry_y(0, 0));
    };
    write_classes(page, cells, classes)?;
    let marks = entry_y(classes.count, classes.count);
    write_marks(page, cells, marks)?;
    write_notes(
        page,
        marks.saturating_add(3 * ENTRY + 2 * LINE),
        classes.land,
    )
}
