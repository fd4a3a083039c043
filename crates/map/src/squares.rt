// The cells: a square each, with what comes up where the pointer rests on it, and what is drawn on them. One unit is one cell.
use crate::cells::{Cell, Cells};
use crate::frame::{Frame, MAP_X, MAP_Y};
use crate::marks::{Ink, Mark, Sign};
use std::fmt;
use std::fmt::Write;
use words::{Inches, Page};

fn write_square(page: &mut Page, cell: Cell) -> fmt::Result {
    let letter = cell.mark.letter();
    let number = cell.number;
    let row = cell.row;
    let column = cell.column;
    write!(
        page,
        r#"<path class="{letter}" d="M{column} {row}h1v1h-1z"><title>"#
    )?;
    let row = row.saturating_add(1);
    let column = column.saturating_add(1);
    write!(page, "Row {row}, column {column}, cell {number}: ")?;
    match cell.mark {
        Mark::OpenWater => writeln!(page, "open water</title></path>"),
        Mark::Land(_) => writeln!(page, "{} inches</title></path>", Inches(cell.recharge)),
    }
}

fn write_squares(page: &mut Page, cells: &Cells) -> fmt::Result {
    writeln!(page, r#"<g class="m">"#)?;
    for i in 0..cells.len() {
        write_square(page, cells.at(i))?;
    }
    writeln!(page, "</g>")
}

// On each cell what `drawn` answers of it.
fn write_drawn<F: Fn(Cell) -> Option<Sign>>(
    page: &mut Page,
    class: char,
    cells: &Cells,
    drawn: F,
) -> fmt::Result
    requires { F.IsAlwaysCallable drawn }
{
    write!(page, r#"<path class="{class}" d=""#)?;
    for i in 0..cells.len() {
        let cell = cells.at(i);
        if let Some(sign) = drawn(cell) {
            let row = cell.row;
            let column = cell.column;
            write!(page, "M{column}.5 {row}{sign}")?;
        }
    }
    writeln!(page, r#""/>"#)
}

fn write_edge(page: &mut Page, frame: Frame) -> fmt::Result {
    let width = frame.width;
    let height = frame.height;
    writeln!(
        page,
        r#"<path class="o" d="M{MAP_X} {MAP_Y}h{width}v{height}h-{width}z"/>"#
    )
}

// The pointer sees the cells and not what is drawn on them.
fn write_signs(page: &mut Page, frame: Frame, cells: &Cells) -> fmt::Result {
    let thin = if frame.has_large_cells() { ".07" } else { ".1" };
    writeln!(page, r#"<g pointer-events="none" stroke-width="{thin}">"#)?;
    write_drawn(page, 's', cells, |cell| cell.arrow(Ink::Dark))?;
    write_drawn(page, 'l', cells, |cell| cell.arrow(Ink::White))?;
    write_drawn(page, 'q', cells, |cell| cell.diamond())?;
    writeln!(page, "</g>")
}

pub(crate) fn write_cells(page: &mut Page, frame: Frame, cells: &Cells) -> fmt::Result {
    let scale = frame.cell;
    writeln!(
        page,
        r#"<g transform="translate({MAP_X},{MAP_Y}) scale({scale})">"#
    )?;
    write_squares(page, cells)?;
    write_signs(page, frame, cells)?;
    writeln!(page, "</g>")?;
    write_edge(page, frame)
}
