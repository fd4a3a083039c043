// The map, recharge.svg: one square a cell, coloured by what recharged there. bench/plain_map.c says in words how it is laid out.
use crate::cells::Cells;
use crate::classes::Classes;
use crate::edges::write_edges;
use crate::frame::{Frame, MAP_X, MAP_Y};
use crate::head::{write_front, write_head};
use crate::legend::{entry_y, write_legend};
use crate::marks::{Mark, mark_water};
use crate::squares::write_cells;
use records::{Grid, MOST_CELLS};
use std::fmt;
use std::fmt::Write;
use words::Page;

// Right of the map and below it.
const BESIDE_MAP: usize = 48;

const NARROWEST: usize = 428;

// The front of a map whose legend has so many classes.
fn write_top(page: &mut Page, frame: Frame, classes: usize) -> fmt::Result {
    let right = frame.width.saturating_add(MAP_X + BESIDE_MAP);
    let legend = entry_y(classes, classes.saturating_add(4));
    let lowest = frame.height.saturating_add(MAP_Y).max(legend);
    write_front(
        page,
        right.max(NARROWEST),
        lowest.saturating_add(BESIDE_MAP),
    )
}

// Each cell has its mark.
fn write_map(
    page: &mut Page,
    frame: Frame,
    cells: &Cells,
    classes: Option<Classes>,
    days: &[i32],
) -> fmt::Result {
    write_top(page, frame, classes.map_or(0, |classes| classes.count))?;
    write_head(page, frame, cells.len(), days)?;
    write_legend(page, cells, classes)?;
    write_cells(page, frame, cells)?;
    write_edges(page, frame)?;
    writeln!(page, "</svg>")
}

// Written from the front of the text on; where all of it would end is returned. Numbers that are not there are 0.
pub fn put_map(
    text: &mut [u8],
    grid: Grid,
    covers: &[u32],
    direction: &[u32],
    cover: &[u32],
    recharged: &[u64],
    days: &[i32],
) -> usize {
    let frame = Frame::of(grid);
    let columns = frame.columns;
    let count = grid.cells().min(MOST_CELLS);
    let mut room = [Mark::OpenWater; MOST_CELLS];
    let marks = &mut room[..count];
    mark_water(covers, cover, marks);
    let unshaded = Cells {
        columns,
        marks,
        direction,
        recharged,
    };
    let classes = Classes::of(&unshaded);
    if let Some(classes) = classes {
        classes.mark_land(recharged, marks);
    }
    let cells = Cells {
        columns,
        marks,
        direction,
        recharged,
    };
    let mut page = Page::new(text);
    // A page takes all that it is given.
    let _ = write_map(&mut page, frame, &cells, classes, days);
    page.end()
}
