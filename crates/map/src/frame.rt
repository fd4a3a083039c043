// The map's sizes. All but the grid's are in pixels.
use records::{Grid, MOST_CELLS, index_of};

pub(crate) const MAP_X: usize = 316;

pub(crate) const MAP_Y: usize = 56;

// Left of the map.
pub(crate) const PANEL_X: usize = 24;

// From one line of text to the next.
pub(crate) const LINE: usize = 18;

// From this size of a cell on each column and row is numbered, and arrows are finer.
const LARGE_CELL: usize = 20;

// From this size on each fifth is.
const SMALL_CELL: usize = 8;

const LARGEST_MAP: usize = 840;

const SMALLEST_CELL: usize = 7;

const LARGEST_CELL: usize = 63;

#[derive(Clone, Copy)]
pub(crate) struct Frame {
    pub(crate) columns: usize,
    pub(crate) rows: usize,
    // The size of a cell, and of all of them.
    pub(crate) cell: usize,
    pub(crate) width: usize,
    pub(crate) height: usize,
}

// Odd, so that a cell's centre is a pixel's.
fn cell_size(longer: usize) -> usize {
    let room = LARGEST_MAP.checked_div(longer).unwrap_or(0);
    if room < SMALLEST_CELL {
        return SMALLEST_CELL;
    }
    if LARGEST_CELL < room {
        return LARGEST_CELL;
    }
    room - (room + 1) % 2
}

impl Frame {
    // A side has as many cells as a grid at most.
    pub(crate) fn of(grid: Grid) -> Frame {
        let columns = index_of(grid.width).min(MOST_CELLS);
        let rows = index_of(grid.height).min(MOST_CELLS);
        let cell = cell_size(columns.max(rows));
        Frame {
            columns,
            rows,
            cell,
            width: columns.saturating_mul(cell),
            height: rows.saturating_mul(cell),
        }
    }

    pub(crate) fn has_large_cells(self) -> bool {
        LARGE_CELL <= self.cell
    }

    // Whether the column or row of that number, from 1, is numbered.
    pub(crate) fn is_numbered(self, number: usize) -> bool {
        let each = match self.cell {
            ..SMALL_CELL => 10,
            SMALL_CELL..LARGE_CELL => 5,
            _ => 1,
        };
        number == 1 || number % each == 0
    }

    // The middle of a column or a row of that number, from 0, counted from the map's edge.
    pub(crate) fn middle(self, number: usize) -> usize {
        number
            .saturating_mul(self.cell)
            .saturating_add(self.cell / 2 + 1)
    }
}
