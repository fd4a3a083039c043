// The text, written into a lent buffer as far as that goes.
ghost use Rattle.std.specs.Prelude.{◌≤◌, ◌<◌};
ghost use Rattle.paper.specs.Limits.{most_cells};
ghost use Rattle.paper.specs.Setup.{cells_of};
ghost use Rattle.records.specs.Grids.{grid_as};
ghost use Rattle.words.specs.Writing.{Put};
ghost use Rattle.desk.specs.Texts.{cell_line, cell_lines, cells_as, setup_text};

use grids::put_cell;
use records::{Grid, MOST_CELLS, wide};
use words::{put_byte, put_bytes, put_item};

// The cells of the four grids.
#[derive(Clone, Copy)]
pub(crate) struct Cells<'a> {
    pub(crate) direction: &'a [i32; MOST_CELLS],
    pub(crate) cover: &'a [i32; MOST_CELLS],
    pub(crate) group: &'a [i32; MOST_CELLS],
    pub(crate) water: &'a [i32; MOST_CELLS],
}

// The line of one cell.
fn put_line(buffer: &mut [u8], at: usize, cells: Cells, cell: usize) -> usize
    requires { cell < most_cells }
    ensures { Put at (cell_line (cells_as cells.entry) cell) buffer.old buffer.new result }
{
    let a = put_cell(buffer, at, cells.direction[cell], b' ');
    let b = put_cell(buffer, a, cells.cover[cell], b' ');
    let c = put_cell(buffer, b, cells.group[cell], b' ');
    put_cell(buffer, c, cells.water[cell], b'\n')
}

fn put_lines(buffer: &mut [u8], at: usize, count: usize, cells: Cells) -> usize
    requires { count ≤ most_cells }
    ensures { Put at (cell_lines (cells_as cells.entry) count)
        buffer.old buffer.new result }
{
    let mut next = at;
    for cell in 0..count {
        next = put_line(buffer, next, cells, cell);
    }
    next
}

pub(crate) fn put_text(
    buffer: &mut [u8],
    grid: Grid,
    covers: &[u8],
    cells: Cells,
    weather: &[u8],
) -> usize
    requires { cells_of (grid_as grid) ≤ most_cells }
    ensures { Put 0 (setup_text (grid_as grid) covers.now (cells_as cells.entry) weather.now)
        buffer.old buffer.new result }
{
    let columns = put_item(buffer, 0, wide(grid.width), b' ');
    let size = put_item(buffer, columns, wide(grid.height), b'\n');
    let table = put_bytes(buffer, size, covers);
    let from = put_byte(buffer, table, b'\n');
    let end = put_lines(buffer, from, grid.cells(), cells);
    put_bytes(buffer, end, weather)
}
