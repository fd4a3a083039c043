// Arc ASCII grids for C: a header's numbers and its three texts lie in lent arrays.
ghost use Rattle.std.specs.Prelude.{◌≡◌, min, length};
ghost use Rattle.grids.specs.Forms.{whole_form, inches_form, whole_verdict, inches_verdict};
ghost use Rattle.grids.specs.Judging.{refused};
ghost use Rattle.grids.specs.Given.{verdict_as, header_as};
ghost use Rattle.clib.specs.Grids.{grid_returned, header_from, lent, header_kept, count_told, GridRead, GridWritten};

use crate::numbers::numbered;
use grids::{BadGrid, Header, Measure};
use records::{Grid, index_of};

// A count that no text has.
const NO_TEXT: usize = 21;

#[tactic(auto, unfolding(crate::specs::Grids::grid_returned))]
fn refused_as(why: BadGrid) -> u64
    ensures { result ≡ grid_returned (refused why.0) }
{
    numbered(why.number(), why.place())
}

fn count_of(measure: Measure) -> u32
    ensures { result ≡ min measure.count 21 }
{
    measure.count.min(NO_TEXT) as u32
}

// Writes a header's numbers and texts where C lent room for them.
#[tactic(auto, unfolding(crate::specs::Grids::header_kept))]
fn keep(
    header: Header,
    numbers: &mut [u32; 5],
    no_data: &mut i32,
    x_corner: &mut [u8; 20],
    y_corner: &mut [u8; 20],
    cell_size: &mut [u8; 20],
)
    ensures { lent numbers.new no_data.new x_corner.new y_corner.new cell_size.new ≡ header_kept header }
{
    let grid = header.grid;
    let x = header.x_corner;
    let y = header.y_corner;
    let cell = header.cell_size;
    let value = header.no_data;
    *numbers = [
        grid.width,
        grid.height,
        count_of(x),
        count_of(y),
        count_of(cell),
    ];
    *no_data = value;
    let x_bytes = x.bytes;
    let y_bytes = y.bytes;
    let cell_bytes = cell.bytes;
    *x_corner = x_bytes;
    *y_corner = y_bytes;
    *cell_size = cell_bytes;
}

// What a call to write returns, and how many bytes it wrote.
#[tactic(auto, unfolding(crate::specs::Grids::grid_returned, grids::specs::Judging::grid_number, grids::specs::Judging::grid_place))]
fn told(answer: Result<usize, BadGrid>, written: &mut u64) -> u64
    ensures { (written.new ≡ count_told answer) × (result ≡ grid_returned (verdict_as answer)) }
{
    match answer {
        Ok(count) => {
            *written = count as u64;
            0
        }
        Err(why) => {
            *written = 0;
            refused_as(why)
        }
    }
}

fn header_from(
    numbers: &[u32; 5],
    no_data: i32,
    x_corner: &[u8; 20],
    y_corner: &[u8; 20],
    cell_size: &[u8; 20],
) -> Header
    ensures { header_as result ≡ header_from numbers.now no_data x_corner.now y_corner.now cell_size.now }
{
    let width = numbers[0];
    let height = numbers[1];
    let x_count = index_of(numbers[2]);
    let y_count = index_of(numbers[3]);
    let cell_count = index_of(numbers[4]);
    let x_bytes = *x_corner;
    let y_bytes = *y_corner;
    let cell_bytes = *cell_size;
    Header {
        grid: Grid { width, height },
        x_corner: Measure {
            bytes: x_bytes,
            count: x_count,
        },
        y_corner: Measure {
            bytes: y_bytes,
            count: y_count,
        },
        cell_size: Measure {
            bytes: cell_bytes,
            count: cell_count,
        },
        no_data,
    }
}

// Refused, the numbers, the no-data number and the texts come back as zeros.
pub fn recharge_grid_read(
    text: &[u8],
    cells: &mut [i32],
    numbers: &mut [u32; 5],
    no_data: &mut i32,
    x_corner: &mut [u8; 20],
    y_corner: &mut [u8; 20],
    cell_size: &mut [u8; 20],
) -> u64
    ensures { GridRead text.now cells.old cells.new numbers.new no_data.new
        x_corner.new y_corner.new cell_size.new result }
{
    match grids::read_grid(text, cells) {
        Ok(header) => {
            keep(header, numbers, no_data, x_corner, y_corner, cell_size);
            0
        }
        Err(why) => {
            keep(
                Header::none(),
                numbers,
                no_data,
                x_corner,
                y_corner,
                cell_size,
            );
            refused_as(why)
        }
    }
}

pub fn recharge_grid_write(
    numbers: &[u32; 5],
    no_data: i32,
    x_corner: &[u8; 20],
    y_corner: &[u8; 20],
    cell_size: &[u8; 20],
    cells: &[i32],
    text: &mut [u8],
    written: &mut u64,
) -> u64
    ensures { GridWritten
        (whole_verdict (header_from numbers.now no_data x_corner.now y_corner.now cell_size.now) cells.now (length text.old))
        (whole_form (header_from numbers.now no_data x_corner.now y_corner.now cell_size.now) cells.now)
        text.old text.new written.new result }
{
    let header = header_from(numbers, no_data, x_corner, y_corner, cell_size);
    told(grids::write_grid(header, cells, text), written)
}

pub fn recharge_grid_inches(
    numbers: &[u32; 5],
    no_data: i32,
    x_corner: &[u8; 20],
    y_corner: &[u8; 20],
    cell_size: &[u8; 20],
    units: &[u64],
    text: &mut [u8],
    written: &mut u64,
) -> u64
    ensures { GridWritten
        (inches_verdict (header_from numbers.now no_data x_corner.now y_corner.now cell_size.now) units.now (length text.old))
        (inches_form (header_from numbers.now no_data x_corner.now y_corner.now cell_size.now) units.now)
        text.old text.new written.new result }
{
    let header = header_from(numbers, no_data, x_corner, y_corner, cell_size);
    told(grids::write_inches(header, units, text), written)
}
