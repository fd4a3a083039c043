// A grid's cells, whole numbers or depths: which are refused, and what is written of each.
ghost use Rattle.std.specs.Prelude.{Bool, List, [], ◌∷◌, ◌++◌, ◌≡◌, ◌≤◌, ◌*◌, ℕ, ℤ, length};
ghost use Rattle.std.specs.List.{prefix_len};
ghost use Rattle.std.proofs.Common.{rules};
ghost use Rattle.words.specs.Digits.{written};
ghost use Rattle.words.specs.Writing.{Wrote};
ghost use Rattle.words.specs.Inches.{inches};
ghost use Rattle.grids.specs.Cells.{cell_fits, depth_fits};
ghost use Rattle.grids.specs.Forms.{blank_after, done_after, rows, most_whole, most_depth};

use crate::wholes::{magnitude, put_whole, whole_fits};
use words::{put_byte, put_inches};

const UNITS_PER_INCH: u64 = 10000;

// What stands in a grid's cell.
pub(crate) trait Cell: Copy {
    // Which pass by a no-data number, what is written of one, and the most bytes of it with the blank after it.
    ghost passes: { ℤ → Self → Bool };

    ghost form: { Self → List ℕ };

    ghost most: { ℕ };

    fn fits(self, no_data: i32) -> bool
        ensures { result ≡ passes no_data self };

    // The cell, and the blank after it.
    fn put(self, buffer: &mut [u8], at: usize, blank: u8) -> usize
        ensures { Wrote most at (form self ++ blank ∷ []) buffer.old buffer.new result };

    ghost short: { most ≤ most_depth };
}

// A number, and not the no-data number.
#[tactic(auto, unfolding(crate::specs::Cells::cell_fits, crate::specs::Cells::is_same))]
pub(crate) fn cell_fits(no_data: i32, cell: i32) -> bool
    ensures { result ≡ cell_fits no_data cell }
{
    whole_fits(cell) & !((cell <= no_data) & (no_data <= cell))
}

// Not the no-data number in inches.
fn depth_fits(no_data: i32, units: u64) -> bool
    ensures { result ≡ depth_fits no_data units }
{
    if no_data < 0 {
        return true;
    }
    units != UNITS_PER_INCH * magnitude(no_data)
}

// A whole number, and the blank after it.
pub fn put_cell(buffer: &mut [u8], at: usize, cell: i32, blank: u8) -> usize
    ensures { Wrote most_whole at (written cell ++ blank ∷ []) buffer.old buffer.new result }
{
    let end = put_whole(buffer, at, cell);
    put_byte(buffer, end, blank)
}

fn put_depth(buffer: &mut [u8], at: usize, units: u64, blank: u8) -> usize
    ensures { Wrote most_depth at (inches units ++ blank ∷ []) buffer.old buffer.new result }
{
    let end = put_inches(buffer, at, units);
    put_byte(buffer, end, blank)
}

impl Cell for i32 {
    ghost passes = { cell_fits };

    ghost form = { written };

    ghost most = { most_whole };

    ghost short = { Prim.search rules };

    fn fits(self, no_data: i32) -> bool {
        cell_fits(no_data, self)
    }

    fn put(self, buffer: &mut [u8], at: usize, blank: u8) -> usize {
        put_cell(buffer, at, self, blank)
    }
}

impl Cell for u64 {
    ghost passes = { depth_fits };

    ghost form = { inches };

    ghost most = { most_depth };

    ghost short = { Prim.search rules };

    fn fits(self, no_data: i32) -> bool {
        depth_fits(no_data, self)
    }

    fn put(self, buffer: &mut [u8], at: usize, blank: u8) -> usize {
        put_depth(buffer, at, self, blank)
    }
}

// How many stand before the first that is refused.
pub(crate) fn passing<C: Cell>(no_data: i32, cells: &[C]) -> usize
    ensures { result ≡ prefix_len (C.passes no_data) cells.now }
{
    cells.iter().take_while(|cell| cell.fits(no_data)).count()
}

// The blank after a cell by how many of its row's stand there with it, and how many of the row then do.
#[tactic(auto, unfolding(crate::specs::Forms::blank_after))]
fn blank_after(columns: usize, done: usize) -> u8
    ensures { result ≡ blank_after columns done }
{
    if done == columns {
        return b'\n';
    }
    b' '
}

#[tactic(auto, unfolding(crate::specs::Forms::done_after))]
fn done_after(columns: usize, done: usize) -> usize
    ensures { result ≡ done_after columns done }
{
    if done == columns {
        return 0;
    }
    done
}

pub(crate) fn put_rows<C: Cell>(buffer: &mut [u8], at: usize, columns: usize, cells: &[C]) -> usize
    ensures { Wrote (C.most * length cells.now) at (rows C.form columns 0 cells.now) buffer.old buffer.new result }
{
    let mut next = at;
    let mut done = 0;
    for &cell in cells {
        next = cell.put(buffer, next, blank_after(columns, done + 1));
        done = done_after(columns, done + 1);
    }
    next
}
