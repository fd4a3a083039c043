// The tests of the numbers before anything is run.
ghost use Rattle.std.specs.Prelude.{◌&&◌, ◌≡◌, ◌-◌, ◌*◌, ◌%◌, leb, eqb};
ghost use Rattle.paper.specs.Limits.{most_covers};
ghost use Rattle.text.specs.Program.{screen as screened};

use crate::fields::{CELL_NUMBERS, DAY_NUMBERS, FRONT_NUMBERS};
use covers::ENTRY_NUMBERS;
use lines::{BAD_TEXT, units};
use records::{Grid, index_of};

// What is wrong with a text before anything is run: the refusal's number and place.
#[derive(Clone, Copy, Debug, PartialEq, Eq)]
pub struct BadText {
    pub number: u64,
    pub place: u64,
}

const MOST_COVERS: u32 = 64;

fn covers_fit(count: u32) -> bool
    ensures { result ≡ (leb 1 count && leb count most_covers) }
{
    (1 <= count) & (count <= MOST_COVERS)
}

// No number is missing, and the last day is not cut off.
fn complete(count: usize, needed: usize) -> bool
    ensures { result ≡ (leb needed count && eqb ((count - needed) % 7) 0) }
{
    if count < needed {
        return false;
    }
    (count - needed) % DAY_NUMBERS == 0
}

// A text that breaks off after so many numbers.
fn cut_off(count: usize) -> BadText
    ensures { result ≡ record { number = 11; place = count } }
{
    BadText {
        number: BAD_TEXT,
        place: units(count),
    }
}

// The tests in the paper's order; of numbers that pass them all, how many cells there are.
pub(crate) fn screen(numbers: &[u32]) -> Result<usize, BadText>
    ensures { result ≡ screened numbers.now }
{
    let count = numbers.len();
    if count < 2 {
        return Err(cut_off(count));
    }
    let width = numbers[0];
    let height = numbers[1];
    let grid = Grid { width, height };
    if !grid.fits() {
        return Err(BadText {
            number: 1,
            place: 0,
        });
    }
    if count < FRONT_NUMBERS {
        return Err(cut_off(count));
    }
    let covers = numbers[4];
    if !covers_fit(covers) {
        return Err(BadText {
            number: 3,
            place: 0,
        });
    }
    let cells = grid.cells();
    if !complete(
        count,
        FRONT_NUMBERS + ENTRY_NUMBERS * index_of(covers) + CELL_NUMBERS * cells,
    ) {
        return Err(cut_off(count));
    }
    Ok(cells)
}
