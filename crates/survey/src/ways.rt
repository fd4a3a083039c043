// Where a cell points by its direction byte.
ghost use Rattle.std.specs.Prelude.{◌≡◌, ◌*◌, ◌%◌, ◌≤◌, ◌<◌};
ghost use Rattle.paper.specs.Directions.{way_of, stepped, cell_at};
ghost use Rattle.paper.specs.Setup.{pointed};
ghost use Rattle.survey.specs.Ways.{step_of, way_as, goes_from};

// Ways past every cell: over the edge, a closed depression, which keeps its water, and open water.
pub const OVER_THE_EDGE: u32 = 4096;

pub const CLOSED: u32 = 4097;

pub const OPEN_WATER: u32 = 4098;

// Both steps of a direction: 4 times the row's and the column's, each 0 for one less, 1 for the same and 2 for one more, so that no number is below 0.
const UPPER_LEFT: u32 = 0;

const UP: u32 = 1;

const UPPER_RIGHT: u32 = 2;

const LEFT: u32 = 4;

const RIGHT: u32 = 6;

const LOWER_LEFT: u32 = 8;

const DOWN: u32 = 9;

const LOWER_RIGHT: u32 = 10;

// None of the eight.
const NO_STEP: u32 = 12;

// The cell after a step of the row and one of the column.
fn toward(width: u32, height: u32, row: u32, column: u32, down: u32, right: u32) -> u32
    requires { (row < height) × (column < width) × (width * height ≤ 4096) × (down ≤ 2) × (right ≤ 2) }
    ensures { result ≡ pointed (cell_at width (stepped height (step_of down) row) (stepped width (step_of right) column)) }
{
    let y = row + down;
    let x = column + right;
    if y == 0 {
        return OVER_THE_EDGE;
    }
    if height < y {
        return OVER_THE_EDGE;
    }
    if x == 0 {
        return OVER_THE_EDGE;
    }
    if width < x {
        return OVER_THE_EDGE;
    }
    (y - 1) * width + (x - 1)
}

// The byte's two steps as one number, which the compiler finds in a table. Eight arms with code of their own would often be guessed wrong.
fn steps(byte: u32) -> u32
    ensures { (way_as result ≡ way_of byte) × (result ≤ 12) × (result % 4 ≤ 2) }
{
    match byte {
        1 => RIGHT,
        2 => LOWER_RIGHT,
        4 => DOWN,
        8 => LOWER_LEFT,
        16 => LEFT,
        32 => UPPER_LEFT,
        64 => UP,
        128 => UPPER_RIGHT,
        _ => NO_STEP,
    }
}

pub(crate) fn way(width: u32, height: u32, row: u32, column: u32, byte: u32) -> u32
    requires { (row < height) × (column < width) × (width * height ≤ 4096) }
    ensures { result ≡ pointed (goes_from width height row column (way_of byte)) }
{
    let both = steps(byte);
    if both == NO_STEP {
        return CLOSED;
    }
    toward(width, height, row, column, both / 4, both % 4)
}
