// The numbers of the input as the fields of a setup and of a day. Every function here answers every list of numbers: what it does not have reads as 0.
ghost use Rattle.std.specs.Prelude.{◌≡◌, ◌+◌, ◌*◌, ◌<◌, ◌≤◌, min, get_or};
ghost use Rattle.theory.specs.Lists.{made};
ghost use Rattle.paper.specs.Limits.{most_cells};
ghost use Rattle.records.specs.Days.{day_as};
ghost use Rattle.text.specs.Program.{field, group_given, cell_count, cells_from, setup};
ghost use Rattle.text.specs.Laying.{grid_in, climate_in, held, degrees, day_from};

use covers::ENTRY_NUMBERS;
use lines::{NEGATIVES, NO_NUMBER};
use records::{
    Climate, DayRecord, Depth, FrostIndex, Grid, MOST_CELLS, Season, Setpoints, TenthF, index_of,
    wide,
};

// The numbers before the cover table: width, height, first, last and the count of covers.
pub const FRONT_NUMBERS: usize = 5;

// The numbers of a cell: direction, cover, group and water.
pub(crate) const CELL_NUMBERS: usize = 4;

// The numbers of a day: serial, day of the year, gross precipitation, three temperatures and potential evapotranspiration.
pub(crate) const DAY_NUMBERS: usize = 7;

// The lowest number of nine digits; no temperature is that low.
const LOWEST: i32 = -999999999;

// The number at a place; 0 past the last.
pub fn number_at(numbers: &[u32], place: usize) -> u32
    ensures { result ≡ get_or numbers.now place 0 }
{
    numbers.get(place).copied().unwrap_or(0)
}

pub fn grid_in(numbers: &[u32]) -> Grid
    ensures { result ≡ grid_in numbers.now }
{
    let width = number_at(numbers, 0);
    let height = number_at(numbers, 1);
    Grid { width, height }
}

// The season of the text, and the program's own setpoints.
pub fn climate_in(numbers: &[u32]) -> Climate
    ensures { result ≡ climate_in numbers.now }
{
    let first = number_at(numbers, 2);
    let last = number_at(numbers, 3);
    let season = Season { first, last };
    let setpoints = Setpoints {
        first: FrostIndex::FIRST_SETPOINT,
        second: FrostIndex::SECOND_SETPOINT,
    };
    Climate { season, setpoints }
}

// Where the cover table ends and the cells begin.
pub(crate) fn cells_from(numbers: &[u32]) -> usize
    ensures { (result ≡ cells_from numbers.now) × (result ≤ 5 + 16 * 4294967295) }
{
    FRONT_NUMBERS + ENTRY_NUMBERS * index_of(number_at(numbers, 4))
}

// As many of the cells as an array holds.
fn cells_held(numbers: &[u32]) -> usize
    ensures { result ≡ min (cell_count numbers.now) most_cells }
{
    grid_in(numbers).cells().min(MOST_CELLS)
}

// One of each cell's four numbers, at the front of an array: 0 its direction, 1 its cover, 3 its water.
fn column(numbers: &[u32], which: usize) -> [u32; MOST_CELLS]
    requires { which < 4 }
    ensures { result ≡ held (made (cell_count numbers.now) (λ i. field numbers.now (cells_from numbers.now + 4 * i + which))) }
{
    let from = cells_from(numbers);
    let count = cells_held(numbers);
    let mut cells = [0u32; MOST_CELLS];
    for i in 0..count {
        cells[i] = number_at(numbers, from + CELL_NUMBERS * i + which);
    }
    cells
}

// The cells' directions, at the front of an array that is 0 past them; likewise their cover codes, groups and available water.
pub fn directions_in(numbers: &[u32]) -> [u32; MOST_CELLS]
    ensures { result ≡ held (setup numbers.now).direction }
{
    column(numbers, 0)
}

pub fn covers_in(numbers: &[u32]) -> [u32; MOST_CELLS]
    ensures { result ≡ held (setup numbers.now).cover }
{
    column(numbers, 1)
}

pub fn waters_in(numbers: &[u32]) -> [u32; MOST_CELLS]
    ensures { result ≡ held (setup numbers.now).available }
{
    column(numbers, 3)
}

// A cell's group; 0, which is no group, where its direction is below zero.
#[tactic(auto, unfolding(crate::specs::Program::group_given))]
fn group(direction: u32, given: u32) -> u32
    ensures { result ≡ group_given direction given }
{
    if NEGATIVES < direction { 0 } else { given }
}

pub fn groups_in(numbers: &[u32]) -> [u32; MOST_CELLS]
    ensures { result ≡ held (setup numbers.now).group }
{
    let from = cells_from(numbers);
    let count = cells_held(numbers);
    let mut cells = [0u32; MOST_CELLS];
    for i in 0..count {
        let direction = number_at(numbers, from + CELL_NUMBERS * i);
        let given = number_at(numbers, from + CELL_NUMBERS * i + 2);
        cells[i] = group(direction, given);
    }
    cells
}

// A temperature, with its sign back; a code that is no number's reads as the lowest, so that its day is refused.
fn tenths(code: u32) -> i32
    ensures { result ≡ degrees code }
{
    if NO_NUMBER <= code {
        return LOWEST;
    }
    if NEGATIVES < code {
        return 1000000000 - (code as i32);
    }
    code as i32
}

// Where day k begins, of days that begin at `from`; the numbers' end where that is past it.
fn day_place(count: usize, from: usize, k: usize) -> usize
    ensures { result ≡ min (from + 7 * k) count }
{
    if count <= from {
        return count;
    }
    if (count - from) / DAY_NUMBERS < k {
        return count;
    }
    from + DAY_NUMBERS * k
}

// The numbers of day k, of days that begin at `from`.
pub fn day_in(numbers: &[u32], from: usize, k: usize) -> DayRecord
    ensures { day_as result ≡ day_from numbers.now from k }
{
    let at = day_place(numbers.len(), from, k);
    DayRecord {
        serial: number_at(numbers, at),
        day_of_year: number_at(numbers, at + 1),
        gross: Depth(wide(number_at(numbers, at + 2))),
        minimum: TenthF(tenths(number_at(numbers, at + 3))),
        mean: TenthF(tenths(number_at(numbers, at + 4))),
        maximum: TenthF(tenths(number_at(numbers, at + 5))),
        potential: Depth(wide(number_at(numbers, at + 6))),
    }
}
