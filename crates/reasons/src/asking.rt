// The call: a day of the library on copies of the stores, and the reason for one cell's figures.
ghost use Rattle.std.specs.Prelude.{◌≡◌, ◌≤◌, length, take};
ghost use Rattle.paper.specs.Setup.{cells_of};
ghost use Rattle.paper.specs.Reasons.{why_of};
ghost use Rattle.records.specs.Grids.{grid_as, setup_of};
ghost use Rattle.records.specs.Past.{state_as};
ghost use Rattle.records.specs.Days.{day_as};
ghost use Rattle.records.specs.Verdicts.{verdict_as};
ghost use Rattle.reasons.specs.Whys.{why_as};
ghost use Rattle.records.specs.Answers.{answered};
ghost use Rattle.reasons.specs.Asked.{asked_of, Copied};

use crate::grounds::ground_at;
use crate::reading::{facts_of, first_true, left_at};
use crate::whys::Why;
use records::{DayRecord, Grid, MOST_CELLS, Past, Refusal, Setup, Totals, one_each};

// Test 4, of the cells' own numbers.
const CELL_TEST: u32 = 4;

// The cell asked about is tested among the cells of test 4: after those of the grid, and before the tests that come later.
pub fn asked(verdict: Result<(), Refusal>, grid: Grid, cell: usize) -> Result<(), Refusal>
    ensures { verdict_as result ≡ asked_of (cells_of (grid_as grid)) cell (verdict_as verdict) }
{
    if cell < grid.cells() {
        return verdict;
    }
    if let Err(why) = verdict {
        if why.number() <= CELL_TEST {
            return verdict;
        }
    }
    Err(Refusal::CellNumbers(cell))
}

// Whether a day was accepted, without its totals.
fn verdict_of(answer: Result<Totals, Refusal>) -> Result<(), Refusal>
    ensures { verdict_as result ≡ answered answer }
{
    match answer {
        Ok(_) => Ok(()),
        Err(why) => Err(why),
    }
}

// A store at the front of an array, for the day to change in place of the lent one.
fn copied(store: &[u32]) -> [u32; MOST_CELLS]
    requires { length store.now ≤ 4096 }
    ensures { Copied store.now result }
{
    let mut copy = [0u32; MOST_CELLS];
    for i in 0..store.len() {
        copy[i] = store[i];
    }
    copy
}

// Why the cell got its figures on the day, from the state before it: tests 1 to 10, then the first true reason of seven. Nothing that is lent changes.
pub fn why(
    setup: &Setup<'_>,
    soil: &[u32],
    snow: &[u32],
    past: Past,
    day: DayRecord,
    cell: usize,
) -> Result<Why, Refusal>
    ensures { why_as result ≡ why_of
        (setup_of setup.now)
        (state_as soil.now snow.now past) (day_as day) cell }
{
    if !setup.grid.fits() {
        return Err(Refusal::Grid);
    }
    let n = setup.grid.cells();
    if !one_each(n, &[soil.len(), snow.len()]) {
        return Err(Refusal::Lent);
    }
    let mut held = copied(soil);
    let mut lying = copied(snow);
    let mut after = past;
    let mut intercepted = [0u32; MOST_CELLS];
    let mut outflow = [0u32; MOST_CELLS];
    let mut evapotranspired = [0u32; MOST_CELLS];
    let mut recharged = [0u32; MOST_CELLS];
    let mut rejected = [0u32; MOST_CELLS];
    let answer = recharge::day(
        setup,
        &mut held[..n],
        &mut lying[..n],
        &mut intercepted[..n],
        &mut outflow[..n],
        &mut evapotranspired[..n],
        &mut recharged[..n],
        &mut rejected[..n],
        &mut after,
        day,
    );
    asked(verdict_of(answer), setup.grid, cell)?;
    let left = left_at(
        &outflow,
        &evapotranspired,
        &recharged,
        &rejected,
        &held,
        &lying,
        cell,
    );
    let ground = ground_at(
        setup.covers,
        setup.cover,
        setup.group,
        setup.available,
        cell,
    );
    Ok(first_true(facts_of(ground, day.gross, day.potential, soil[cell], left)))
}
