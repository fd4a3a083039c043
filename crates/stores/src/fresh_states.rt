// A fresh state.
ghost use Rattle.std.specs.Prelude.{◌≡◌, length};
ghost use Rattle.paper.specs.Day.{fresh_of};
ghost use Rattle.records.specs.Answers.{fresh_as};
ghost use Rattle.records.specs.Grids.{setup_of};
ghost use Rattle.survey.specs.Charts.{SlotsFit};
ghost use Rattle.stores.specs.Fresh.{Filled};

use covers::{root_depths, small_index};
use records::{MOST_CELLS, Past, Refusal, Setup, one_each};
use survey::survey;

// Fills a fresh state's stores: soil full, none on open water, and no snow.
fn fill(
    covers: &[u32],
    slots: &[u8; MOST_CELLS],
    available: &[u32],
    soil: &mut [u32],
    snow: &mut [u32],
)
    requires { SlotsFit covers.now (length available.now) slots.now available.now
        × (length soil.old ≡ length available.now) × (length snow.old ≡ length available.now) }
    ensures { Filled covers.now slots.now available.now soil.new snow.new }
{
    let roots = root_depths(covers);
    for i in 0..available.len() {
        soil[i] = available[i] * roots[small_index(slots[i])];
        snow[i] = 0;
    }
}

// A fresh state: tests 1 to 6, then soil full (0 on open water), snow 0, and a past of five zeros, no serial and no frost.
pub fn fresh(setup: &Setup<'_>, soil: &mut [u32], snow: &mut [u32]) -> Result<Past, Refusal>
    ensures { fresh_as result soil.new snow.new ≡ fresh_of
        (setup_of setup.now)
        soil.old snow.old }
{
    if !setup.grid.fits() {
        return Err(Refusal::Grid);
    }
    if !one_each(setup.grid.cells(), &[soil.len(), snow.len()]) {
        return Err(Refusal::Lent);
    }
    let mut slots = [0u8; MOST_CELLS];
    let mut ways = [0u32; MOST_CELLS];
    let mut order = [0u32; MOST_CELLS];
    survey(setup, &mut slots, &mut ways, &mut order)?;
    fill(setup.covers, &slots, setup.available, soil, snow);
    Ok(Past::none())
}
