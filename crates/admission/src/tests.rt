// The tests of a day, in the order of the numbers: 1 and 2 before the survey's, 7 to 10 after them.
ghost use Rattle.std.specs.Prelude.{◌≡◌};
ghost use Rattle.paper.specs.Refusals.{verdict};
ghost use Rattle.records.specs.Grids.{grid_as};
ghost use Rattle.records.specs.Past.{past_as};
ghost use Rattle.records.specs.Days.{day_as};
ghost use Rattle.records.specs.Verdicts.{verdict_in};
ghost use Rattle.weather.specs.Today.{today_as};
ghost use Rattle.covers.specs.Plots.{plots_of};
ghost use Rattle.stores.specs.States.{lent_tests};
ghost use Rattle.admission.specs.Tests.{day_lengths, later_tests};

use covers::{PLOT_ROOM, lay_plots};
use records::{DayRecord, Grid, MOST_CELLS, Past, Refusal, one_each};
use stores::{snow_verdict, state_verdict};
use weather::Today;

// The lengths of the lent results.
#[derive(Clone, Copy)]
pub struct Lengths {
    pub intercepted: usize,
    pub outflow: usize,
    pub evapotranspired: usize,
    pub recharged: usize,
    pub rejected: usize,
}

// Tests 1 and 2 of the stores and the results: the survey tests the setup's own slices.
pub fn lent_verdict(grid: Grid, soil: usize, snow: usize, results: Lengths) -> Result<(), Refusal>
    ensures { result ≡ verdict_in (verdict (lent_tests (grid_as grid) (day_lengths soil snow results))) }
{
    if !grid.fits() {
        return Err(Refusal::Grid);
    }
    let n = grid.cells();
    let lengths = [
        soil,
        snow,
        results.intercepted,
        results.outflow,
        results.evapotranspired,
        results.recharged,
        results.rejected,
    ];
    if !one_each(n, &lengths) {
        return Err(Refusal::Lent);
    }
    Ok(())
}

// Tests 7 to 10, the cells found by their slots. What the cells of each slot share is laid out first, since test 10 reads the snowfall there.
pub fn day_verdict(
    grid: Grid,
    today: Today,
    covers: &[u32],
    slots: &[u8; MOST_CELLS],
    available: &[u32],
    soil: &[u32],
    snow: &[u32],
    past: Past,
    day: DayRecord,
    plots: &mut [u32; PLOT_ROOM],
) -> Result<(), Refusal>
    ensures { (plots.new ≡ plots_of (today_as today) covers.now plots.old)
        × (result ≡ verdict_in (verdict (later_tests (grid_as grid) covers.now slots.now available.now soil.now snow.now
        (past_as past) (day_as day) plots.new))) }
{
    lay_plots(today, covers, plots);
    if !day.fits() {
        return Err(Refusal::DayRecord);
    }
    if !past.is_followed_by(day.serial) {
        return Err(Refusal::SerialGap);
    }
    state_verdict(grid, covers, slots, available, soil, snow, past)?;
    snow_verdict(plots, slots, snow)
}
