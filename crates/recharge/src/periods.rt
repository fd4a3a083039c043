// A period: a list of days in one call, from the fresh state, with each cell's five figures added up over them. The setup is surveyed once.
ghost use Rattle.std.specs.Prelude.{Err, ◌≡◌, ◌+◌, ◌≤◌, length};
ghost use Rattle.theory.specs.Lists.{made};
ghost use Rattle.paper.specs.State.{no_past};
ghost use Rattle.records.specs.Answers.{results_as};
ghost use Rattle.records.specs.Grids.{setup_of};
ghost use Rattle.records.specs.Past.{past_as, state_as};
ghost use Rattle.recharge.specs.Period.{SumsRoom, Added, Addable, DayAdded, lists_fit, Begun, Went, Periods};

use crate::surveyed::surveyed_day;
use daybook::{DAY_NUMBERS, day_at, put_totals};
use records::{MOST_CELLS, Past, Refusal, Setup, wide};
use stores::fresh;
use survey::survey;

// How many days were accepted: all of them, or those before the one that is refused; and what the next day would remember.
#[derive(Clone, Copy)]
pub struct Ended {
    pub verdict: Result<(), Refusal>,
    pub days: usize,
    pub past: Past,
}

// Before any day.
fn unbegun(why: Refusal) -> Ended
    ensures { (result.verdict ≡ Err why) × (result.days ≡ 0) × (past_as result.past ≡ no_past) }
{
    let past = Past::none();
    Ended {
        verdict: Err(why),
        days: 0,
        past,
    }
}

// The sums of a cell, which are as many as a day's results.
const CELL_SUMS: usize = 5;

fn clear(sums: &mut [u64])
    ensures { sums.new ≡ made (length sums.old) (λ i. 0) }
{
    for i in 0..sums.len() {
        sums[i] = 0;
    }
}

// Each cell's figure is added to its sum; the sums of this figure stand from a place on.
fn add_figures(sums: &mut [u64], from: usize, figures: &[u32])
    requires { (from + length figures.now ≤ length sums.old) × SumsRoom sums.old }
    ensures { Added from (length figures.now) figures.now sums.old sums.new }
{
    for i in 0..figures.len() {
        sums[from + i] += wide(figures[i]);
    }
}

// The five figures of every cell on a day.
fn add_day(
    sums: &mut [u64],
    n: usize,
    intercepted: &[u32],
    outflow: &[u32],
    evapotranspired: &[u32],
    recharged: &[u32],
    rejected: &[u32],
)
    requires { Addable n sums.old (results_as intercepted.now outflow.now evapotranspired.now recharged.now rejected.now) }
    ensures { DayAdded n (results_as intercepted.now outflow.now evapotranspired.now recharged.now rejected.now)
        sums.old sums.new }
{
    add_figures(sums, 0, intercepted);
    add_figures(sums, n, outflow);
    add_figures(sums, 2 * n, evapotranspired);
    add_figures(sums, 3 * n, recharged);
    add_figures(sums, 4 * n, rejected);
}

// The days from a fresh state on, up to the first that is refused. The results of every cell are made once for all days, and a day finds in them what
// the day before left.
fn run(
    setup: &Setup<'_>,
    days: &[i32],
    soil: &mut [u32],
    snow: &mut [u32],
    sums: &mut [u64],
    totals: &mut [u64],
    past: Past,
) -> Ended
    requires { Begun (setup_of setup.now) days.now
        (state_as soil.old snow.old past) sums.old totals.old }
    ensures { Went (setup_of setup.now)
        days.now totals.old result soil.new snow.new sums.new totals.new }
{
    let mut slots = [0u8; MOST_CELLS];
    let mut ways = [0u32; MOST_CELLS];
    let mut order = [0u32; MOST_CELLS];
    // the setup has passed these tests already
    let _ = survey(setup, &mut slots, &mut ways, &mut order);
    let n = setup.available.len();
    let mut intercepted = [0u32; MOST_CELLS];
    let mut outflow = [0u32; MOST_CELLS];
    let mut evapotranspired = [0u32; MOST_CELLS];
    let mut recharged = [0u32; MOST_CELLS];
    let mut rejected = [0u32; MOST_CELLS];
    clear(sums);
    let mut past = past;
    for k in 0..days.len() / DAY_NUMBERS {
        let day = day_at(days, k);
        let answer = surveyed_day(
            setup.grid,
            setup.climate,
            setup.covers,
            setup.available,
            &slots,
            &ways,
            &order,
            soil,
            snow,
            &mut intercepted[..n],
            &mut outflow[..n],
            &mut evapotranspired[..n],
            &mut recharged[..n],
            &mut rejected[..n],
            &mut past,
            day,
        );
        let day_totals = match answer {
            Ok(totals) => totals,
            Err(why) => {
                return Ended {
                    verdict: Err(why),
                    days: k,
                    past,
                };
            }
        };
        add_day(
            sums,
            n,
            &intercepted[..n],
            &outflow[..n],
            &evapotranspired[..n],
            &recharged[..n],
            &rejected[..n],
        );
        put_totals(totals, k, day_totals);
    }
    Ended {
        verdict: Ok(()),
        days: days.len() / DAY_NUMBERS,
        past,
    }
}

// Test 2 of the lists that come with the days: whole days, five sums a cell, and as many totals as numbers of days.
#[tactic(auto, unfolding(crate::specs::Period::lists_fit))]
fn lists_fit(n: usize, days: usize, sums: usize, totals: usize) -> bool
    requires { n ≤ 4096 }
    ensures { result ≡ lists_fit n days sums totals }
{
    (days % DAY_NUMBERS == 0) & (sums == CELL_SUMS * n) & (totals == days)
}

// All days of a list, from the fresh state: tests 1 to 6 once, then the days one after another, up to the first that is refused. Stores, sums and totals
// are then those of the days before it. Where the setup is refused, nothing lent is changed.
pub fn period(
    setup: &Setup<'_>,
    days: &[i32],
    soil: &mut [u32],
    snow: &mut [u32],
    sums: &mut [u64],
    totals: &mut [u64],
) -> Ended
    ensures { Periods (setup_of setup.now)
        days.now soil.old snow.old sums.old totals.old result
        soil.new snow.new sums.new totals.new }
{
    if !setup.grid.fits() {
        return unbegun(Refusal::Grid);
    }
    if !lists_fit(setup.grid.cells(), days.len(), sums.len(), totals.len()) {
        return unbegun(Refusal::Lent);
    }
    match fresh(setup, soil, snow) {
        Err(why) => unbegun(why),
        Ok(past) => run(setup, days, soil, snow, sums, totals, past),
    }
}
