// The office's daily call.
ghost use Rattle.std.specs.Prelude.{◌≡◌};
ghost use Rattle.paper.specs.Day.{day_of};
ghost use Rattle.records.specs.Grids.{setup_of};
ghost use Rattle.records.specs.Past.{state_as};
ghost use Rattle.records.specs.Days.{day_as};
ghost use Rattle.records.specs.Answers.{results_as, outcome_as};

use crate::surveyed::surveyed_day;
use admission::{Lengths, lent_verdict};
use records::{DayRecord, MOST_CELLS, Past, Refusal, Setup, Totals};
use survey::survey;

// One day: tests 1 to 10, then the five results and the two stores of every cell, the totals, and the next memory, serial and frost index. A day refused leaves
// all that it was lent as it was.
pub fn day(
    setup: &Setup<'_>,
    soil: &mut [u32],
    snow: &mut [u32],
    intercepted: &mut [u32],
    outflow: &mut [u32],
    evapotranspired: &mut [u32],
    recharged: &mut [u32],
    rejected: &mut [u32],
    past: &mut Past,
    day: DayRecord,
) -> Result<Totals, Refusal>
    ensures { outcome_as result soil.new snow.new past.new
        (results_as intercepted.new outflow.new evapotranspired.new recharged.new rejected.new)
        ≡ day_of (setup_of setup.now)
        (state_as soil.old snow.old past.old)
        (results_as intercepted.old outflow.old evapotranspired.old recharged.old rejected.old) (day_as day) }
{
    let lengths = Lengths {
        intercepted: intercepted.len(),
        outflow: outflow.len(),
        evapotranspired: evapotranspired.len(),
        recharged: recharged.len(),
        rejected: rejected.len(),
    };
    lent_verdict(setup.grid, soil.len(), snow.len(), lengths)?;
    let mut slots = [0u8; MOST_CELLS];
    let mut ways = [0u32; MOST_CELLS];
    let mut order = [0u32; MOST_CELLS];
    survey(setup, &mut slots, &mut ways, &mut order)?;
    surveyed_day(
        setup.grid,
        setup.climate,
        setup.covers,
        setup.available,
        &slots,
        &ways,
        &order,
        soil,
        snow,
        intercepted,
        outflow,
        evapotranspired,
        recharged,
        rejected,
        past,
        day,
    )
}
