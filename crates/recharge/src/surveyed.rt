// A day of a setup that its survey has passed, by what the survey left: tests 7 to 10, and then the pass downhill.
ghost use Rattle.records.specs.Past.{state_as};
ghost use Rattle.records.specs.Days.{day_as};
ghost use Rattle.records.specs.Answers.{results_as, outcome_as};
ghost use Rattle.recharge.specs.Surveyed.{SomeReady, Answered};

use crate::downhill::downhill;
use admission::day_verdict;
use covers::PLOT_ROOM;
use records::{Climate, DayRecord, Grid, MOST_CELLS, Past, Refusal, Totals};
use weather::today_of;

// It need not be told the cells' directions, covers and groups again: of every setup that it is ready for, the answer is the day's.
pub(crate) fn surveyed_day(
    grid: Grid,
    climate: Climate,
    covers: &[u32],
    available: &[u32],
    slots: &[u8; MOST_CELLS],
    ways: &[u32; MOST_CELLS],
    order: &[u32; MOST_CELLS],
    soil: &mut [u32],
    snow: &mut [u32],
    intercepted: &mut [u32],
    outflow: &mut [u32],
    evapotranspired: &mut [u32],
    recharged: &mut [u32],
    rejected: &mut [u32],
    past: &mut Past,
    day: DayRecord,
) -> Result<Totals, Refusal>
    requires { SomeReady grid climate covers.now available.now slots.now ways.now order.now (state_as soil.old snow.old past.old)
        (results_as intercepted.old outflow.old evapotranspired.old recharged.old rejected.old) }
    ensures { Answered grid climate covers.now available.now slots.now ways.now order.now
        (state_as soil.old snow.old past.old)
        (results_as intercepted.old outflow.old evapotranspired.old recharged.old rejected.old) (day_as day)
        (outcome_as result soil.new snow.new past.new
        (results_as intercepted.new outflow.new evapotranspired.new recharged.new rejected.new)) }
{
    let mut plots = [0u32; PLOT_ROOM];
    let today = today_of(climate, *past, day);
    day_verdict(
        grid, today, covers, slots, available, soil, snow, *past, day, &mut plots,
    )?;
    let totals = downhill(
        today,
        &plots,
        slots,
        ways,
        order,
        available,
        soil,
        snow,
        intercepted,
        outflow,
        evapotranspired,
        recharged,
        rejected,
    );
    *past = past.after(day);
    Ok(totals)
}
