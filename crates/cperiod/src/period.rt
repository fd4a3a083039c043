// A list of days in one call, from the fresh state.
ghost use Rattle.clib.specs.Given.{setup_from};
ghost use Rattle.cperiod.specs.Period.{PeriodGiven};

use clib::{Site, returned_as, setup_given};

pub fn recharge_period(
    site: Site,
    covers: &[u32],
    direction: &[u32],
    cover: &[u32],
    group: &[u32],
    available: &[u32],
    days: &[i32],
    soil: &mut [u32],
    snow: &mut [u32],
    sums: &mut [u64],
    totals: &mut [u64],
    accepted: &mut u64,
) -> u64
    ensures { PeriodGiven
        (setup_from site covers.now direction.now cover.now group.now available.now)
        days.now soil.old snow.old sums.old totals.old
        soil.new snow.new sums.new totals.new accepted.new result }
{
    let setup = setup_given(site, covers, direction, cover, group, available);
    let ended = recharge::period(&setup, days, soil, snow, sums, totals);
    let count = ended.days;
    *accepted = count as u64;
    let verdict = ended.verdict;
    returned_as(verdict)
}
