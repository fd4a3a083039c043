// The library for C with a whole period: cperiod's call, with its promise, as a C function. include/recharge.h says it to C.
#![tactic(auto)]

ghost use Rattle.clib.specs.Given.{setup_from};
ghost use Rattle.cperiod.specs.Period.{PeriodGiven};

use clib::Site;

#[unsafe(no_mangle)]
pub extern "C" fn recharge_period(
    site: Site,
    covers: &[u32],
    direction: &[u32],
    cover: &[u32],
    group: &[u32],
    available: &[u32],
    days: &[i32],
    soil: &mut [u32],
    snow: &mut [u32],
    sums: &mut [u64],
    totals: &mut [u64],
    accepted: &mut u64,
) -> u64
    ensures { PeriodGiven
        (setup_from site covers.now direction.now cover.now group.now available.now)
        days.now soil.old snow.old sums.old totals.old
        soil.new snow.new sums.new totals.new accepted.new result }
{
    cperiod::recharge_period(
        site, covers, direction, cover, group, available, days, soil, snow, sums, totals, accepted,
    )
}
