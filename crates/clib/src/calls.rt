// The three calls for C.
ghost use Rattle.std.specs.Prelude.{◌≡◌};
ghost use Rattle.paper.specs.Day.{check_of};
ghost use Rattle.clib.specs.Numbers.{returned};
ghost use Rattle.clib.specs.Given.{setup_from, day_from};
ghost use Rattle.clib.specs.Handed.{stores_from, results_from, begun, fresh_gives, handed, day_gives};

use crate::given::{DayNumbers, Site, record_of, setup_given};
use crate::numbers::{refused_as, returned_as};
use crate::state::{figures_of, keep, past_from};
use records::Past;

pub fn recharge_check(
    site: Site,
    covers: &[u32],
    direction: &[u32],
    cover: &[u32],
    group: &[u32],
    available: &[u32],
) -> u64
    ensures { result ≡ returned (check_of
        (setup_from site covers.now direction.now cover.now group.now available.now)) }
{
    let setup = setup_given(site, covers, direction, cover, group, available);
    returned_as(recharge::check(&setup))
}

pub fn recharge_fresh(
    site: Site,
    covers: &[u32],
    direction: &[u32],
    cover: &[u32],
    group: &[u32],
    available: &[u32],
    soil: &mut [u32],
    snow: &mut [u32],
    memory: &mut [u32; 5],
    last_serial: &mut u32,
    frost_index: &mut u32,
) -> u64
    ensures { begun result (stores_from soil.new snow.new memory.new last_serial.new frost_index.new)
        ≡ fresh_gives (setup_from site covers.now direction.now cover.now group.now available.now)
        soil.old snow.old }
{
    let setup = setup_given(site, covers, direction, cover, group, available);
    match recharge::fresh(&setup, soil, snow) {
        Ok(past) => {
            keep(past, memory, last_serial, frost_index);
            0
        }
        Err(why) => {
            keep(Past::none(), memory, last_serial, frost_index);
            refused_as(why)
        }
    }
}

pub fn recharge_day(
    site: Site,
    covers: &[u32],
    direction: &[u32],
    cover: &[u32],
    group: &[u32],
    available: &[u32],
    soil: &mut [u32],
    snow: &mut [u32],
    memory: &mut [u32; 5],
    last_serial: &mut u32,
    frost_index: &mut u32,
    intercepted: &mut [u32],
    outflow: &mut [u32],
    evapotranspired: &mut [u32],
    recharged: &mut [u32],
    rejected: &mut [u32],
    totals: &mut [u64; 7],
    day: DayNumbers,
) -> u64
    ensures { handed result (stores_from soil.new snow.new memory.new last_serial.new frost_index.new)
        (results_from intercepted.new outflow.new evapotranspired.new recharged.new rejected.new)
        totals.new
        ≡ day_gives (setup_from site covers.now direction.now cover.now group.now available.now)
        (stores_from soil.old snow.old memory.old last_serial.old frost_index.old)
        (results_from intercepted.old outflow.old evapotranspired.old recharged.old rejected.old)
        (day_from day) }
{
    let setup = setup_given(site, covers, direction, cover, group, available);
    let mut past = past_from(memory, *last_serial, *frost_index);
    let answer = recharge::day(
        &setup,
        soil,
        snow,
        intercepted,
        outflow,
        evapotranspired,
        recharged,
        rejected,
        &mut past,
        record_of(day),
    );
    keep(past, memory, last_serial, frost_index);
    match answer {
        Ok(sums) => {
            *totals = figures_of(sums);
            0
        }
        Err(why) => {
            *totals = [0; 7];
            refused_as(why)
        }
    }
}
