// Why a cell got its figures, for C.
ghost use Rattle.std.specs.Prelude.{◌≡◌};
ghost use Rattle.paper.specs.Reasons.{why_of};
ghost use Rattle.reasons.specs.Whys.{because_as};
ghost use Rattle.clib.specs.Given.{setup_from, day_from};
ghost use Rattle.clib.specs.Handed.{stores_from, state_from};
ghost use Rattle.clib.specs.Whys.{reason_list, explained, reason_given};

use crate::given::{DayNumbers, Site, record_of, setup_given};
use crate::numbers::refused_as;
use crate::state::past_from;
use reasons::Why;
use records::{index_of, wide};

// The reason's number and its two depths.
#[tactic(auto, unfolding(crate::specs::Whys::reason_list, reasons::specs::Whys::why_number, reasons::specs::Whys::first_depth, reasons::specs::Whys::second_depth))]
fn told(why: Why) -> [u64; 3]
    ensures { result ≡ reason_list (because_as why) }
{
    let first = why.first.0;
    let second = why.second.0;
    [wide(why.reason.number()), first, second]
}

pub fn recharge_why(
    site: Site,
    covers: &[u32],
    direction: &[u32],
    cover: &[u32],
    group: &[u32],
    available: &[u32],
    soil: &[u32],
    snow: &[u32],
    memory: &[u32; 5],
    last_serial: u32,
    frost_index: u32,
    day: DayNumbers,
    cell: u32,
    reason: &mut [u64; 3],
) -> u64
    ensures { explained result reason.new ≡ reason_given (why_of
        (setup_from site covers.now direction.now cover.now group.now available.now)
        (state_from (stores_from soil.now snow.now memory.now last_serial frost_index)) (day_from day) cell) }
{
    let setup = setup_given(site, covers, direction, cover, group, available);
    let past = past_from(memory, last_serial, frost_index);
    let why = reasons::why(&setup, soil, snow, past, record_of(day), index_of(cell));
    match why {
        Ok(why) => {
            *reason = told(why);
            0
        }
        Err(why) => {
            *reason = [0; 3];
            refused_as(why)
        }
    }
}
