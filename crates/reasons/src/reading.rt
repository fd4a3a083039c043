// The reason, read back from a cell's figures.
ghost use Rattle.std.specs.Prelude.{◌≡◌, ℕ, ◌-◌, ◌≤◌, ◌<◌};
ghost use Rattle.paper.specs.Reasons.{explained};
ghost use Rattle.reasons.specs.Whys.{because_as};
ghost use Rattle.reasons.specs.Grounds.{ground_as};
ghost use Rattle.reasons.specs.Reading.{left_as, left_by, infiltration_from, facts_as, facts_from};

use crate::grounds::Ground;
use crate::whys::{Reason, Why};
use records::{Depth, MOST_CELLS, depth};

// What a day left of a cell.
#[derive(Clone, Copy)]
pub(crate) struct Left {
    pub(crate) outflow: u32,
    pub(crate) evapotranspired: u32,
    pub(crate) recharged: u32,
    pub(crate) rejected: u32,
    pub(crate) soil: u32,
    pub(crate) snow: u32,
}

// What the reasons speak of.
#[derive(Clone, Copy)]
pub(crate) struct Facts {
    open_water: bool,
    gross: Depth,
    inflow: Depth,
    water: Depth,
    end_snow: Depth,
    infiltration: Depth,
    potential: Depth,
    surplus: Depth,
    room: Depth,
    excess: Depth,
    largest: Depth,
}

// What the arrays of a day hold of it.
pub(crate) fn left_at(
    outflow: &[u32; MOST_CELLS],
    evapotranspired: &[u32; MOST_CELLS],
    recharged: &[u32; MOST_CELLS],
    rejected: &[u32; MOST_CELLS],
    soil: &[u32; MOST_CELLS],
    snow: &[u32; MOST_CELLS],
    cell: usize,
) -> Left
    requires { cell < 4096 }
    ensures { left_as result ≡ left_by outflow.now evapotranspired.now recharged.now rejected.now soil.now snow.now cell }
{
    Left {
        outflow: outflow[cell],
        evapotranspired: evapotranspired[cell],
        recharged: recharged[cell],
        rejected: rejected[cell],
        soil: soil[cell],
        snow: snow[cell],
    }
}

// The soil's account: what sank in was evapotranspired, recharged or rejected, or it is in the soil and was not there before.
fn sank_in(before: u32, day: Left) -> Depth
    ensures { (result.0 ≡ infiltration_from before (left_as day)) × (result.0 ≤ 17179869184) }
{
    let gone = day.evapotranspired as u64 + day.recharged as u64 + day.rejected as u64;
    Depth(gone + day.soil as u64).beyond(depth(before))
}

// What a cell rejects is in its outflow, but for a closed depression, which has neither outflow nor runoff.
fn ran_off(day: Left) -> Depth
    ensures { (result.0 ≡ day.outflow - day.rejected) × (result.0 ≤ 4294967296) }
{
    let outflow = depth(day.outflow);
    outflow.beyond(depth(day.rejected))
}

// From the soil before the day and what it left.
#[tactic(auto, unfolding(crate::specs::Reading::facts_from))]
pub(crate) fn facts_of(
    ground: Ground,
    gross: Depth,
    potential: Depth,
    before: u32,
    day: Left,
) -> Facts
    ensures { facts_as result day.recharged ≡ facts_from (ground_as ground) gross.0 potential.0 before (left_as day) }
{
    let outflow = depth(day.outflow);
    let capacity = ground.capacity;
    let largest = ground.largest_recharge;
    let infiltration = sank_in(before, day);
    let runoff = ran_off(day);
    Facts {
        open_water: ground.open_water,
        gross,
        inflow: outflow.beyond(gross),
        water: Depth(infiltration.0 + runoff.0),
        end_snow: depth(day.snow),
        infiltration,
        potential,
        surplus: infiltration.beyond(potential),
        room: capacity.beyond(depth(before)),
        excess: Depth(day.recharged as u64 + day.rejected as u64),
        largest,
    }
}

fn because(reason: Reason, first: Depth, second: Depth) -> Why
    ensures { result ≡ record { reason = reason; first = first; second = second } }
{
    Why {
        reason,
        first,
        second,
    }
}

// The first true reason. How much of the excess recharged is not asked: where the six before it are false, all of it did.
pub(crate) fn first_true(facts: Facts) -> Why
    ensures { (recharged : ℕ) → because_as result ≡ explained (facts_as facts recharged) }
{
    let Facts {
        open_water,
        gross,
        inflow,
        water,
        end_snow: snow,
        infiltration,
        potential,
        surplus,
        room,
        excess,
        largest,
    } = facts;
    if open_water {
        return because(Reason::OpenWater, gross, inflow);
    }
    if water.0 == 0 {
        if 0 < snow.0 {
            return because(Reason::UnderSnow, water, snow);
        }
        return because(Reason::NoWater, water, snow);
    }
    if infiltration.0 < potential.0 {
        return because(Reason::BelowPotential, infiltration, potential);
    }
    if surplus.0 <= room.0 {
        return because(Reason::RoomForAll, surplus, room);
    }
    if largest.0 < excess.0 {
        return because(Reason::AboveLargest, excess, largest);
    }
    because(Reason::AllRecharged, excess, largest)
}
