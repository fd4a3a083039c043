// Rules 7 and 8: what infiltration and evapotranspiration do to the soil.
ghost use Rattle.std.specs.Prelude.{◌≡◌, ◌≤◌, ◌<◌};
ghost use Rattle.paper.specs.Limits.{most_potential};
ghost use Rattle.paper.specs.Soil.{wet_day, dry_day, soil_day};
ghost use Rattle.covers.specs.Slots.{most_capacity};
ghost use Rattle.recharge.specs.Depths.{water_limit};
ghost use Rattle.retention.specs.Retention.{table};
ghost use Rattle.recharge.specs.Soil.{soil_day_as};

use crate::loss::loss;
use records::Depth;
use retention::KNOTS;

#[derive(Clone, Copy)]
pub struct SoilDay {
    pub evapotranspired: Depth,
    pub recharged: Depth,
    pub rejected: Depth,
    pub soil: Depth,
}

// Rule 7: there is water for all the potential evapotranspiration.
fn wet_day(
    capacity: Depth,
    largest: Depth,
    soil: Depth,
    infiltration: Depth,
    potential: Depth,
) -> SoilDay
    requires { (capacity.0 ≤ most_capacity) × (soil.0 ≤ capacity.0) × (infiltration.0 < water_limit) × (potential.0 ≤ infiltration.0) }
    ensures { soil_day_as result ≡ wet_day capacity.0 largest.0 soil.0 infiltration.0 potential.0 }
{
    let before = soil.0;
    let n = infiltration.0;
    let e = potential.0;
    let reached = Depth(before + n - e);
    let excess = reached.beyond(capacity);
    SoilDay {
        evapotranspired: potential,
        recharged: excess.smaller(largest),
        rejected: excess.beyond(largest),
        soil: reached.smaller(capacity),
    }
}

// Rule 8: the soil gives up a part of the shortfall.
fn dry_day(
    f: &[u32; KNOTS],
    capacity: Depth,
    soil: Depth,
    infiltration: Depth,
    potential: Depth,
) -> SoilDay
    requires { (capacity.0 ≤ most_capacity) × (soil.0 ≤ capacity.0) × (infiltration.0 < potential.0) × (potential.0 ≤ most_potential) × (f.now ≡ table) }
    ensures { soil_day_as result ≡ dry_day capacity.0 soil.0 infiltration.0 potential.0 }
{
    let before = soil.0;
    let n = infiltration.0;
    let e = potential.0;
    let lost = loss(f, capacity, soil, Depth(e - n)).0;
    SoilDay {
        evapotranspired: Depth(n + lost),
        recharged: Depth(0),
        rejected: Depth(0),
        soil: Depth(before - lost),
    }
}

pub(crate) fn soil_day(
    f: &[u32; KNOTS],
    capacity: Depth,
    largest: Depth,
    soil: Depth,
    infiltration: Depth,
    potential: Depth,
) -> SoilDay
    requires { (capacity.0 ≤ most_capacity) × (soil.0 ≤ capacity.0) × (infiltration.0 < water_limit) × (potential.0 ≤ most_potential) × (f.now ≡ table) }
    ensures { soil_day_as result ≡ soil_day capacity.0 largest.0 soil.0 infiltration.0 potential.0 }
{
    let n = infiltration.0;
    let e = potential.0;
    if e <= n {
        wet_day(capacity, largest, soil, infiltration, potential)
    } else {
        dry_day(f, capacity, soil, infiltration, potential)
    }
}
