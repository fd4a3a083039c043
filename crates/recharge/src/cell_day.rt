// Rules 1 to 8 on one cell, once all that flows to it has arrived. Open water needs a case of its own in its runoff alone: its soil holds nothing
// and no snow lies on it, so that every figure but what flows out is 0.
ghost use Rattle.std.specs.Prelude.{◌≡◌, ◌≤◌, ◌<◌};
ghost use Rattle.paper.specs.Limits.{most_curve_number};
ghost use Rattle.weather.specs.Today.{today_as};
ghost use Rattle.recharge.specs.Depths.{water_limit};
ghost use Rattle.covers.specs.Grounds.{plot_as};
ghost use Rattle.recharge.specs.CellDay.{figures_as, runoff_by, figures_by, CellReady};

use crate::runoff::runoff;
use crate::soil::soil_day;
use crate::ways::{Way, runs_on};
use covers::Plot;
use records::Depth;
use retention::KNOTS;
use weather::{Today, melt};

// Depths of 32 bits, as the lent slices hold them.
#[derive(Clone, Copy)]
pub(crate) struct Figures {
    pub(crate) intercepted: u32,
    pub(crate) outflow: u32,
    pub(crate) evapotranspired: u32,
    pub(crate) recharged: u32,
    pub(crate) rejected: u32,
    pub(crate) soil: u32,
    pub(crate) snow: u32,
}

// What runs off a cell: all of its water on open water, and nothing in a closed depression.
fn runs_off(plot: Plot, way: Way, water: Depth) -> Depth
    requires { ((plot_as plot).curve ≤ most_curve_number) × (water.0 < water_limit) }
    ensures { result.0 ≡ runoff_by (plot_as plot) way.0 water.0 }
{
    if way.0 == Way::OPEN_WATER.0 {
        return water;
    }
    if way.0 == Way::CLOSED.0 {
        return Depth(0);
    }
    runoff(plot.curve_number, water)
}

pub(crate) fn cell_day(
    f: &[u32; KNOTS],
    today: Today,
    plot: Plot,
    way: Way,
    soil: Depth,
    snow: Depth,
    arrived: Depth,
) -> Figures
    requires { CellReady (today_as today) (plot_as plot) soil.0 snow.0 arrived.0 f.now }
    ensures { figures_as result ≡ figures_by (today_as today) (plot_as plot) way.0 soil.0 snow.0 arrived.0 }
{
    let store = Depth(snow.0 + plot.snowfall.0);
    let melted = melt(store, today.meltable);
    let water = Depth(plot.rain.0 + melted.0 + arrived.0);
    let surface = runs_off(plot, way, water);
    let ground = soil_day(
        f,
        plot.capacity,
        plot.largest_recharge,
        soil,
        water.beyond(surface),
        today.potential,
    );
    let on = runs_on(way, ground.rejected);
    let outflow = Depth(surface.0 + on.0);
    Figures {
        intercepted: plot.intercepted.0 as u32,
        outflow: outflow.0 as u32,
        evapotranspired: ground.evapotranspired.0 as u32,
        recharged: ground.recharged.0 as u32,
        rejected: ground.rejected.0 as u32,
        soil: ground.soil.0 as u32,
        snow: store.beyond(melted).0 as u32,
    }
}
