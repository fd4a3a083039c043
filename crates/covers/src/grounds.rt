// What the rules read of one cell's ground on a day: the numbers of its slot, and its capacity.
ghost use Rattle.std.specs.Prelude.{◌≡◌, ◌*◌, ◌<◌};
ghost use Rattle.covers.specs.Plots.{plot_at, plot_by};
ghost use Rattle.covers.specs.Grounds.{plot_as};

use crate::plots::{
    CURVE_NUMBER, INTERCEPTED, LARGEST_RECHARGE, PLOT_NUMBERS, PLOT_ROOM, RAIN, ROOT_DEPTH,
    SNOWFALL,
};
use crate::slots::small_index;
use records::{CurveNumber, Depth, depth};

#[derive(Clone, Copy)]
pub struct Plot {
    pub intercepted: Depth,
    pub rain: Depth,
    pub snowfall: Depth,
    pub curve_number: CurveNumber,
    // The most that the soil can hold: 0 on open water.
    pub capacity: Depth,
    pub largest_recharge: Depth,
}

fn plot_number(plots: &[u32; PLOT_ROOM], slot: usize, k: usize) -> u32
    requires { (slot < 256) × (k < 6) }
    ensures { result ≡ plot_at plots.now slot k }
{
    plots[PLOT_NUMBERS * slot + k]
}

// Available water × root depth.
pub fn capacity(available: u32, roots: u32) -> Depth
    ensures { result.0 ≡ available * roots }
{
    Depth(available as u64 * roots as u64)
}

pub fn plot_at(plots: &[u32; PLOT_ROOM], slot: u8, available: u32) -> Plot
    ensures { plot_as result ≡ plot_by plots.now slot available }
{
    let at = small_index(slot);
    let curve = plot_number(plots, at, CURVE_NUMBER);
    Plot {
        intercepted: depth(plot_number(plots, at, INTERCEPTED)),
        rain: depth(plot_number(plots, at, RAIN)),
        snowfall: depth(plot_number(plots, at, SNOWFALL)),
        curve_number: CurveNumber(curve as u64),
        capacity: capacity(available, plot_number(plots, at, ROOT_DEPTH)),
        largest_recharge: depth(plot_number(plots, at, LARGEST_RECHARGE)),
    }
}
