// Rules 1 to 3 and 5 on each cover and soil group, once a day: all that the cells of one slot share, six numbers a slot in one array. On open
// water nothing is intercepted, all of gross precipitation is rain, and the other four are 0.
ghost use Rattle.std.specs.Prelude.{cond, ◌≡◌, ◌*◌, ◌/◌, ◌≤◌, ◌<◌, min, length};
ghost use Rattle.theory.specs.Lists.{made_over};
ghost use Rattle.theory.specs.Sums.{given};
ghost use Rattle.paper.specs.Limits.{most_gross};
ghost use Rattle.paper.specs.Covers.{entries};
ghost use Rattle.weather.specs.Today.{today_as};
ghost use Rattle.covers.specs.Plots.{shared_as, shared_by, plot_number, plots_of};

use crate::slots::MOST_SLOTS;
use crate::table::{
    CURVE_NUMBERS, DORMANT_FIGURE, ENTRY_NUMBERS, GROWING_FIGURE, LARGEST_RECHARGES, OPEN_FLAG,
    ROOT_DEPTHS, entry_number,
};
use records::{CurveNumber, Depth, depth};
use weather::{Today, curve_number};

// The places of a slot's numbers.
pub(crate) const INTERCEPTED: usize = 0;

pub(crate) const RAIN: usize = 1;

pub const SNOWFALL: usize = 2;

pub(crate) const CURVE_NUMBER: usize = 3;

pub(crate) const ROOT_DEPTH: usize = 4;

pub(crate) const LARGEST_RECHARGE: usize = 5;

pub const PLOT_NUMBERS: usize = 6;

pub const PLOT_ROOM: usize = PLOT_NUMBERS * MOST_SLOTS;

#[derive(Clone, Copy)]
struct SlotDay {
    intercepted: u32,
    rain: u32,
    snowfall: u32,
    curve_number: u32,
    root_depth: u32,
    largest_recharge: u32,
}

// Which of an entry's numbers is interception in this season.
fn season_figure(growing: bool) -> usize
    ensures { (result ≡ cond growing 10 11) × (result < 16) }
{
    if growing {
        GROWING_FIGURE
    } else {
        DORMANT_FIGURE
    }
}

// What of the net precipitation falls so.
fn falling(so: bool, net: Depth) -> u32
    requires { net.0 ≤ most_gross }
    ensures { result ≡ given so net.0 }
{
    if so { net.0 as u32 } else { 0 }
}

fn slot_day(today: Today, covers: &[u32], slot: usize) -> SlotDay
    requires { (slot < 4 * entries covers.now) × (today.gross.0 ≤ most_gross) }
    ensures { shared_as result ≡ shared_by (today_as today) covers.now slot }
{
    let gross = today.gross;
    let e = slot / 4;
    if entry_number(covers, e, OPEN_FLAG) == 1 {
        return SlotDay {
            intercepted: 0,
            rain: gross.0 as u32,
            snowfall: 0,
            curve_number: 0,
            root_depth: 0,
            largest_recharge: 0,
        };
    }
    let group = slot % 4 + 1;
    let figure = entry_number(covers, e, season_figure(today.growing));
    let intercepted = gross.smaller(depth(figure));
    let net = gross.beyond(intercepted);
    let table = CurveNumber(entry_number(covers, e, CURVE_NUMBERS + group) as u64);
    let condition = today.condition;
    let curve = curve_number(condition, table);
    let root_depth = entry_number(covers, e, ROOT_DEPTHS + group);
    let largest_recharge = entry_number(covers, e, LARGEST_RECHARGES + group);
    let snows = today.snows;
    SlotDay {
        intercepted: intercepted.0 as u32,
        rain: falling(!snows, net),
        snowfall: falling(snows, net),
        curve_number: curve.0 as u32,
        root_depth,
        largest_recharge,
    }
}

// The numbers of each slot of the table, as far as the room goes. The array is lent as a slice, whose length the prover knows.
fn lay(today: Today, covers: &[u32], plots: &mut [u32])
    requires { today.gross.0 ≤ most_gross }
    ensures { plots.new ≡ made_over (6 * min (length plots.old / 6) (4 * entries covers.now))
        (plot_number (today_as today) covers.now) plots.old }
{
    let slots = 4 * (covers.len() / ENTRY_NUMBERS);
    let room = plots.len() / PLOT_NUMBERS;
    for slot in 0..room.min(slots) {
        let cover = slot_day(today, covers, slot);
        let at = PLOT_NUMBERS * slot;
        plots[at + INTERCEPTED] = cover.intercepted;
        plots[at + RAIN] = cover.rain;
        plots[at + SNOWFALL] = cover.snowfall;
        plots[at + CURVE_NUMBER] = cover.curve_number;
        plots[at + ROOT_DEPTH] = cover.root_depth;
        plots[at + LARGEST_RECHARGE] = cover.largest_recharge;
    }
}

// Fills the array by slot, so that the pass over the cells reads it and works nothing out again. On a day with more gross precipitation than any
// day has, it is left as lent.
pub fn lay_plots(today: Today, covers: &[u32], plots: &mut [u32; PLOT_ROOM])
    ensures { plots.new ≡ plots_of (today_as today) covers.now plots.old }
{
    if today.gross.0 <= Depth::MOST_GROSS.0 {
        lay(today, covers, plots);
    }
}
