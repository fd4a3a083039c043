// An accepted day over all cells, in one pass downhill: the cell whose turn it is takes up what has arrived, its figures are written and added to
// the totals, and what flows out of it, rejected recharge included, is handed on before the next cell's turn comes.
ghost use Rattle.std.specs.Prelude.{◌≡◌};
ghost use Rattle.weather.specs.Today.{today_as};
ghost use Rattle.recharge.specs.CellDay.{figures_as};
ghost use Rattle.recharge.specs.Downhill.{slices_of, LentAt, day_at, Ready, Ran};

use crate::cell_day::{Figures, cell_day};
use crate::totals::add_cell;
use crate::ways::{Way, gone_from, hand_on, left_in};
use covers::{PLOT_ROOM, plot_at};
use records::{MOST_CELLS, Totals, depth, index_of};
use retention::{KNOTS, retention};
use weather::Today;

// The figures of one cell, by all that is lent, which is only read here.
fn day_at(
    f: &[u32; KNOTS],
    today: Today,
    plots: &[u32; PLOT_ROOM],
    slots: &[u8; MOST_CELLS],
    available: &[u32],
    soil: &[u32],
    snow: &[u32],
    arrived: &[u32; MOST_CELLS],
    way: Way,
    cell: usize,
) -> Figures
    requires { LentAt (today_as today) f.now plots.now slots.now available.now soil.now snow.now arrived.now cell }
    ensures { figures_as result ≡ day_at (today_as today) plots.now slots.now available.now soil.now snow.now
        arrived.now way.0 cell }
{
    let plot = plot_at(plots, slots[cell], available[cell]);
    cell_day(
        f,
        today,
        plot,
        way,
        depth(soil[cell]),
        depth(snow[cell]),
        depth(arrived[cell]),
    )
}

// No sum overflows: all the water there is fits in one cell.
pub(crate) fn downhill(
    today: Today,
    plots: &[u32; PLOT_ROOM],
    slots: &[u8; MOST_CELLS],
    ways: &[u32; MOST_CELLS],
    order: &[u32; MOST_CELLS],
    available: &[u32],
    soil: &mut [u32],
    snow: &mut [u32],
    intercepted: &mut [u32],
    outflow: &mut [u32],
    evapotranspired: &mut [u32],
    recharged: &mut [u32],
    rejected: &mut [u32],
) -> Totals
    requires { Ready (today_as today) plots.now slots.now ways.now order.now available.now
        (slices_of soil.old snow.old intercepted.old outflow.old evapotranspired.old recharged.old rejected.old) }
    ensures { Ran (today_as today) plots.now slots.now ways.now available.now soil.old snow.old result
        (slices_of soil.new snow.new intercepted.new outflow.new evapotranspired.new
        recharged.new rejected.new) }
{
    let n = available.len();
    let gross = today.gross;
    let mut f = [0u32; KNOTS];
    retention(&mut f);
    let mut arrived = [0u32; MOST_CELLS];
    let mut totals = Totals::none();
    for turn in 0..n {
        let cell = index_of(order[turn]);
        let way = Way(ways[cell]);
        let day = day_at(
            &f, today, plots, slots, available, soil, snow, &arrived, way, cell,
        );
        let handed = day.outflow;
        hand_on(n, way, handed, &mut arrived);
        totals = add_cell(
            totals,
            gross,
            day,
            left_in(way, day.rejected),
            gone_from(way, handed),
        );
        soil[cell] = day.soil;
        snow[cell] = day.snow;
        intercepted[cell] = day.intercepted;
        outflow[cell] = day.outflow;
        evapotranspired[cell] = day.evapotranspired;
        recharged[cell] = day.recharged;
        rejected[cell] = day.rejected;
    }
    totals
}
