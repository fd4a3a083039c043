// The totals of a day, added up cell by cell.
ghost use Rattle.std.specs.Prelude.{◌≡◌, ◌+◌, ◌≤◌};
ghost use Rattle.paper.specs.Limits.{most_gross};
ghost use Rattle.records.specs.Answers.{totals_as};
ghost use Rattle.recharge.specs.CellDay.{figures_as};
ghost use Rattle.recharge.specs.Totals.{with_cell, Room, roomy};

use crate::cell_day::Figures;
use records::{Depth, Totals};

fn more(total: Depth, figure: u32) -> Depth
    requires { total.0 ≤ roomy }
    ensures { result.0 ≡ total.0 + figure }
{
    Depth(total.0 + figure as u64)
}

pub(crate) fn add_cell(totals: Totals, gross: Depth, day: Figures, left: u32, gone: u32) -> Totals
    requires { Room (totals_as totals) × (gross.0 ≤ most_gross) }
    ensures { totals_as result ≡ with_cell (totals_as totals) gross.0 (figures_as day) left gone }
{
    let stored = totals.stored.0 + (day.soil as u64 + day.snow as u64);
    Totals {
        gross: Depth(totals.gross.0 + gross.0),
        intercepted: more(totals.intercepted, day.intercepted),
        evapotranspired: more(totals.evapotranspired, day.evapotranspired),
        recharged: more(totals.recharged, day.recharged),
        rejected: more(totals.rejected, left),
        gone: more(totals.gone, gone),
        stored: Depth(stored),
    }
}
