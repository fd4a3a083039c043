// One day: why the cell got its figures, by the state before it, and the figures that the day left.
ghost use Rattle.std.specs.Prelude.{◌≡◌};
ghost use Rattle.records.specs.Grids.{setup_of};
ghost use Rattle.records.specs.Past.{state_as};
ghost use Rattle.records.specs.Days.{day_as};
ghost use Rattle.explained.specs.Telling.{figures_as, figures_by, DayTold};

use crate::day_lines::{Figures, figures_line, tell_reason};
use records::{DayRecord, MOST_CELLS, Past, Setup, wide};
use std::ops::ControlFlow;
use text::number_at;

// What a day left of a cell.
#[tactic(auto, unfolding(crate::specs::Telling::figures_by))]
fn figures_at(
    intercepted: &[u32; MOST_CELLS],
    outflow: &[u32; MOST_CELLS],
    evapotranspired: &[u32; MOST_CELLS],
    recharged: &[u32; MOST_CELLS],
    rejected: &[u32; MOST_CELLS],
    soil: &[u32],
    snow: &[u32],
    cell: usize,
) -> Figures
    ensures { figures_as result ≡ figures_by intercepted.now outflow.now evapotranspired.now recharged.now
        rejected.now soil.now snow.now cell }
{
    Figures {
        intercepted: wide(number_at(intercepted, cell)),
        outflow: wide(number_at(outflow, cell)),
        evapotranspired: wide(number_at(evapotranspired, cell)),
        recharged: wide(number_at(recharged, cell)),
        rejected: wide(number_at(rejected, cell)),
        soil: wide(number_at(soil, cell)),
        snow: wide(number_at(snow, cell)),
    }
}

// Writes the day's two lines from the buffer's front on, as many bytes as fit, and takes the stores and the past to its end; of a day that is refused, its
// refusal, and nothing else changes.
pub fn explain_day(
    setup: &Setup<'_>,
    soil: &mut [u32],
    snow: &mut [u32],
    past: &mut Past,
    day: DayRecord,
    cell: usize,
    buffer: &mut [u8],
) -> ControlFlow<usize, usize>
    ensures { DayTold
        (setup_of setup.now)
        (state_as soil.old snow.old past.old) (day_as day) cell
        (state_as soil.new snow.new past.new) buffer.old buffer.new result }
{
    let why = reasons::why(setup, soil, snow, *past, day, cell);
    let next = tell_reason(buffer, day.serial, why)?;
    let n = setup.direction.len();
    let mut intercepted = [0u32; MOST_CELLS];
    let mut outflow = [0u32; MOST_CELLS];
    let mut evapotranspired = [0u32; MOST_CELLS];
    let mut recharged = [0u32; MOST_CELLS];
    let mut rejected = [0u32; MOST_CELLS];
    // The day passes its tests, since there is a reason: its totals are not printed.
    let _ = recharge::day(
        setup,
        soil,
        snow,
        &mut intercepted[..n],
        &mut outflow[..n],
        &mut evapotranspired[..n],
        &mut recharged[..n],
        &mut rejected[..n],
        past,
        day,
    );
    let figures = figures_at(
        &intercepted,
        &outflow,
        &evapotranspired,
        &recharged,
        &rejected,
        soil,
        snow,
        cell,
    );
    ControlFlow::Continue(figures_line(buffer, next, figures))
}
