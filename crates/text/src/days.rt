// A run's days, each from its numbers to its line.
ghost use Rattle.std.specs.Prelude.{length};
ghost use Rattle.theory.specs.Lists.{made};
ghost use Rattle.paper.specs.Day.{no_results};
ghost use Rattle.records.specs.Grids.{setup_of};
ghost use Rattle.records.specs.Past.{state_as};
ghost use Rattle.text.specs.Program.{day_count, day_at, days_text};
ghost use Rattle.text.specs.Run.{DaysReady, most_text};
ghost use Rattle.words.specs.Writing.{Wrote};

use crate::fields::day_in;
use crate::taking::Layout;
use lines::{ended, tell};
use records::{MOST_CELLS, Past, Setup};
use std::ops::ControlFlow;

// The days from a state on, up to the first that is refused, and the last line. The results of every cell are not printed: their arrays are made
// once for all days, and a day finds in them what the day before left.
pub(crate) fn days(
    numbers: &[u32],
    layout: Layout,
    setup: &Setup<'_>,
    soil: &mut [u32],
    snow: &mut [u32],
    past: Past,
    output: &mut [u8],
) -> usize
    requires { DaysReady numbers.now layout setup.now.direction.now }
    ensures { Wrote most_text 0 (days_text (setup_of setup.now) (state_as soil.old snow.old past) (no_results (length setup.now.direction.now)) 0 (made (day_count numbers.now) (day_at numbers.now))) output.old output.new result }
{
    let n = setup.direction.len();
    let from = layout.days_from;
    let count = layout.days;
    let mut intercepted = [0u32; MOST_CELLS];
    let mut outflow = [0u32; MOST_CELLS];
    let mut evapotranspired = [0u32; MOST_CELLS];
    let mut recharged = [0u32; MOST_CELLS];
    let mut rejected = [0u32; MOST_CELLS];
    let mut past = past;
    let mut at = 0;
    let mut done: u64 = 0;
    for k in 0..count {
        let day = day_in(numbers, from, k);
        let answer = recharge::day(
            setup,
            soil,
            snow,
            &mut intercepted[..n],
            &mut outflow[..n],
            &mut evapotranspired[..n],
            &mut recharged[..n],
            &mut rejected[..n],
            &mut past,
            day,
        );
        match tell(output, at, day.serial, answer) {
            ControlFlow::Continue(next) => at = next,
            ControlFlow::Break(next) => return next,
        }
        done += 1;
    }
    ended(output, at, done)
}
