// A day's line, or its refusal.
ghost use Rattle.records.specs.Answers.{answered, totals_told};
ghost use Rattle.lines.specs.Telling.{Tells};

use crate::writing::{line, refusal};
use records::{Refusal, Totals};
use std::ops::ControlFlow;

// The place after what a day printed: the run goes on, or breaks off there.
pub fn tell(
    output: &mut [u8],
    at: usize,
    serial: u32,
    answer: Result<Totals, Refusal>,
) -> ControlFlow<usize, usize>
    ensures { Tells at serial (totals_told answer) (answered answer) output.old output.new result }
{
    match answer {
        Ok(totals) => ControlFlow::Continue(line(output, at, serial, totals)),
        Err(why) => ControlFlow::Break(refusal(output, at, why)),
    }
}
