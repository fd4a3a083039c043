// The run: from a text taken up to the lines of its days.
ghost use Rattle.std.specs.Prelude.{◌≤◌, length};
ghost use Rattle.text.specs.Run.{Complete};
ghost use Rattle.explained.specs.Telling.{Inside};

use crate::arguments::Question;
use crate::printing::{print, print_end, print_refusal, print_refused};
use crate::wrong::Wrong;
use explained::{MOST_LINES, explain_day};
use intake::{Failure, say};
use lines::MOST_NUMBERS;
use records::{DayRecord, MOST_CELLS, Past, Refusal, Setup};
use std::ops::ControlFlow;
use text::{
    BadText, FRONT_NUMBERS, Layout, climate_in, covers_in, day_in, directions_in, grid_in,
    groups_in, take_up, waters_in,
};

// The text's numbers, and where its days stand among them.
#[derive(Clone, Copy)]
struct Days<'a> {
    numbers: &'a [u32],
    from: usize,
    count: usize,
}

// What the day tells lies within its buffer. The stores stand apart here and below: in a struct, tried, their being lent together has no proof.
fn explain(
    setup: &Setup<'_>,
    soil: &mut [u32],
    snow: &mut [u32],
    past: &mut Past,
    day: DayRecord,
    cell: usize,
    lines: &mut [u8; MOST_LINES],
) -> ControlFlow<usize, usize>
    ensures { Inside result (length lines.new) }
{
    explain_day(setup, soil, snow, past, day, cell, lines)
}

// Prints the last line, and sees that the day asked about was there. A failed write is said before that.
fn finish(rt: &(impl Print + Eprint), shown: u64, question: Question) -> Result<(), Wrong> {
    let printed = print_end(rt, shown);
    match question.serial {
        Some(serial) if shown == 0 => {
            say(rt, printed);
            Err(Wrong::NoDay(serial))
        }
        _ => Ok(printed?),
    }
}

// Prints the lines of the days asked about, each as soon as it is worked out, and the last line. A refused day, and the one day asked about, end the run.
fn tell_days(
    rt: &(impl Print + Eprint),
    setup: &Setup<'_>,
    days: Days<'_>,
    soil: &mut [u32],
    snow: &mut [u32],
    start: Past,
    question: Question,
) -> Result<(), Wrong> {
    let mut lines = [0u8; MOST_LINES];
    let mut past = start;
    let mut shown = 0;
    for k in 0..days.count {
        let day = day_in(days.numbers, days.from, k);
        match explain(setup, soil, snow, &mut past, day, question.cell, &mut lines) {
            ControlFlow::Break(end) => return Ok(print(rt, &lines[..end])?),
            ControlFlow::Continue(end) => {
                if question.is_about(day.serial) {
                    print(rt, &lines[..end])?;
                    shown += 1;
                    if question.serial.is_some() {
                        break;
                    }
                }
            }
        }
    }
    finish(rt, shown, question)
}

// The fresh state, tested with the cell asked about.
fn fresh(
    setup: &Setup<'_>,
    cell: usize,
    soil: &mut [u32],
    snow: &mut [u32],
) -> Result<Past, Refusal> {
    let fresh = recharge::fresh(setup, soil, snow);
    reasons::asked(fresh.map(|_| ()), setup.grid, cell)?;
    fresh
}

// It, and the days from it on.
fn begun(
    rt: &(impl Print + Eprint),
    setup: &Setup<'_>,
    days: Days<'_>,
    soil: &mut [u32],
    snow: &mut [u32],
    question: Question,
) -> Result<(), Wrong> {
    match fresh(setup, question.cell, soil, snow) {
        Err(why) => Ok(print_refusal(rt, why)?),
        Ok(past) => tell_days(rt, setup, days, soil, snow, past, question),
    }
}

// No more than the arrays hold.
fn cells_in(numbers: &[u32], layout: Layout) -> usize
    requires { Complete numbers.now layout }
    ensures { result ≤ 4096 }
{
    layout.cells
}

// Numbers that are ready for the run.
fn started(
    rt: &(impl Print + Eprint),
    numbers: &[u32],
    layout: Layout,
    question: Question,
) -> Result<(), Wrong>
    requires { Complete numbers.now layout }
{
    let cells = cells_in(numbers, layout);
    let direction = directions_in(numbers);
    let cover = covers_in(numbers);
    let group = groups_in(numbers);
    let water = waters_in(numbers);
    let setup = Setup {
        grid: grid_in(numbers),
        climate: climate_in(numbers),
        covers: &numbers[FRONT_NUMBERS..layout.cells_from],
        direction: &direction[..cells],
        cover: &cover[..cells],
        group: &group[..cells],
        available: &water[..cells],
    };
    let days = Days {
        numbers,
        from: layout.days_from,
        count: layout.days,
    };
    let mut soil = [0u32; MOST_CELLS];
    let mut snow = [0u32; MOST_CELLS];
    begun(
        rt,
        &setup,
        days,
        &mut soil[..cells],
        &mut snow[..cells],
        question,
    )
}

// A text from its first byte on.
pub(crate) fn run(
    rt: &(impl Print + Eprint),
    input: &[u8],
    question: Question,
) -> Result<(), Wrong> {
    let mut numbers = [0u32; MOST_NUMBERS];
    match take_up(input, &mut numbers) {
        Err(BadText { number, place }) => Ok(print_refused(rt, number, place)?),
        Ok(layout) => started(rt, &numbers[..layout.numbers], layout, question),
    }
}
