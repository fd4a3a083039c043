// The answers to a text of readings, written into a lent buffer.
ghost use Rattle.std.specs.Prelude.{◌≤◌, length};
ghost use Rattle.words.specs.Words.{lines_of};
ghost use Rattle.words.specs.Writing.{Put, Wrote};
ghost use Rattle.lines.specs.Reading.{most_bytes};
ghost use Rattle.radiation.specs.Estimates.{potential_as};
ghost use Rattle.station.specs.Readings.{line_as};
ghost use Rattle.station.specs.Answers.{estimate_line, answer_to, answers, answered, most_answers};

use crate::readings::read_line;
use lines::{BAD_TEXT, MOST_BYTES, MOST_NUMBERS, refused};
use radiation::{BadReadings, Weather};
use records::{Depth, wide};
use words::{line_end, put_item};

// Room for the answers to any text: specs/Answers.antt says how it is made up.
pub const MOST_ANSWERS: usize = 1310720;

// The estimate, or its refusal at the line.
fn tell(buffer: &mut [u8], at: usize, line: u64, potential: Result<Depth, BadReadings>) -> usize
    ensures { Put at (estimate_line line (potential_as potential)) buffer.old buffer.new result }
{
    match potential {
        Ok(depth) => put_item(buffer, at, depth.0, b'\n'),
        Err(why) => refused(buffer, at, wide(why.number()), line),
    }
}

fn answer(buffer: &mut [u8], at: usize, number: u64, line: Option<Weather>) -> usize
    ensures { Put at (answer_to number (line_as line)) buffer.old buffer.new result }
{
    match line {
        Some(weather) => tell(buffer, at, number, radiation::potential(weather)),
        None => refused(buffer, at, BAD_TEXT, number),
    }
}

// Line after line, each answered after those before it.
fn answer_lines(input: &[u8], output: &mut [u8]) -> usize
    requires { length input.now ≤ most_bytes }
    ensures { Wrote most_answers 0 (answers 1 (lines_of input.now)) output.old output.new result }
{
    let mut numbers = [0u32; MOST_NUMBERS];
    let mut at = 0;
    let mut number: u64 = 1;
    let mut from = 0;
    while from < input.len() {
        let end = line_end(input, from);
        let line = read_line(&input[from..end], &mut numbers);
        at = answer(output, at, number, line);
        number += 1;
        from = end + 1;
    }
    at
}

// What the program `potential` prints for a text of readings, written from the front of a lent buffer as far as that goes; and the count of its bytes.
pub fn potential_text(input: &[u8], output: &mut [u8]) -> usize
    ensures { Wrote most_answers 0 (answered input.now) output.old output.new result }
{
    if MOST_BYTES < input.len() {
        return refused(output, 0, BAD_TEXT, 0);
    }
    answer_lines(input, output)
}
