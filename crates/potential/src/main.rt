// The program `potential`: standard input's readings, a line a day, their answers by `station::potential_text`, and those to standard output. Where the input
// can't be read nothing is printed; a failed read or write is said on standard error.
#![tactic(auto)]

use intake::{Failure, filled};
use station::MOST_ANSWERS;
use std::io::Input;

fn run(rt: &(impl Input + Print)) -> Result<(), Failure<'static>> {
    let mut input = intake::input_room();
    let count = intake::read_input(rt, b"potential: standard input", &mut input)?;
    let mut output = filled::<u8, MOST_ANSWERS>(0);
    let end = station::potential_text(&input[..count], &mut output);
    intake::print(rt, b"potential: standard output", &output[..end])
}

fn main(rt: HostRuntime) {
    intake::say(&rt, run(&rt));
}
