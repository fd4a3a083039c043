// The program `balance`: standard input's bytes, their text by `text::balance_text`, and the text to standard output. Where the input can't be read
// nothing is printed, so that no `end` line stands for half an input; a failed read or write is said on standard error.
#![tactic(auto)]

use intake::{Failure, filled};
use std::io::Input;
use text::MOST_TEXT;

fn run(rt: &(impl Input + Print)) -> Result<(), Failure<'static>> {
    let mut input = intake::input_room();
    let count = intake::read_input(rt, b"balance: standard input", &mut input)?;
    let mut output = filled::<u8, MOST_TEXT>(0);
    match text::balance_text(&input[..count], &mut output) {
        Some(end) => intake::print(rt, b"balance: standard output", &output[..end]),
        None => Ok(()),
    }
}

fn main(rt: HostRuntime) {
    intake::say(&rt, run(&rt));
}
