// The program `why`: why a cell got its figures on the days of a text of `balance`, or on one of them. Where the input can't be read nothing is printed; a
// failed read or write, and an argument that is wrong, is said on standard error.
#![tactic(auto)]

mod arguments;
mod printing;
mod run;
mod wrong;

use arguments::Question;
use run::run;
use std::io::Input;
use std::rt::Env;
use wrong::Wrong;

fn answer(rt: &(impl Env + Input + Print + Eprint)) -> Result<(), Wrong> {
    let question = Question::asked(rt)?;
    let mut input = intake::input_room();
    let count = intake::read_input(rt, b"why: standard input", &mut input)?;
    run(rt, &input[..count], question)
}

fn main(rt: HostRuntime) {
    intake::say(&rt, answer(&rt));
}
