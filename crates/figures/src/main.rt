// The library beside outside tables: prints what it answers for the figures that documents 000, 002, 003 and 004 print or fit, for the melt by the maximum
// and for a winter's frost. bench/outside.sh sets these lines beside theirs in docs/VECTORS.md. Every figure is read
// off days of one cell that drains over the edge, since the rules are private.
#![tactic(auto)]

mod curve_numbers;
mod frost;
mod one_cell;
mod refusals;
mod retaining;
mod winter;

use curve_numbers::curve_numbers;
use frost::frost_days;
use records::Refusal;
use refusals::refusals;
use retaining::{capacity, retention};
use winter::{melts, winter_days};

fn run(rt: &impl Print) -> Result<(), Refusal> {
    curve_numbers(rt)?;
    retention(rt)?;
    capacity(rt, 200, 250);
    winter_days(rt)?;
    melts(rt)?;
    frost_days(rt)
}

fn main(rt: HostRuntime) {
    if let Err(why) = run(&rt) {
        let _ = println!(rt; "a day is refused: {} at {}", why.number(), why.place());
    }
    refusals(&rt);
}
