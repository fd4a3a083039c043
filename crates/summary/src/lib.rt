// A period's sheet for a person, as a text: what it looks like is only run and compared, not proved. Each subject has a module.
//
// Every function answers every input: what a lent slice does not have reads as 0, and a sum stops at the largest number. Within document 01's limits no sum comes
// near it: 20,000 days of 40 inches on 4,096 cells are below 2^45 units.
#![tactic(auto)]

mod best;
mod daily;
mod figure;
mod ground;
mod land;
mod look;
mod monthly;
mod summary;
mod totals;
mod warning_lines;
mod warnings;

pub use summary::put_sheet;
