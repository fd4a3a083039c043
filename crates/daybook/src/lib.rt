// Days and their totals as lists of numbers, seven for each day, as a caller of many days has them.
#![tactic(auto)]

mod days;
mod totals;

pub use days::{DAY_NUMBERS, day_at};
pub use totals::{put_totals, totals_at};
