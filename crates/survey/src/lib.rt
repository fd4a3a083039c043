// The setup: tests 1 to 6, and for every cell its slot in the cover table, where it points, and its turn upslope first.
#![tactic(auto)]

mod cells;
mod charts;
mod order;
mod ways;

pub use charts::{check, survey};
pub use ways::{CLOSED, OPEN_WATER, OVER_THE_EDGE};
