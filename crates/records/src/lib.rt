// What the office hands over and what comes back: quantities, records and their limits, and verdicts. Every function here answers every input.
#![tactic(auto)]

mod answers;
mod days;
mod frost;
mod grids;
mod lent;
mod past;
mod quantities;
mod setups;
mod verdicts;

pub use answers::Totals;
pub use days::DayRecord;
pub use frost::frost_after;
pub use grids::{Climate, Grid, MOST_CELLS, Season, Setpoints};
pub use lent::{depth, index_of, one_each, wide};
pub use past::{Memory, Past};
pub use quantities::{CurveNumber, Depth, FrostIndex, TenthF};
pub use setups::Setup;
pub use verdicts::Refusal;
