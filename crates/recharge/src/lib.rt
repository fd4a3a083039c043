// The library: the office's three calls, and its rules as code. Each rule is one function, and its contract is one definition of the crate `paper`.
#![tactic(auto)]

mod calls;
mod cell_day;
mod downhill;
mod loss;
mod periods;
mod runoff;
mod soil;
mod surveyed;
mod totals;
mod ways;

pub use calls::day;
pub use periods::{Ended, period};
pub use records::{
    Climate, CurveNumber, DayRecord, Depth, FrostIndex, Grid, Memory, Past, Refusal, Season,
    Setpoints, Setup, TenthF, Totals,
};
pub use stores::fresh;
pub use survey::check;
