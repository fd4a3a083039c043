// What the rules read of a day: snow or rain, melt, and the antecedent condition with its curve numbers. Every function here answers every input.
#![tactic(auto)]

mod conditions;
mod snow;
mod today;

pub use conditions::{Condition, curve_number};
pub use snow::melt;
pub use today::{Today, today_of};
