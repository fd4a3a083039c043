// A day explained (M-105): why a cell got its figures, and the figures, as two lines in inches.
#![tactic(auto)]

mod day_lines;
mod explaining;
mod saying;

pub use day_lines::MOST_LINES;
pub use explaining::explain_day;
