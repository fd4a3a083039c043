// A period's weather read out of a text into a list of numbers, seven for each day, and the lines that `balance` prints for its days.
#![tactic(auto)]

mod reading;
mod writing;

pub use reading::{WeatherError, read_days};
pub use writing::day_lines;
