// Numbers read out of a text, and the three kinds of line written into a buffer.
#![tactic(auto)]

mod reading;
mod telling;
mod writing;

pub use reading::{BAD_TEXT, BadForm, MOST_BYTES, MOST_NUMBERS, NEGATIVES, NO_NUMBER, read};
pub use telling::tell;
pub use writing::{ended, line, refusal, refused, units};
