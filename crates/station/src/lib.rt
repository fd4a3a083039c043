// A station's readings (M-103): a line a day, and what is answered to each, as one function from bytes to bytes.
#![tactic(auto)]

mod answers;
mod readings;

pub use answers::{MOST_ANSWERS, potential_text};
