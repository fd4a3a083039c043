// Potential evapotranspiration from a day's radiation (M-103), by Turc or by Jensen and Haise, in f64.
#![tactic(auto)]

mod answers;
mod estimates;
mod limits;
mod weather;

pub use answers::BadReadings;
pub use estimates::potential;
pub use weather::{Estimate, Weather};
