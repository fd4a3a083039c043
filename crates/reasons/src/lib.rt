// Why a cell got its figures on a day (M-105): the first true reason of seven and two depths, read back from the figures that the library's day promises.
#![tactic(auto)]

mod asking;
mod grounds;
mod reading;
mod whys;

pub use asking::{asked, why};
pub use whys::{Reason, Why};
