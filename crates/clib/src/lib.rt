// The library for C: the library's calls, the estimates from radiation and the program's text over plain numbers. What is small goes by value as a struct,
// a slice is a pointer and a length, and what has a fixed length is a pointer. include/recharge.h says them to C.
#![tactic(auto)]

mod calls;
mod estimates;
mod given;
mod maps;
mod numbers;
mod state;
mod texts;
mod whys;

pub use calls::{recharge_check, recharge_day, recharge_fresh};
pub use estimates::{recharge_jensen_haise, recharge_turc};
pub use given::{DayNumbers, Site, setup_given};
pub use maps::{recharge_grid_inches, recharge_grid_read, recharge_grid_write};
pub use numbers::returned_as;
pub use texts::recharge_text;
pub use whys::recharge_why;
