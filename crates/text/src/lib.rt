// The program's text as one function of the input, and its parts for other programs over the same text.
#![tactic(auto)]

mod days;
mod fields;
mod program;
mod screening;
mod starting;
mod taking;

pub use fields::{
    FRONT_NUMBERS, climate_in, covers_in, day_in, directions_in, grid_in, groups_in, number_at,
    waters_in,
};
pub use program::{MOST_TEXT, balance_text};
pub use screening::BadText;
pub use taking::{Layout, take_up};
