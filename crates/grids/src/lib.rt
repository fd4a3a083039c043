// Whole-number Arc ASCII grids (M-101), read out of lent bytes and written into them; and depths in inches, written as such a grid.
#![tactic(auto)]

mod cells;
mod headers;
mod judging;
mod measures;
mod names;
mod reading;
mod wholes;
mod writing;

pub use cells::put_cell;
pub use headers::Header;
pub use judging::BadGrid;
pub use measures::{MOST_CHARACTERS, Measure};
pub use names::size_at;
pub use reading::read_grid;
pub use writing::{write_grid, write_inches};
