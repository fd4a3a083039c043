// The cover table: its test, its index by code, and what it says of a slot, which is one cover with one soil group.
#![tactic(auto)]

mod grounds;
mod plots;
mod slots;
mod table;

pub use grounds::{Plot, capacity, plot_at};
pub use plots::{PLOT_NUMBERS, PLOT_ROOM, SNOWFALL, lay_plots};
pub use slots::{MOST_SLOTS, is_open, root_depths, small_index};
pub use table::{
    CODES, ENTRY_NUMBERS, LARGEST_RECHARGES, MOST_ENTRIES, OPEN_FLAG, ROOT_DEPTHS, read_covers,
};
