// The map of a period's recharge, as a picture for a screen and for paper (SVG): what it looks like is only run and compared, not proved.
#![tactic(auto)]

mod cells;
mod classes;
mod directions;
mod drawing;
mod edges;
mod frame;
mod head;
mod legend;
mod marks;
mod parts;
mod squares;

pub use drawing::put_map;
