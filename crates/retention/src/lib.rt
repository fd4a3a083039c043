// Rule 8's table, of which each sixteenth entry is a constant: what share of its water a soil keeps.
#![tactic(auto)]

mod knots;

pub use knots::{KNOTS, LAST_KNOT, WHOLE, retained, retention};
