// The stores of a state: a fresh state, test 9 on soil, snow and what else a state has, and test 10 on the day's snowfall. Each answers every input.
#![tactic(auto)]

mod fresh_states;
mod snowfall;
mod states;

pub use fresh_states::fresh;
pub use snowfall::snow_verdict;
pub use states::state_verdict;
