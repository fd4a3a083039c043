// Whether a day is admitted: the tests that a day adds to those of its setup, and what the day's rules then read. It answers every input.
#![tactic(auto)]

mod tests;

pub use tests::{Lengths, day_verdict, lent_verdict};
