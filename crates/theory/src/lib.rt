// No code: specs/ has the mathematics that the office's paper is written in (lists made by index, sums, the lowest place that
// fails, grids in which each cell has one way out), and proofs/ has its laws. There is no hydrology here.
#![tactic(auto)]
