// A whole period for C, over plain numbers. It is a library of its own, beside clib, whose structs and numbers it shares: clib is dear to check. cperiod_c
// exports it to C.
#![tactic(auto)]

mod period;

pub use period::recharge_period;
