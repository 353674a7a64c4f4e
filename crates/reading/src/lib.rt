// What reading any bytes means: the limits, the faults, and one definition of every walk.
#![tactic(auto)]

pub mod invalid;
pub mod laws;
pub mod options;
