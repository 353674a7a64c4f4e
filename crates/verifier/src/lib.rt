// Says whether bytes hold what a reader expects, or the first fault and where it lies.
#![tactic(auto)]

pub mod table;
pub mod verifiable;
pub mod verifier;
