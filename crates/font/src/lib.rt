// The structs of a font pack.
#![tactic(auto)]

pub mod anchor;
pub mod examples;
pub mod kern;
