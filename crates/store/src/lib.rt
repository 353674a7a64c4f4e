// Byte stores that grow downwards.
#![tactic(auto)]

pub mod allocator;
pub mod doubling;
pub mod quota;
pub mod still;
