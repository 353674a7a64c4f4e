// Reading views over any bytes: none reaches outside them.
#![tactic(auto)]

pub mod follow;
pub mod key;
pub mod primitives;
pub mod table;
pub mod text;
pub mod vector;
pub mod vtable;
