// Builds FlatBuffers in the space of any store.
#![tactic(auto)]

pub mod builder;
pub mod data;
pub mod finishing;
pub mod inner;
pub mod push;
pub mod required;
pub mod shared;
pub mod start;
pub mod string;
pub mod table;
pub mod vector;
