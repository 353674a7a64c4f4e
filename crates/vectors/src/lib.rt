// Values of any kind in a space, one by one, in vectors and in strings.
#![tactic(auto)]

pub mod room;
pub mod string;
pub mod value;
pub mod vector;
