// The format's own terms: bytes, words, padding, layouts, text, and the answers that a call can give.
#![tactic(auto)]

pub mod examples;
pub mod padding;
pub mod range;
pub mod refusal;
pub mod slot;
pub mod utf8;
pub mod words;
