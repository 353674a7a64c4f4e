// What a builder keeps of its tables: the values of the open one, the vtables and strings written so far; and how a table ends.
#![tactic(auto)]

pub mod end_table;
pub mod field_locs;
pub mod offsets;
mod vtable_writer;
