// The builder's calls as the format describes them: specs/ says what each refuses, answers, writes and leaves.
#![tactic(auto)]

pub mod field_loc;
