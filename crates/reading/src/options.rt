// What a verifier stops at, and what it has met.

// The limits of a verifier, and its switch. Equality with a limit passes.
#[derive(Clone, Copy, Debug, PartialEq, Eq)]
pub struct VerifierOptions {
    // How deep tables may nest.
    pub max_depth: usize,
    // How many tables there may be.
    pub max_tables: usize,
    // How large the ranges read may be, summed over each time they are read.
    pub max_apparent_size: usize,
    // Whether a string may lack its zero byte.
    pub ignore_missing_null_terminator: bool,
}

// What a verifier has met so far.
#[derive(Clone, Copy, Debug, Default, PartialEq, Eq)]
pub struct Counters {
    pub depth: usize,
    pub num_tables: usize,
    pub apparent_size: usize,
}
