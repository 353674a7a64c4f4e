// Worked examples of the builder's calls.
#![tactic(auto)]

ghost use Rattle.std.specs.Prelude.{◌≡◌, true};
ghost use Rattle.examples.specs.Examples.{Buffers, Fields, Strings, Told};

// The examples hold: they are computed from the model's definitions.
pub fn examples_hold() -> bool
    ensures buffers { Buffers }
    ensures fields { Fields }
    ensures strings { Strings }
    ensures told { Told }
    ensures answer { result ≡ true }
{
    true
}
