// Worked examples of the definitions that contracts cite.
ghost use Rattle.std.specs.Prelude.{◌≡◌, true};
ghost use Rattle.wire.specs.Examples.{Layouts, ListsOfBytes, Text, Words};

// The examples hold: they are computed from the definitions.
pub fn examples_hold() -> bool
    ensures lists { ListsOfBytes }
    ensures words { Words }
    ensures layouts { Layouts }
    ensures text { Text }
    ensures answer { result ≡ true }
{
    true
}
