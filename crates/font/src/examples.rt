// Worked examples of the structs.
ghost use Rattle.std.specs.Prelude.{◌≡◌, true};
ghost use Rattle.font.specs.Examples.{StructsOfFonts};

// The examples hold: they are computed from the definitions.
pub fn examples_hold() -> bool
    ensures structs { StructsOfFonts }
    ensures answer { result ≡ true }
{
    true
}
