// Padding.
ghost use Rattle.std.specs.Prelude.{◌≡◌};
ghost use Rattle.wire.specs.Layouts.{padding};

// The fewest bytes after which `n` is a multiple of the alignment; none where the alignment is 0.
pub fn padding_bytes(n: usize, alignment: usize) -> usize
    ensures { result ≡ padding n alignment }
{
    if alignment == 0 {
        return 0;
    }
    (alignment - n % alignment) % alignment
}
