// Ranges of bytes.
ghost use Rattle.std.specs.Prelude.{◌≡◌, ◌+◌, nat_le};

// Whether `count` bytes from `start` on lie inside `len` bytes.
pub fn inside(start: usize, count: usize, len: usize) -> bool
    ensures { result ≡ nat_le (start + count) len }
{
    start <= len && count <= len - start
}
