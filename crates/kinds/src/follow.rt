// What reading a value of any kind shares.
ghost use Rattle.std.specs.Prelude.{◌≡◌};
ghost use Rattle.wire.specs.Words.{inside as inside_bytes};
ghost use Rattle.wire.specs.Plain.{bytes_at};

use wire::range::inside;

// Whether `size` bytes at `loc` lie inside the input.
pub fn contains(buf: &[u8], loc: usize, size: usize) -> bool
    ensures { result ≡ inside_bytes buf.now loc size }
{
    inside(loc, size, buf.len())
}

// The N bytes at `loc`; nothing where they leave the input.
pub fn array_at<const N: usize>(buf: &[u8], loc: usize) -> Option<[u8; N]>
    ensures { result ≡ bytes_at buf.now loc N }
{
    buf.get(loc..)?.first_chunk().copied()
}
