// What pushing a value of any kind shares.
ghost use Rattle.std.specs.Prelude.{◌≡◌, drop};
ghost use Rattle.wire.specs.Bytes.{filled};

// Copies `src` from `from` on over the beginning of `dst`, as far as both go.
pub fn copy_part(src: &[u8], from: usize, dst: &mut [u8])
    ensures { dst.new ≡ filled dst.old (drop from src.now) }
{
    let rest = src.get(from..).unwrap_or(&[]);
    let count = rest.len().min(dst.len());
    dst[..count].copy_from_slice(&rest[..count]);
}
