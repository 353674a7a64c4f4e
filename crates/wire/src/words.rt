// Little-endian words of any bytes; those beyond the end read as 0.
ghost use Rattle.std.specs.Prelude.{◌≡◌, ℕ, ◌+◌, ◌<◌, slice_index};
ghost use Rattle.wire.specs.Places.{led};
ghost use Rattle.wire.specs.Words.{word};

pub fn byte_at(buf: &[u8], at: usize) -> u8
    ensures { result ≡ slice_index buf.now at }
{
    buf.get(at).copied().unwrap_or(0)
}

// The `N` bytes from `at` on.
fn bytes_at<const N: usize>(buf: &[u8], at: usize) -> [u8; N]
    ensures { (i : ℕ) → i < N → slice_index result i ≡ slice_index buf.now (at + i) }
{
    let rest = buf.get(at..).unwrap_or(&[]);
    match rest.first_chunk() {
        Some(bytes) => *bytes,
        None => {
            let mut bytes = [0; N];
            bytes[..rest.len()].copy_from_slice(rest);
            bytes
        }
    }
}

pub fn read_u16(buf: &[u8], at: usize) -> u16
    ensures { result ≡ word 2 buf.now at }
{
    u16::from_le_bytes(bytes_at(buf, at))
}

pub fn read_u32(buf: &[u8], at: usize) -> u32
    ensures { result ≡ word 4 buf.now at }
{
    u32::from_le_bytes(bytes_at(buf, at))
}

// The position to which a table's signed word leads from `pos`, where it lies inside the input.
pub fn led_to(buf: &[u8], pos: usize, word: u32) -> Option<usize>
    ensures { result ≡ led buf.now pos word }
{
    pos.checked_sub_signed(word.cast_signed() as isize)
        .filter(|place| *place < buf.len())
}
