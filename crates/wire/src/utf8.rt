// Well-formed UTF-8, by Unicode's table 3-7.
ghost use Rattle.std.specs.Prelude.{◌≡◌, ℕ, ◌≤◌, length, take, IsUtf8};
ghost use Rattle.wire.specs.Utf8.{longest_prefix, well_formed};

use std::str::from_utf8;

// The length of the longest prefix that is well-formed, by the table, and so the UTF-8 of characters.
pub fn valid_up_to(bytes: &[u8]) -> usize
    ensures value { result ≡ longest_prefix bytes.now }
    ensures bound { result ≤ length bytes.now }
    ensures front { IsUtf8 (take result bytes.now) }
    ensures longest { (m : ℕ) → m ≤ length bytes.now → IsUtf8 (take m bytes.now) → m ≤ result }
{
    match from_utf8(bytes) {
        Ok(text) => text.len(),
        Err(e) => e.valid_up_to(),
    }
}

pub fn is_utf8(bytes: &[u8]) -> bool
    ensures { result ≡ well_formed bytes.now }
{
    valid_up_to(bytes) == bytes.len()
}
