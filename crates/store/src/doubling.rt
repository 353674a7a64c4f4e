// A store at the front of a lent slice, that doubles its length and moves its bytes to the end of it.
ghost use Rattle.std.specs.Prelude.{◌≡◌, ◌+◌, ◌-◌, ◌*◌, ◌<◌, ◌≤◌, min, max, true, [], ◌++◌, length, take, drop, is_ok};
ghost use Rattle.wire.specs.Bytes.{zeros};
ghost use Rattle.wire.proofs.Lists.{take_within};
ghost use Rattle.store.specs.Growth.{Grown};

use crate::allocator::{Allocator, Contiguous};
use wire::range::inside;

// The list is the first `len` bytes of the slice. The count stands beside it: the memory is the caller's.
#[derive(Drop)]
pub struct Doubling<'a> {
    bytes: &'a mut [u8],
    len: usize,
    ghost within: { len ≤ length bytes.now },
}

// The slice is used up.
#[derive(Clone, Copy, PartialEq, Eq, Debug)]
pub struct SliceFull;

impl<'a> Doubling<'a> {
    pub fn new(bytes: &'a mut [u8]) -> Doubling<'a>
        ensures list { take result.len result.bytes.now ≡ [] }
        ensures bytes { result.bytes.now ≡ bytes.old }
    {
        Doubling { bytes, len: 0 }
    }
}

// The length after `len`, which is below `limit`.
fn doubled(len: usize, limit: usize) -> usize
    requires { len < limit }
    ensures { result ≡ min limit (max 1 (len + len)) }
{
    len.saturating_mul(2).max(1).min(limit)
}

// Moves the first `len` bytes to the end of the first `next`, and zeroes what was before them.
fn move_up(bytes: &mut [u8], len: usize, next: usize)
    requires { (len ≤ next) × (next ≤ length bytes.old) }
    ensures { bytes.new ≡ (zeros (next - len) ++ take len bytes.old) ++ drop next bytes.old }
{
    bytes[0..next].rotate_right(next - len);
    bytes[0..next - len].fill(0);
}

impl<'a> Allocator for Doubling<'a> {
    type Error = SliceFull;

    ghost list = { λ s. take s.len s.bytes.now };

    ghost limit = { λ s. length s.bytes.now };

    ghost within = { λ s. take_within s.len s.bytes.now };

    fn len(&self) -> usize {
        self.len
    }

    fn at(&self, i: usize) -> Option<u8> {
        self.as_slice().get(i).copied()
    }

    fn put(&mut self, start: usize, bytes: &[u8]) -> bool {
        let count = bytes.len();
        if !inside(start, count, self.len) {
            return false;
        }
        self.bytes[start..start + count].copy_from_slice(bytes);
        true
    }

    fn grow_downwards(&mut self) -> Result<(), SliceFull>
        ensures grown { Grown (take self.old.len self.old.bytes.now) (length self.old.bytes.now) (take self.new.len self.new.bytes.now) (length self.new.bytes.now) (is_ok result) }
        ensures length { is_ok result ≡ true → self.new.len ≡ min (length self.old.bytes.now) (max 1 (2 * self.old.len)) }
    {
        let limit = self.bytes.len();
        if self.len == limit {
            return Err(SliceFull);
        }
        let next = doubled(self.len, limit);
        move_up(self.bytes, self.len, next);
        self.len = next;
        Ok(())
    }
}

impl<'a> Contiguous for Doubling<'a> {
    fn as_slice(&self) -> &[u8] {
        &self.bytes[..self.len]
    }
}
