// A store in an array of its own, that moves no byte.
ghost use Rattle.std.specs.Prelude.{◌≡◌, ◌+◌, ◌%◌, ◌≤◌, [], length, is_ok, if◌then◌else◌};
ghost use Rattle.wire.specs.Bytes.{last};
ghost use Rattle.wire.proofs.Lists.{array_within};
ghost use Rattle.store.specs.Growth.{Grown};

use crate::allocator::{Allocator, Contiguous};
use wire::range::inside;

const SIZE: usize = 16384;

const STEP: usize = 256;

// The list is the last `len` bytes of the array. The count stands beside it, since a list that grows at its front
// in fixed memory is no vector.
#[derive(Drop)]
pub struct Still {
    bytes: [u8; SIZE],
    len: usize,
    ghost size: { length bytes ≡ 16384 },
    ghost fits: { len ≤ 16384 },
    ghost steps: { len % 256 ≡ 0 },
}

// The array is used up.
#[derive(Clone, Copy, PartialEq, Eq, Debug)]
pub struct ArrayFull;

impl Still {
    pub fn new() -> Still
        ensures { last result.len result.bytes ≡ [] }
    {
        Still {
            bytes: [0; SIZE],
            len: 0,
        }
    }
}

impl Allocator for Still {
    type Error = ArrayFull;

    ghost list = { λ s. last s.len s.bytes };

    ghost limit = { λ _. 16384 };

    ghost within = { λ s. array_within s.len s.bytes 16384 s.size };

    fn len(&self) -> usize {
        self.len
    }

    fn at(&self, i: usize) -> Option<u8> {
        self.as_slice().get(i).copied()
    }

    fn put(&mut self, start: usize, bytes: &[u8]) -> bool {
        let count = bytes.len();
        if !inside(start, count, self.len) {
            return false;
        }
        let from = SIZE - self.len + start;
        self.bytes[from..from + count].copy_from_slice(bytes);
        true
    }

    fn grow_downwards(&mut self) -> Result<(), ArrayFull>
        ensures grown { Grown (last self.old.len self.old.bytes) 16384 (last self.new.len self.new.bytes) 16384 (is_ok result) }
        ensures steps { self.new.len ≡ (if is_ok result then self.old.len + 256 else self.old.len) }
    {
        if self.len == SIZE {
            return Err(ArrayFull);
        }
        let unused = SIZE - self.len;
        self.bytes[unused - STEP..unused].fill(0);
        self.len += STEP;
        Ok(())
    }
}

impl Contiguous for Still {
    fn as_slice(&self) -> &[u8] {
        &self.bytes[SIZE - self.len..]
    }
}
