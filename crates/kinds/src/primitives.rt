// Offsets.
ghost use Rattle.std.specs.Prelude.{◌≡◌};
ghost use Rattle.wire.proofs.Laws.{forwards_law};
ghost use Rattle.wire.specs.Offsets.{forwards};

use crate::Kind;
use crate::follow::array_at;
use crate::push::copy_part;
use std::marker::PhantomData;

pub type UOffsetT = u32;

// An offset: where an object of `T` begins, counted from the end of the buffer.
#[derive_where(Clone, Copy, PartialEq, Eq)]
pub struct WIPOffset<T>(UOffsetT, PhantomData<T>);

// The same kind by the name under which it is read: it leads forwards to an object of `T`.
pub type ForwardsUOffset<T> = WIPOffset<T>;

impl<T> WIPOffset<T> {
    pub fn new(o: UOffsetT) -> WIPOffset<T>
        ensures { result.0 ≡ o }
    {
        WIPOffset(o, PhantomData)
    }

    pub fn value(self) -> UOffsetT
        ensures { result ≡ self.0 }
    {
        self.0
    }
}

impl<T> Kind for WIPOffset<T> {
    // the object's position
    type Inner = usize;

    ghost meaning = { forwards (λ o. o.0) };

    ghost lawful = { forwards_law (λ o. o.0) };

    fn size() -> usize {
        4
    }

    fn alignment() -> usize {
        4
    }

    fn offset(&self) -> Option<u32> {
        Some(self.value())
    }

    fn push(&self, dst: &mut [u8], used: usize, from: usize) {
        // The distance from its own bytes, in front of `used`, to its object; no sum passes a u128.
        let distance = (4 + used as u128).saturating_sub(self.value() as u128);
        copy_part(&distance.to_le_bytes()[..4], from, dst);
    }

    fn follow(buf: &[u8], loc: usize) -> Option<usize> {
        let at = loc + u32::from_le_bytes(array_at(buf, loc)?) as usize;
        (at < buf.len()).then_some(at)
    }

    fn equals(&self, other: &WIPOffset<T>) -> bool {
        *self == *other
    }
}
