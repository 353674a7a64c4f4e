// Numbers, and what an offset leads to.
ghost use Rattle.std.specs.Prelude.{ℕ};
ghost use Rattle.std.proofs.Common.{lit<};
ghost use Rattle.views.specs.Views.{forwards};

use crate::follow::{Element, Follow, Inline};
use kinds::Kind;
use kinds::follow::array_at;
use kinds::names::ForwardsUOffset;
use kinds::primitives::WIPOffset;

// Each number has its line: an impl for every `EndianScalar` would conflict with the one for offsets.
impl Inline for u8 {}

impl Inline for u16 {}

impl Inline for u32 {}

impl Inline for u64 {}

impl Inline for i8 {}

impl Inline for i16 {}

impl Inline for i32 {}

impl Inline for i64 {}

impl Inline for f32 {}

impl Inline for f64 {}

// An offset that is not followed reads as its object's position.
impl<T> Inline for WIPOffset<T> {}

impl<'a, T: Follow<'a>> Follow<'a> for ForwardsUOffset<T> {
    type Inner = T::Inner;

    ghost Meaning = { T.Follow.Meaning };

    ghost means = { T.Follow.means };

    ghost reads = { forwards T.Follow.reads };

    ghost borrows = { T.Follow.borrows };

    fn follow(buf: &'a [u8], loc: usize) -> Option<T::Inner> {
        let distance = u32::from_le_bytes(array_at(buf, loc)?);
        T::follow(buf, loc + distance as usize)
    }
}

impl<T> Element for ForwardsUOffset<T> {
    ghost size = { 4 };

    ghost sized = { lit< tt };

    fn size() -> usize {
        4
    }
}
