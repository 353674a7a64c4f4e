// A vector: a count and then its elements, each of the size that the view keeps.
ghost use Rattle.std.specs.Prelude.{◌≡◌, ◌+◌, ◌*◌, ◌≤◌, ⊤, length};
ghost use Rattle.wire.specs.Words.{word};

use std::alloc::AllocError;
use std::marker::PhantomData;

pub mod methods;

pub struct Vector<'a, T> {
    pub(crate) buf: &'a [u8],
    pub(crate) loc: usize,
    // Kept as a number: by it the type says that the elements lie inside, whatever `T` is.
    pub(crate) size: usize,
    pub(crate) kind: PhantomData<T>,
    ghost head: { loc + 4 ≤ length buf.now },
    ghost inside: { loc + 4 + size * word 4 buf.now loc ≤ length buf.now },
}

// By hand: `derive_where` takes no struct with ghost fields, and `derive` would ask for `T: Copy`.
impl<'a, T> Clone for Vector<'a, T> {
    ghost is_clone = { λ x y. y ≡ x };

    ghost is_infallible = { λ _. ⊤ };

    fn clone(&self) -> Result<Self, AllocError> {
        Ok(*self)
    }
}

impl<'a, T> Copy for Vector<'a, T> {}
