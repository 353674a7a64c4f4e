ghost use Rattle.std.specs.Prelude.{◌≡◌, ℕ, ◌+◌, ◌^◌, ◌<◌, is_some, IfSome, ◌==◌};
ghost use Rattle.std.specs.declared.cmp.Ordering.TheVariants.{Equal};
ghost use Rattle.std.specs.Option.{option_map};
ghost use Rattle.views.specs.Lookup.{FindsIt, HasKey, LookedUp, count_of};
ghost use Rattle.views.specs.Views.{vector_inside, element_bytes, element_of, vector_at};

use super::Vector;
use crate::follow::{Element, Follow};
use crate::key::KeyOrder;
use kinds::follow::{array_at, contains};
use kinds::names::VectorOf;
use std::cmp::Ordering;
use std::marker::PhantomData;
use wire::words::read_u32;

impl<'a, T> Vector<'a, T> {
    pub fn len(&self) -> usize
        ensures value { result ≡ count_of self.now }
        ensures bound { result < 2 ^ 32 }
    {
        read_u32(self.buf, self.loc) as usize
    }

    pub fn is_empty(&self) -> bool
        ensures { result ≡ (count_of self.now == 0) }
    {
        self.len() == 0
    }

    // The bytes of the elements: that part of the caller's input.
    pub fn bytes(&self) -> &'a [u8]
        ensures value { result.now ≡ element_bytes self.now.size self.now.buf.now self.now.loc }
        ensures place { result.ref_ptr ≡ (self.now.buf.ref_ptr.0, self.now.buf.ref_ptr.1 + (self.now.loc + 4)) }
    {
        let at = self.loc + 4;
        &self.buf[at..at + self.size * self.len()]
    }
}

impl<'a, T: Element> Vector<'a, T> {
    // The vector at `loc`; nothing where its count or its elements leave the input.
    pub fn new(buf: &'a [u8], loc: usize) -> Option<Vector<'a, T>>
        ensures test { is_some result ≡ vector_inside T.Element.size buf.now loc }
        ensures some { IfSome result (λ v. (v.buf ≡ buf.entry) × (v.loc ≡ loc) × (v.size ≡ T.Element.size)) }
    {
        let count = u32::from_le_bytes(array_at(buf, loc)?);
        let size = T::size();
        let len = size.checked_mul(count as usize)?;
        if !contains(buf, loc + 4, len) {
            return None;
        }
        Some(Vector {
            buf,
            loc,
            size,
            kind: PhantomData,
        })
    }
}

impl<'a, T: Follow<'a>> Vector<'a, T> {
    // The element `idx`; nothing beyond the count, or where it cannot be read.
    pub fn get(&self, idx: usize) -> Option<T::Inner>
        ensures value { option_map T.Follow.means result ≡ element_of T.Follow.reads self.now.size self.now.buf.now self.now.loc idx }
        ensures borrowed { IfSome result (T.Follow.borrows self.now.buf) }
    {
        if idx >= self.len() {
            return None;
        }
        T::follow(self.buf, self.loc + 4 + self.size * idx)
    }
}

impl<'a, T: Follow<'a>> Vector<'a, T>
where
    T::Inner: Copy,
{
    // By hand: it meets the elements in the Rust's order, and one that cannot be read ends it, which the
    // library's search has no way to say. A function of its own: that it `finds` follows once from `value`,
    // and not anew at each of the five exits here.
    fn halved<K: KeyOrder<T::Inner>>(&self, key: &K) -> Option<T::Inner>
        ensures value { LookedUp T.Follow K.KeyOrder self.now key.now result }
        ensures borrowed { IfSome result (T.Follow.borrows self.now.buf) }
        ensures sound { HasKey K.KeyOrder key.now result }
    {
        let mut left: usize = 0;
        let mut right = self.len().checked_sub(1)?;
        while left <= right {
            let mid = (left + right) / 2;
            let value = self.get(mid)?;
            match key.key_compare_with_value(&value) {
                Ordering::Equal => return Some(value),
                Ordering::Less => left = mid + 1,
                Ordering::Greater => right = mid.checked_sub(1)?,
            }
        }
        None
    }

    // The element that the halving meets, whose key is the one sought; nothing where there is none, or where
    // an element on the way cannot be read.
    pub fn lookup_by_key<K: KeyOrder<T::Inner>>(&self, key: &K) -> Option<T::Inner>
        ensures value { LookedUp T.Follow K.KeyOrder self.now key.now result }
        ensures borrowed { IfSome result (T.Follow.borrows self.now.buf) }
        ensures sound { HasKey K.KeyOrder key.now result }
        ensures finds { FindsIt T.Follow K.KeyOrder self.now key.now result }
    {
        self.halved(key)
    }
}

impl<'a, T: Element> Follow<'a> for VectorOf<T> {
    type Inner = Vector<'a, T>;

    ghost Meaning = { ℕ };

    ghost means = { λ v. v.loc };

    ghost reads = { vector_at T.Element.size };

    ghost borrows = { λ b v. (v.buf ≡ b) × (v.size ≡ T.Element.size) };

    fn follow(buf: &'a [u8], loc: usize) -> Option<Vector<'a, T>> {
        Vector::<T>::new(buf, loc)
    }
}
