// How the kinds that any schema has are verified.
ghost use Rattle.reading.specs.Shape.{element, offset, offsets, skipped, string, vector};

use crate::verifier::{InvalidFlatbuffer, TraceRecord, Verifiable, Verifier};
use kinds::Kind;
use kinds::names::{ForwardsUOffset, SkipSizePrefix, Str, VectorOf};

// A kind that is verified by its place alone: every byte pattern is a value of it.
pub trait SimpleToVerifyInSlice: Kind {}

// Each number has its line: an impl for every `EndianScalar` would conflict with those of the kinds below.
impl SimpleToVerifyInSlice for u8 {}

impl SimpleToVerifyInSlice for u16 {}

impl SimpleToVerifyInSlice for u32 {}

impl SimpleToVerifyInSlice for u64 {}

impl SimpleToVerifyInSlice for i8 {}

impl SimpleToVerifyInSlice for i16 {}

impl SimpleToVerifyInSlice for i32 {}

impl SimpleToVerifyInSlice for i64 {}

impl SimpleToVerifyInSlice for f32 {}

impl SimpleToVerifyInSlice for f64 {}

impl<T: SimpleToVerifyInSlice> Verifiable for T {
    ghost shape = { element T.Kind.meaning.size T.Kind.meaning.alignment };

    fn run_verifier(v: &mut Verifier<'_>, pos: usize) -> Result<(), InvalidFlatbuffer> {
        v.in_buffer(pos, T::size(), T::alignment())
    }
}

impl<T: Verifiable> Verifiable for ForwardsUOffset<T> {
    ghost shape = { offset T.Verifiable.shape };

    fn run_verifier(v: &mut Verifier<'_>, pos: usize) -> Result<(), InvalidFlatbuffer> {
        let distance = v.get_uoffset(pos)? as usize;
        T::run_verifier(v, distance.saturating_add(pos))
    }
}

impl<T: Verifiable> Verifiable for SkipSizePrefix<T> {
    ghost shape = { skipped T.Verifiable.shape };

    fn run_verifier(v: &mut Verifier<'_>, pos: usize) -> Result<(), InvalidFlatbuffer> {
        T::run_verifier(v, pos.saturating_add(4))
    }
}

impl Verifiable for Str {
    ghost shape = { string };

    fn run_verifier(v: &mut Verifier<'_>, pos: usize) -> Result<(), InvalidFlatbuffer> {
        let len = v.vector_range(pos, 1, 1)? as usize;
        v.text(pos.saturating_add(4), len)
    }
}

// A vector of elements that stand in it: the elements are not looked at.
impl<T: SimpleToVerifyInSlice> Verifiable for VectorOf<T> {
    ghost shape = { vector T.Kind.meaning.size T.Kind.meaning.alignment };

    fn run_verifier(v: &mut Verifier<'_>, pos: usize) -> Result<(), InvalidFlatbuffer> {
        v.vector_range(pos, T::size(), T::alignment())?;
        Ok(())
    }
}

// A vector of offsets, each of which is followed.
impl<T: Verifiable> Verifiable for VectorOf<ForwardsUOffset<T>> {
    ghost shape = { offsets T.Verifiable.shape };

    fn run_verifier(v: &mut Verifier<'_>, pos: usize) -> Result<(), InvalidFlatbuffer> {
        let len = v.vector_range(pos, 4, 4)? as usize;
        let start = pos.saturating_add(4);
        for index in 0..len {
            let position = start + 4 * index;
            v.visit::<ForwardsUOffset<T>>(TraceRecord::VectorElement { index, position })?;
        }
        Ok(())
    }
}
