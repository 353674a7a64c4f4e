// Numbers and structs of numbers, in little-endian byte order.
ghost use Rattle.std.specs.Prelude.{◌≡◌, ℕ, T, List, Some, refl};
ghost use Rattle.std.specs.Float.{binary32, binary64};
ghost use Rattle.std.proofs.Common.{inl, inr};
ghost use Rattle.std.specs.Int.{w8, w16, w32, w64};
ghost use Rattle.std.specs.Option.{option_map};
ghost use Rattle.wire.proofs.Laws.{unsigned_law, signed_law, float_law};
ghost use Rattle.wire.specs.Kind.{Meaning, Law};
ghost use Rattle.wire.specs.Scalars.{unsigned, signed, float};
ghost use Rattle.wire.specs.Plain.{Plain, bytes_at};
ghost use Rattle.wire.proofs.Plain.{unsigned_plain, signed_plain, float_plain};

use crate::Kind;
use crate::follow::array_at;
use crate::push::copy_part;
use std::convert::AsSlice;
use std::num::{
    f32_from_bits_with_nan, f32_to_bits_with_nan, f64_from_bits_with_nan, f64_to_bits_with_nan,
};

// The arrays of bytes that values turn into.
pub trait ByteArray: AsSlice<u8> + Copy {
    const LEN: usize;

    ghost LEN: { ℕ };

    // The bytes at a position; nothing where they leave the input.
    fn at(buf: &[u8], loc: usize) -> Option<Self>
        ensures { option_map Self.items result ≡ bytes_at buf.now loc LEN };
}

impl<const N: usize> ByteArray for [u8; N] {
    const LEN: usize = N;

    ghost LEN = { N };

    fn at(buf: &[u8], loc: usize) -> Option<[u8; N]> {
        array_at(buf, loc)
    }
}

// A number, or a struct of numbers: its bytes say the same wherever they lie.
pub trait EndianScalar: PartialEq + Copy {
    // its bytes in memory order
    type Scalar: ByteArray;

    ghost meaning: { Meaning Self Self };

    ghost lawful: { Law meaning };

    fn alignment() -> usize
        ensures { result ≡ meaning.alignment };

    fn to_little_endian(self) -> Self::Scalar
        ensures bytes { (used : ℕ) → Self.Scalar.items result ≡ meaning.bytes self used }
        ensures fits { T (meaning.fits self) };

    fn from_little_endian(v: Self::Scalar) -> Self
        ensures { meaning.reads (Self.Scalar.items v) 0 ≡ Some result };

    // its size is that of its bytes, which alone are read, and `==` is numeric equality
    ghost plain: { Plain meaning Self.Scalar.LEN Self.eq };
}

impl<T: EndianScalar> Kind for T {
    type Inner = T;

    ghost meaning = { T.meaning };

    ghost lawful = { T.lawful };

    fn size() -> usize {
        T::Scalar::LEN
    }

    fn alignment() -> usize {
        T::alignment()
    }

    fn offset(&self) -> Option<u32> {
        None
    }

    fn push(&self, dst: &mut [u8], _used: usize, from: usize) {
        copy_part(self.to_little_endian().as_slice(), from, dst);
    }

    fn follow(buf: &[u8], loc: usize) -> Option<T> {
        let bytes = T::Scalar::at(buf, loc)?;
        Some(T::from_little_endian(bytes))
    }

    fn equals(&self, other: &T) -> bool {
        // Their bytes promise that the machine holds both, as the law of `==` wants.
        let _ = (self.to_little_endian(), other.to_little_endian());
        *self == *other
    }
}

// Each number has an impl of its own: no macro of this repository may write them.
impl EndianScalar for u8 {
    type Scalar = [u8; 1];

    ghost meaning = { unsigned 1 };

    ghost lawful = { unsigned_law 1 (inl refl) };

    ghost plain = { unsigned_plain 1 };

    fn alignment() -> usize {
        1
    }

    fn to_little_endian(self) -> [u8; 1] {
        self.to_le_bytes()
    }

    fn from_little_endian(v: [u8; 1]) -> u8 {
        u8::from_le_bytes(v)
    }
}

impl EndianScalar for u16 {
    type Scalar = [u8; 2];

    ghost meaning = { unsigned 2 };

    ghost lawful = { unsigned_law 2 (inr (inl refl)) };

    ghost plain = { unsigned_plain 2 };

    fn alignment() -> usize {
        2
    }

    fn to_little_endian(self) -> [u8; 2] {
        self.to_le_bytes()
    }

    fn from_little_endian(v: [u8; 2]) -> u16 {
        u16::from_le_bytes(v)
    }
}

impl EndianScalar for u32 {
    type Scalar = [u8; 4];

    ghost meaning = { unsigned 4 };

    ghost lawful = { unsigned_law 4 (inr (inr (inl refl))) };

    ghost plain = { unsigned_plain 4 };

    fn alignment() -> usize {
        4
    }

    fn to_little_endian(self) -> [u8; 4] {
        self.to_le_bytes()
    }

    fn from_little_endian(v: [u8; 4]) -> u32 {
        u32::from_le_bytes(v)
    }
}

impl EndianScalar for u64 {
    type Scalar = [u8; 8];

    ghost meaning = { unsigned 8 };

    ghost lawful = { unsigned_law 8 (inr (inr (inr refl))) };

    ghost plain = { unsigned_plain 8 };

    fn alignment() -> usize {
        8
    }

    fn to_little_endian(self) -> [u8; 8] {
        self.to_le_bytes()
    }

    fn from_little_endian(v: [u8; 8]) -> u64 {
        u64::from_le_bytes(v)
    }
}

impl EndianScalar for i8 {
    type Scalar = [u8; 1];

    ghost meaning = { signed 1 w8 };

    ghost lawful = { signed_law 1 w8 refl (inl refl) };

    ghost plain = { signed_plain 1 w8 };

    fn alignment() -> usize {
        1
    }

    fn to_little_endian(self) -> [u8; 1] {
        self.to_le_bytes()
    }

    fn from_little_endian(v: [u8; 1]) -> i8 {
        i8::from_le_bytes(v)
    }
}

impl EndianScalar for i16 {
    type Scalar = [u8; 2];

    ghost meaning = { signed 2 w16 };

    ghost lawful = { signed_law 2 w16 refl (inr (inl refl)) };

    ghost plain = { signed_plain 2 w16 };

    fn alignment() -> usize {
        2
    }

    fn to_little_endian(self) -> [u8; 2] {
        self.to_le_bytes()
    }

    fn from_little_endian(v: [u8; 2]) -> i16 {
        i16::from_le_bytes(v)
    }
}

impl EndianScalar for i32 {
    type Scalar = [u8; 4];

    ghost meaning = { signed 4 w32 };

    ghost lawful = { signed_law 4 w32 refl (inr (inr (inl refl))) };

    ghost plain = { signed_plain 4 w32 };

    fn alignment() -> usize {
        4
    }

    fn to_little_endian(self) -> [u8; 4] {
        self.to_le_bytes()
    }

    fn from_little_endian(v: [u8; 4]) -> i32 {
        i32::from_le_bytes(v)
    }
}

impl EndianScalar for i64 {
    type Scalar = [u8; 8];

    ghost meaning = { signed 8 w64 };

    ghost lawful = { signed_law 8 w64 refl (inr (inr (inr refl))) };

    ghost plain = { signed_plain 8 w64 };

    fn alignment() -> usize {
        8
    }

    fn to_little_endian(self) -> [u8; 8] {
        self.to_le_bytes()
    }

    fn from_little_endian(v: [u8; 8]) -> i64 {
        i64::from_le_bytes(v)
    }
}

impl EndianScalar for f32 {
    type Scalar = [u8; 4];

    ghost meaning = { float 4 binary32 };

    ghost lawful = { float_law 4 binary32 refl (inr (inr (inl refl))) };

    ghost plain = { float_plain 4 binary32 };

    fn alignment() -> usize {
        4
    }

    fn to_little_endian(self) -> [u8; 4] {
        f32_to_bits_with_nan(self).to_le_bytes()
    }

    fn from_little_endian(v: [u8; 4]) -> f32 {
        f32_from_bits_with_nan(u32::from_le_bytes(v))
    }
}

impl EndianScalar for f64 {
    type Scalar = [u8; 8];

    ghost meaning = { float 8 binary64 };

    ghost lawful = { float_law 8 binary64 refl (inr (inr (inr refl))) };

    ghost plain = { float_plain 8 binary64 };

    fn alignment() -> usize {
        8
    }

    fn to_little_endian(self) -> [u8; 8] {
        f64_to_bits_with_nan(self).to_le_bytes()
    }

    fn from_little_endian(v: [u8; 8]) -> f64 {
        f64_from_bits_with_nan(u64::from_le_bytes(v))
    }
}
