// The kinds by their names, and how a value of each is read.
use crate::fault::Fault;
use font::anchor::Anchor;
use font::kern::Kern;
use kinds::Kind;
use kinds::primitives::WIPOffset;
use std::num::{ParseIntError, f32_from_bits_with_nan, f64_from_bits_with_nan};
use std::str::FromStr;

#[derive(Clone, Copy)]
pub enum KindName {
    U8,
    U16,
    U32,
    U64,
    I8,
    I16,
    I32,
    I64,
    F32,
    F64,
    Offset,
    Anchor,
    Kern,
}

impl FromStr for KindName {
    type Err = Fault;

    fn from_str(word: &str) -> Result<KindName, Fault> {
        Ok(match word {
            "u8" => KindName::U8,
            "u16" => KindName::U16,
            "u32" => KindName::U32,
            "u64" => KindName::U64,
            "i8" => KindName::I8,
            "i16" => KindName::I16,
            "i32" => KindName::I32,
            "i64" => KindName::I64,
            "f32" => KindName::F32,
            "f64" => KindName::F64,
            "offset" => KindName::Offset,
            "anchor" => KindName::Anchor,
            "kern" => KindName::Kern,
            _ => return Err(Fault::NoSuchKind),
        })
    }
}

// A kind whose values stand in scripts.
pub trait Value: Kind {
    fn read(word: &str) -> Result<Self, Fault>;
}

// The kinds whose values stand as std reads them. Each has its line: no macro may write them, and a blanket impl of
// `Value` over `FromStr` would conflict with those of offsets and structs.
pub trait Integer: Kind + FromStr<Err = ParseIntError> {}

impl Integer for u8 {}

impl Integer for u16 {}

impl Integer for u32 {}

impl Integer for u64 {}

impl Integer for i8 {}

impl Integer for i16 {}

impl Integer for i32 {}

impl Integer for i64 {}

impl<T: Integer> Value for T {
    fn read(word: &str) -> Result<T, Fault> {
        Ok(word.parse::<T>()?)
    }
}

// The floats are two, as the library's functions on their bits are.
impl Value for f32 {
    // its bits, in hexadecimal
    fn read(word: &str) -> Result<f32, Fault> {
        Ok(f32_from_bits_with_nan(u32::from_str_radix(word, 16)?))
    }
}

impl Value for f64 {
    // its bits, in hexadecimal
    fn read(word: &str) -> Result<f64, Fault> {
        Ok(f64_from_bits_with_nan(u64::from_str_radix(word, 16)?))
    }
}

impl Value for WIPOffset<u8> {
    fn read(word: &str) -> Result<WIPOffset<u8>, Fault> {
        Ok(WIPOffset::new(word.parse()?))
    }
}

// What stands before the first comma, and what stands after it.
fn halves(word: &str) -> Result<(&str, &str), Fault> {
    word.split_once(',').ok_or(Fault::NotANumber)
}

impl Value for Anchor {
    fn read(word: &str) -> Result<Anchor, Fault> {
        let (x, y) = halves(word)?;
        Ok(Anchor {
            x: x.parse()?,
            y: y.parse()?,
        })
    }
}

impl Value for Kern {
    fn read(word: &str) -> Result<Kern, Fault> {
        let (left, rest) = halves(word)?;
        let (right, value) = halves(rest)?;
        Ok(Kern {
            left: left.parse()?,
            right: right.parse()?,
            value: value.parse()?,
        })
    }
}
