// Why an input is refused, and where.
pub mod methods;

#[derive(Clone, Copy, Debug, PartialEq, Eq)]
pub enum InvalidFlatbuffer {
    // A position that is no multiple of its kind's alignment.
    Unaligned {
        position: usize,
        alignment: usize,
    },
    // A range whose end, which stops at the largest number, passes the input's length.
    RangeOutOfBounds {
        start: usize,
        end: usize,
    },
    // The ranges read sum past their limit.
    ApparentSizeTooLarge,
    // A table's position minus its signed word leaves the input.
    SignedOffsetOutOfBounds {
        soffset: i32,
        position: usize,
    },
    // There are more tables than their limit.
    TooManyTables,
    // Tables nest deeper than their limit.
    DepthLimitReached,
    // A required field is absent.
    MissingRequiredField {
        slot: u16,
    },
    // Just one of a union's key and value is present, and it is no key of 0.
    InconsistentUnion {
        key: u16,
        value: u16,
    },
    // A string's bytes are not UTF-8: the longest prefix that is has this length.
    Utf8Error {
        start: usize,
        end: usize,
        valid_up_to: usize,
    },
    // No zero byte follows a string.
    MissingNullTerminator {
        start: usize,
        end: usize,
    },
}

// One layer that a fault rose through.
#[derive(Clone, Copy, Debug, PartialEq, Eq)]
pub enum TraceRecord {
    VectorElement { index: usize, position: usize },
    TableField { slot: u16, position: usize },
    UnionVariant { key: u8, position: usize },
}
