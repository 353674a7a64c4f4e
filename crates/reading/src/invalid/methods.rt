ghost use Rattle.std.specs.Prelude.{◌≡◌};
ghost use Rattle.reading.specs.Reading.{limit, number as number_of, position_of, record_number};

use super::{InvalidFlatbuffer, TraceRecord};

impl InvalidFlatbuffer {
    // The number by which documents and tools name the refusal.
    pub fn number(self) -> u8
        ensures { result ≡ number_of self }
    {
        match self {
            InvalidFlatbuffer::Unaligned { .. } => 14,
            InvalidFlatbuffer::RangeOutOfBounds { .. } => 15,
            InvalidFlatbuffer::ApparentSizeTooLarge => 16,
            InvalidFlatbuffer::SignedOffsetOutOfBounds { .. } => 17,
            InvalidFlatbuffer::TooManyTables => 18,
            InvalidFlatbuffer::DepthLimitReached => 19,
            InvalidFlatbuffer::MissingRequiredField { .. } => 20,
            InvalidFlatbuffer::InconsistentUnion { .. } => 21,
            InvalidFlatbuffer::Utf8Error { .. } => 22,
            InvalidFlatbuffer::MissingNullTerminator { .. } => 23,
        }
    }

    // Whether a limit stopped the reading: such a fault gets no trace.
    pub fn is_limit(self) -> bool
        ensures { result ≡ limit self }
    {
        matches!(
            self,
            InvalidFlatbuffer::ApparentSizeTooLarge
                | InvalidFlatbuffer::TooManyTables
                | InvalidFlatbuffer::DepthLimitReached
        )
    }
}

impl TraceRecord {
    // The number by which documents and tools name the layer's kind.
    pub fn number(self) -> u8
        ensures { result ≡ record_number self }
    {
        match self {
            TraceRecord::VectorElement { .. } => 1,
            TraceRecord::TableField { .. } => 2,
            TraceRecord::UnionVariant { .. } => 3,
        }
    }

    // Where the layer begins.
    pub fn position(self) -> usize
        ensures { result ≡ position_of self }
    {
        match self {
            TraceRecord::VectorElement { position, .. }
            | TraceRecord::TableField { position, .. }
            | TraceRecord::UnionVariant { position, .. } => position,
        }
    }
}
