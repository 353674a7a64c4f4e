// The identifier of a finished buffer.
ghost use Rattle.std.specs.Prelude.{◌≡◌};
ghost use Rattle.views.specs.Identifier.{has_identifier, number};

// Why it is not told whether a buffer has an identifier. Other enums have these two as well; here they stand
// by themselves, since a caller of `buffer_has_identifier` meets no other.
#[derive(Clone, Copy, Debug, PartialEq, Eq)]
pub enum IdentifierError {
    // An identifier that is not four bytes long.
    Identifier,
    // The buffer ends within the bytes that were to be read.
    RangeOutOfBounds { start: usize, end: usize },
}

impl IdentifierError {
    // The number by which documents and tools name the refusal.
    pub fn number(&self) -> u32
        ensures { result ≡ number self.now }
    {
        match self {
            IdentifierError::Identifier => 6,
            IdentifierError::RangeOutOfBounds { .. } => 15,
        }
    }
}

// Whether the buffer has the identifier.
pub fn buffer_has_identifier(
    data: &[u8],
    ident: &[u8],
    size_prefixed: bool,
) -> Result<bool, IdentifierError>
    ensures { result ≡ has_identifier «data».now ident.now size_prefixed }
{
    if ident.len() != 4 {
        return Err(IdentifierError::Identifier);
    }
    let at = if size_prefixed { 8 } else { 4 };
    let found = data
        .get(at..at + 4)
        .ok_or(IdentifierError::RangeOutOfBounds {
            start: 0,
            end: at + 4,
        })?;
    Ok(ident == found)
}
