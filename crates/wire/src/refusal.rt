// Why a call that writes was refused. `E` is what the store itself says.
pub mod methods;

#[derive(Clone, Copy, Debug, PartialEq, Eq, Drop)]
pub enum Refusal<E> {
    // The buffer is finished.
    Finished,
    // The buffer is not finished yet.
    NotFinished,
    // A table or vector is open.
    Nested,
    // Nothing is open that this call could end, or it disagrees with its start.
    NotOpen,
    // A slot that is odd, or outside 4 to 65,532.
    Slot,
    // An identifier that is not four bytes long.
    Identifier,
    // An offset that is 0 or leads outside the used space.
    Offset,
    // Bytes that are not UTF-8.
    Text,
    // A table of 65,536 bytes or more.
    TableTooLarge,
    // A required slot that is not there.
    MissingSlot,
    // The used space would pass 2,147,483,647 bytes.
    TooLong,
    // The store is too small: what it says.
    Store(E),
    // A 257th slot, vtable or pooled string.
    Full,
}
