ghost use Rattle.std.specs.Prelude.{◌≡◌};
ghost use Rattle.wire.specs.Answers.{number};

use super::Refusal;

impl<E> Refusal<E> {
    // The number by which documents and tools name the refusal.
    pub fn number(&self) -> u8
        ensures { result ≡ number self.now }
    {
        match self {
            Refusal::Finished => 1,
            Refusal::NotFinished => 2,
            Refusal::Nested => 3,
            Refusal::NotOpen => 4,
            Refusal::Slot => 5,
            Refusal::Identifier => 6,
            Refusal::Offset => 7,
            Refusal::Text => 8,
            Refusal::TableTooLarge => 9,
            Refusal::MissingSlot => 10,
            Refusal::TooLong => 11,
            Refusal::Store(_) => 12,
            Refusal::Full => 13,
        }
    }
}
