// What lies in an input at a position, and what is read of it.
ghost use Rattle.std.specs.Prelude.{◌≡◌, ℕ, ◌<◌, List, IfSome, Option};
ghost use Rattle.std.specs.Borrow.{Bor};
ghost use Rattle.std.specs.Option.{option_map};

use kinds::Kind;

// What can be read at a position. `Meaning` is what a value says apart from where it is kept, `reads` what
// the bytes say at a position, and `borrows` how a value refers to the caller's bytes.
pub trait Follow<'a> {
    type Inner;

    ghost Meaning: { Type 0 };

    ghost means: { Self.Inner → Meaning };

    ghost reads: { List ℕ → ℕ → Option Meaning };

    ghost borrows: { Bor (List ℕ) → Self.Inner → Type 0 };

    fn follow(buf: &'a [u8], loc: usize) -> Option<Self::Inner>
        ensures value { option_map means result ≡ reads buf.now loc }
        ensures borrowed { IfSome result (borrows buf.entry) };
}

// What a vector can hold: each element takes as many bytes.
pub trait Element {
    ghost size: { ℕ };

    ghost sized: { 0 < size };

    fn size() -> usize
        ensures { result ≡ size };
}

// A kind whose values stand in line, in a table's object or a vector, and are copied out of the bytes.
pub trait Inline: Kind {}

impl<'a, T: Inline> Follow<'a> for T {
    type Inner = T::Inner;

    ghost Meaning = { T.Inner };

    ghost means = { λ x. x };

    ghost reads = { T.Kind.meaning.reads };

    ghost borrows = { λ _ _. Unit {0} };

    fn follow(buf: &'a [u8], loc: usize) -> Option<T::Inner> {
        T::follow(buf, loc)
    }
}

impl<T: Inline> Element for T {
    ghost size = { T.Kind.meaning.size };

    ghost sized = { T.Kind.lawful.sized };

    fn size() -> usize {
        T::size()
    }
}
