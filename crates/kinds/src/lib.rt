// Kinds of element: what a value pushes, and what is read of it.
#![tactic(auto)]

ghost use Rattle.std.specs.Prelude.{◌≡◌, ◌+◌, T, drop};
ghost use Rattle.wire.specs.Bytes.{filled};
ghost use Rattle.wire.specs.Kind.{Meaning, Law};

pub mod endian_scalar;
pub mod follow;
pub mod names;
pub mod primitives;
pub mod push;

// A kind has Rust's `Push` and `Follow` in one, so that its law stands in it.
pub trait Kind {
    // what is read of a value
    type Inner;

    ghost meaning: { Meaning Self Self.Inner };

    // what was pushed reads back
    ghost lawful: { Law meaning };

    fn size() -> usize
        ensures { result ≡ meaning.size };

    fn alignment() -> usize
        ensures { result ≡ meaning.alignment };

    // The offset that the value is, if it is one.
    fn offset(&self) -> Option<u32>
        ensures { result ≡ meaning.offset self.now };

    // Writes the bytes that the value has in front of `used` bytes, those from `from` on,
    // over the beginning of `dst`, as far as both go.
    fn push(&self, dst: &mut [u8], used: usize, from: usize)
        ensures bytes { dst.new ≡ filled dst.old (drop from (meaning.bytes self.now used)) }
        ensures fits { T (meaning.fits self.now) };

    // Reads a value at a position; nothing where it leaves the input.
    fn follow(buf: &[u8], loc: usize) -> Option<Self::Inner>
        ensures { result ≡ meaning.reads buf.now loc };

    // Numeric equality: a NaN equals nothing, and -0.0 equals 0.0. A method of its own, since `==` is known to be
    // that only of values that the machine holds, which a bound does not say.
    fn equals(&self, other: &Self) -> bool
        ensures { result ≡ meaning.equal self.now other.now };
}
