// What a store is to the builder: a list of bytes that grows at its front, up to a limit that never changes.
ghost use Rattle.std.specs.Prelude.{◌≡◌, ℕ, ◌+◌, ◌≤◌, List, length, is_ok, if◌then◌else◌, nat_le};
ghost use Rattle.std.specs.List.{slice_get};
ghost use Rattle.wire.specs.Bytes.{written};
ghost use Rattle.store.specs.Growth.{Grown};

pub trait Allocator {
    // what a refusal to grow says
    type Error;

    // the bytes, in memory order
    ghost list: { Self → List ℕ };

    // how long the list may become
    ghost limit: { Self → ℕ };

    // the list never passes the limit: each store proves it, and what is proved for every store may use it
    ghost within: { (s : Self) → length (list s) ≤ limit s };

    // How long the list is, at most the limit.
    fn len(&self) -> usize
        ensures value { result ≡ length (list self.now) }
        ensures bound { result ≤ limit self.now };

    // The byte at `i`, or nothing beyond the end.
    fn at(&self, i: usize) -> Option<u8>
        ensures { result ≡ slice_get (list self.now) i };

    // Replaces the bytes from `start` on, where they all lie inside the list; else nothing is written.
    // A bool says so, as of a set's `insert`: there is one way to fail, and nothing to tell of it.
    fn put(&mut self, start: usize, bytes: &[u8]) -> bool
        ensures value { result ≡ nat_le (start + length bytes.now) (length (list self.old)) }
        ensures list { list self.new ≡ (if result then written (list self.old) start bytes.now else list self.old) }
        ensures limit { limit self.new ≡ limit self.old };

    // Sets one or more zero bytes in front; refuses only at the limit, and then the list is as it was.
    fn grow_downwards(&mut self) -> Result<(), Self::Error>
        ensures { Grown (list self.old) (limit self.old) (list self.new) (limit self.new) (is_ok result) };
}

// A store whose list lies in one part.
pub trait Contiguous: Allocator {
    fn as_slice(&self) -> &[u8]
        ensures { result.now ≡ Self.Allocator.list self.now };
}
