// Space at the end of a store: what a builder has written so far, newest in front.
#![tactic(auto)]

ghost use Rattle.std.specs.Prelude.{◌≡◌, ◌+◌, ◌≤◌, min, true, false, [], ◌++◌, length, drop, is_ok, if◌then◌else◌, nat_le, slice_index};
ghost use Rattle.wire.specs.Bytes.{raised, written, zeros};
ghost use Rattle.space.specs.Taken.{parts_of, Spaced, Placed, Prepended, Released};

use std::marker::Model;
use store::allocator::{Allocator, Contiguous};
use wire::range::inside;

// What is written in a space stops here: each call above it tests this before it writes.
pub const MAX_SIZE: usize = 2147483647;

// Zero bytes are written in runs of this length.
const RUN: usize = 64;

// The last `used` bytes of the store are used.
#[derive(Drop)]
pub struct Space<S: Allocator> {
    allocator: S,
    used: usize,
}

impl<S: Allocator> Model for Space<S> {
    ghost use Rattle.std.specs.Prelude.{◌≤◌, length};
    ghost use Rattle.space.specs.Taken.{Parts, parts_of};

    ghost Value = { Parts S };

    ghost view = { λ s. parts_of S.Allocator.list S.Allocator.limit s.allocator s.used };

    ghost invariant = { λ s. s.used ≤ length (S.Allocator.list s.allocator) };
}

impl<S: Allocator> Space<S> {
    // Nothing of the store is used yet.
    pub fn new(allocator: S) -> Space<S>
        ensures allocator { result.allocator ≡ allocator }
        ensures rest { result.rest ≡ S.Allocator.list allocator }
        ensures taken { result.taken ≡ [] }
        ensures limit { result.limit ≡ S.Allocator.limit allocator }
    {
        Space { allocator, used: 0 }
    }

    // The store: its list is the rest and then the used bytes.
    pub fn allocator(&self) -> &S
        ensures parts { self.now ≡ parts_of S.Allocator.list S.Allocator.limit result.now (length self.now.taken) }
        ensures store { result.now ≡ self.now.allocator }
        ensures list { S.Allocator.list result.now ≡ self.now.rest ++ self.now.taken }
        ensures limit { S.Allocator.limit result.now ≡ self.now.limit }
    {
        &self.allocator
    }

    // The store, given back.
    pub fn into_allocator(self) -> S
        ensures store { result ≡ self.allocator }
        ensures list { S.Allocator.list result ≡ self.rest ++ self.taken }
        ensures limit { S.Allocator.limit result ≡ self.limit }
    {
        let Space { allocator, used: _ } = self;
        allocator
    }

    // How many bytes are used.
    pub fn used(&self) -> usize
        ensures { result ≡ length self.now.taken }
    {
        self.used
    }

    // How many bytes of the list are not used.
    pub fn room(&self) -> usize
        ensures { result ≡ length self.now.rest }
    {
        self.allocator.len() - self.used
    }

    // A used byte, 0 beyond their end.
    pub fn byte(&self, i: usize) -> u8
        ensures { result ≡ slice_index self.now.taken i }
    {
        let len = self.allocator.len();
        if i < self.used {
            self.allocator.at(len - self.used + i).unwrap_or(0)
        } else {
            0
        }
    }

    // Grows the store until `want` more bytes can be used.
    // Refuses just where the store's limit is too low, and the store then stands at its limit.
    pub fn make_space(&mut self, want: usize) -> Result<(), S::Error>
        ensures { Spaced self.old self.new (is_ok result) want }
    {
        grow_beyond(&mut self.allocator, self.used, want)
    }

    // Puts bytes in front of the used ones where the list has room for them; else says no, as the store's `put` does.
    pub fn put_front(&mut self, bytes: &[u8]) -> bool
        ensures { Placed self.old self.new result bytes.now }
    {
        let len = self.allocator.len();
        let count = bytes.len();
        if count > len - self.used {
            return false;
        }
        let _ = self.allocator.put(len - self.used - count, bytes);
        self.used += count;
        true
    }

    // Puts zero bytes in front of the used ones where the list has room for them; else says no.
    pub fn put_zeros(&mut self, count: usize) -> bool
        ensures { Placed self.old self.new result (zeros count) }
    {
        if count > self.room() {
            return false;
        }
        let run = [0; RUN];
        for _ in 0..count / RUN {
            let _ = self.put_front(&run);
        }
        let left = count % RUN;
        // no empty put: a store of the caller's own sees each
        if left == 0 {
            return true;
        }
        self.put_front(&run[..left])
    }

    // Replaces used bytes from the index `i` on, where they all lie inside the used ones; else says no.
    pub fn replace(&mut self, i: usize, bytes: &[u8]) -> bool
        ensures value { result ≡ nat_le (i + length bytes.now) (length self.old.taken) }
        ensures taken { self.new.taken ≡ (if result then written self.old.taken i bytes.now else self.old.taken) }
        ensures rest { self.new.rest ≡ self.old.rest }
        ensures limit { self.new.limit ≡ self.old.limit }
    {
        if !inside(i, bytes.len(), self.used) {
            return false;
        }
        let len = self.allocator.len();
        self.allocator.put(len - self.used + i, bytes)
    }

    // Makes room for bytes and puts them in front of the used ones.
    pub fn prepend(&mut self, bytes: &[u8]) -> Result<(), S::Error>
        ensures { Prepended self.old self.new (is_ok result) bytes.now }
    {
        self.make_space(bytes.len())?;
        let _ = self.put_front(bytes);
        Ok(())
    }

    // Makes room for zero bytes and puts them in front of the used ones.
    pub fn prepend_zeros(&mut self, count: usize) -> Result<(), S::Error>
        ensures { Prepended self.old self.new (is_ok result) (zeros count) }
    {
        self.make_space(count)?;
        let _ = self.put_zeros(count);
        Ok(())
    }

    // Zeroes the first `count` used bytes, or all where there are fewer, and gives them back.
    pub fn release(&mut self, count: usize)
        ensures { Released self.old self.new (min count (length self.old.taken)) (drop count self.old.taken) }
    {
        let back = count.min(self.used);
        self.used -= back;
        let _ = self.put_zeros(back);
        self.used -= back;
    }
}

impl<S: Contiguous> Space<S> {
    // The used bytes, as one part.
    pub fn as_slice(&self) -> &[u8]
        ensures { result.now ≡ self.now.taken }
    {
        let bytes = self.allocator.as_slice();
        &bytes[bytes.len() - self.used..]
    }
}

// Grows a store until `want` bytes stand before its last `used`.
fn grow_beyond<S: Allocator>(store: &mut S, used: usize, want: usize) -> Result<(), S::Error>
    requires { used ≤ length (S.list store.old) }
    ensures value { is_ok result ≡ nat_le (used + want) (S.limit store.old) }
    ensures list { S.list store.new ≡ raised (length (S.list store.new)) (S.list store.old) }
    ensures limit { S.limit store.new ≡ S.limit store.old }
    ensures room { is_ok result ≡ true → used + want ≤ length (S.list store.new) }
    ensures full { is_ok result ≡ false → length (S.list store.new) ≡ S.limit store.old }
    ensures enough { used + want ≤ length (S.list store.old) → S.list store.new ≡ S.list store.old }
{
    while store.len() - used < want {
        store.grow_downwards()?;
    }
    Ok(())
}
