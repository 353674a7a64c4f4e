// A store made of another one, of which at most so many bytes may be used.
ghost use Rattle.std.specs.Prelude.{◌≡◌, min, length, is_ok, nat_le};
ghost use Rattle.wire.specs.Bytes.{last};
ghost use Rattle.wire.proofs.Lists.{last_within};
ghost use Rattle.store.specs.Growth.{Grown};
ghost use Rattle.store.specs.Quotas.{says_reached, Below};

use crate::allocator::{Allocator, Contiguous};
use wire::range::inside;

// The list is the last `quota` bytes of the store below, or all where there are fewer.
#[derive(Drop)]
pub struct Quota<S: Allocator> {
    store: S,
    quota: usize,
}

// Why a store under a quota does not grow.
#[derive(Clone, Copy, PartialEq, Eq, Debug, Drop)]
pub enum QuotaError<E> {
    // The quota is reached.
    Reached,
    // The store below refused.
    Store(E),
}

impl<S: Allocator> Quota<S> {
    pub fn new(store: S, quota: usize) -> Quota<S>
        ensures store { result.store ≡ store }
        ensures quota { result.quota ≡ quota }
    {
        Quota { store, quota }
    }
}

impl<S: Allocator> Allocator for Quota<S> {
    type Error = QuotaError<S::Error>;

    ghost list = { λ s. last s.quota (S.Allocator.list s.store) };

    ghost limit = { λ s. min s.quota (S.Allocator.limit s.store) };

    ghost within = { λ s. last_within s.quota (S.Allocator.list s.store) (S.Allocator.limit s.store) (S.Allocator.within s.store) };

    fn len(&self) -> usize {
        self.store.len().min(self.quota)
    }

    fn at(&self, i: usize) -> Option<u8> {
        let below = self.store.len();
        let len = below.min(self.quota);
        if i < len {
            self.store.at(below - len + i)
        } else {
            None
        }
    }

    fn put(&mut self, start: usize, bytes: &[u8]) -> bool {
        let below = self.store.len();
        let len = below.min(self.quota);
        if !inside(start, bytes.len(), len) {
            return false;
        }
        self.store.put(below - len + start, bytes)
    }

    fn grow_downwards(&mut self) -> Result<(), QuotaError<S::Error>>
        ensures grown { Grown (last self.old.quota (S.Allocator.list self.old.store)) (min self.old.quota (S.Allocator.limit self.old.store)) (last self.new.quota (S.Allocator.list self.new.store)) (min self.new.quota (S.Allocator.limit self.new.store)) (is_ok result) }
        ensures reached { says_reached result ≡ nat_le self.old.quota (length (S.Allocator.list self.old.store)) }
        ensures quota { self.new.quota ≡ self.old.quota }
        ensures below { Below result (self.new.store ≡ self.old.store) (Grown (S.Allocator.list self.old.store) (S.Allocator.limit self.old.store) (S.Allocator.list self.new.store) (S.Allocator.limit self.new.store) (is_ok result)) }
    {
        if self.quota <= self.store.len() {
            return Err(QuotaError::Reached);
        }
        self.store.grow_downwards().map_err(QuotaError::Store)
    }
}

impl<S: Contiguous> Contiguous for Quota<S> {
    fn as_slice(&self) -> &[u8] {
        let below = self.store.as_slice();
        let len = below.len().min(self.quota);
        &below[below.len() - len..]
    }
}
