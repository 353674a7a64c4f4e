ghost use Rattle.std.specs.Prelude.{◌≡◌, ◌+◌, [], ◌++◌, length};
ghost use Rattle.builder.specs.View.{view};
ghost use Rattle.model.specs.Calls.{said, these, Call};
ghost use Rattle.model.specs.Steps.{after, answered};
ghost use Rattle.space.specs.Taken.{parts_of, Released};

use crate::builder::FlatBufferBuilder;
use crate::inner::Open;
use store::allocator::{Allocator, Contiguous};
use wire::refusal::Refusal;

impl<S: Allocator> FlatBufferBuilder<S> {
    // Zeroes the used bytes and gives them back; forgets all but whether defaults are forced.
    pub fn reset(&mut self)
        ensures state { view self.new ≡ after Call.reset (view self.old) }
        ensures store { Released self.old.space self.new.space (length self.old.space.taken) [] }
    {
        let used = self.space.used();
        self.space.release(used);
        self.inner.field_locs.clear();
        self.inner.written_vtable_revpos.clear();
        self.inner.strings_pool.clear();
        self.inner.nest = Open::Nothing;
        self.inner.finished = false;
        self.inner.min_align = 0;
    }

    // How many vtables were written since the reset; none once the buffer is finished.
    pub fn num_written_vtables(&self) -> usize
        ensures { result ≡ length (view self.now).vtables }
    {
        self.inner.written_vtable_revpos.len()
    }

    // The store, lent as it is: its list is the unused front and then the used bytes.
    pub fn allocator(&self) -> &S
        ensures parts { self.now.space ≡ parts_of S.Allocator.list S.Allocator.limit result.now (length self.now.space.taken) }
        ensures store { result.now ≡ self.now.space.allocator }
        ensures list { S.Allocator.list result.now ≡ self.now.space.rest ++ self.now.space.taken }
        ensures limit { S.Allocator.limit result.now ≡ self.now.space.limit }
    {
        self.space.allocator()
    }

    // The store, and where in its list the used bytes begin.
    pub fn collapse_in(self) -> (S, usize)
        ensures store { result.0 ≡ self.space.allocator }
        ensures list { S.Allocator.list result.0 ≡ self.space.rest ++ self.space.taken }
        ensures limit { S.Allocator.limit result.0 ≡ self.space.limit }
        ensures index { result.1 ≡ length self.space.rest }
    {
        let FlatBufferBuilder { space, inner: _ } = self;
        let index = space.room();
        (space.into_allocator(), index)
    }
}

impl<S: Contiguous> FlatBufferBuilder<S> {
    // The bytes of the finished buffer.
    pub fn finished_data(&self) -> Result<&[u8], Refusal<S::Error>>
        ensures { said (λ x. these x.now) result ≡ answered Call.finished_data (view self.now) }
    {
        if !self.inner.finished {
            return Err(Refusal::NotFinished);
        }
        Ok(self.space.as_slice())
    }

    // The used bytes, finished or not.
    pub fn unfinished_data(&self) -> &[u8]
        ensures { result.now ≡ (view self.now).used }
    {
        self.space.as_slice()
    }
}
