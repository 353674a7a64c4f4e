ghost use Rattle.std.specs.Prelude.{◌≡◌, ◌+◌, true, false, None};
ghost use Rattle.builder.specs.View.{Did};
ghost use Rattle.finish.specs.Given.{given};
ghost use Rattle.model.specs.Calls.{done, Call};

use crate::builder::FlatBufferBuilder;
use crate::inner::Open;
use finish::finish;
use store::allocator::Allocator;
use wire::refusal::Refusal;

impl<S: Allocator> FlatBufferBuilder<S> {
    // Finishes the buffer with a root, an identifier if one is given, and its size before it if that is asked for.
    fn finish_with_opts(
        &mut self,
        root: u32,
        file_identifier: Option<&[u8]>,
        size_prefixed: bool,
    ) -> Result<(), Refusal<S::Error>>
        ensures { Did (λ _. done) (Call.finish root (given file_identifier.entry) size_prefixed) self.old self.new result }
    {
        self.inner.assert_not_nested()?;
        finish(
            &mut self.space,
            root,
            file_identifier,
            size_prefixed,
            self.inner.min_align,
        )?;
        self.inner.track_min_align(4);
        self.inner.written_vtable_revpos.clear();
        self.inner.finished = true;
        Ok(())
    }

    // Finishes the buffer with a root, and an identifier if one is given.
    pub fn finish(
        &mut self,
        root: u32,
        file_identifier: Option<&[u8]>,
    ) -> Result<(), Refusal<S::Error>>
        ensures { Did (λ _. done) (Call.finish root (given file_identifier.entry) false) self.old self.new result }
    {
        self.finish_with_opts(root, file_identifier, false)
    }

    // The same, with a count of the bytes that follow before it.
    pub fn finish_size_prefixed(
        &mut self,
        root: u32,
        file_identifier: Option<&[u8]>,
    ) -> Result<(), Refusal<S::Error>>
        ensures { Did (λ _. done) (Call.finish root (given file_identifier.entry) true) self.old self.new result }
    {
        self.finish_with_opts(root, file_identifier, true)
    }

    // Finishes the buffer with a root alone.
    pub fn finish_minimal(&mut self, root: u32) -> Result<(), Refusal<S::Error>>
        ensures { Did (λ _. done) (Call.finish root None false) self.old self.new result }
    {
        self.finish_with_opts(root, None, false)
    }
}
