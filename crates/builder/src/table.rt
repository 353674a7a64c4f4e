ghost use Rattle.std.specs.Prelude.{◌≡◌, ◌+◌};
ghost use Rattle.builder.specs.View.{Did};
ghost use Rattle.model.specs.Calls.{Call, Reply};

use crate::builder::FlatBufferBuilder;
use crate::inner::Open;
use store::allocator::Allocator;
use tables::end_table::end_table;
use wire::refusal::Refusal;

impl<S: Allocator> FlatBufferBuilder<S> {
    // Ends the table that began at an offset, and answers its own.
    pub fn end_table(&mut self, start: u32) -> Result<u32, Refusal<S::Error>>
        ensures { Did Reply.at (Call.end_table start) self.old self.new result }
    {
        self.inner.assert_not_finished()?;
        match self.inner.nest {
            Open::Table(begun) if start == begun => {}
            _ => return Err(Refusal::NotOpen),
        }
        let off = end_table(
            &mut self.space,
            &self.inner.field_locs,
            &mut self.inner.written_vtable_revpos,
            start,
        )?;
        self.inner.nest = Open::Nothing;
        self.inner.track_min_align(4);
        Ok(off)
    }
}
