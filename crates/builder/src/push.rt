ghost use Rattle.std.specs.Prelude.{◌≡◌, ◌+◌, not};
ghost use Rattle.builder.specs.View.{Did};
ghost use Rattle.model.specs.Calls.{done, Call, Reply};
ghost use Rattle.vectors.specs.Items.{item};

use crate::builder::FlatBufferBuilder;
use kinds::Kind;
use store::allocator::Allocator;
use vectors::value::{assert_offset_stands, push_value, room_for_value};
use wire::refusal::Refusal;

impl<S: Allocator> FlatBufferBuilder<S> {
    // Pushes a value, aligned, and answers the used space.
    pub fn push<T: Kind>(&mut self, x: &T) -> Result<u32, Refusal<S::Error>>
        ensures { Did Reply.at (Call.push (item T.Kind x.now)) self.old self.new result }
    {
        self.inner.assert_not_finished()?;
        let off = push_value(&mut self.space, x)?;
        self.inner.track_min_align(T::alignment());
        Ok(off)
    }

    // Pushes a value and records it at a slot of the open table, over any earlier one.
    pub fn push_slot_always<T: Kind>(&mut self, slot: u16, x: &T) -> Result<(), Refusal<S::Error>>
        ensures { Did (λ _. done) (Call.push_slot_always slot (item T.Kind x.now)) self.old self.new result }
    {
        self.inner.assert_slot(slot)?;
        if !self.inner.field_locs.room_for(slot) {
            room_for_value(&mut self.space, x)?;
            return Err(Refusal::Full);
        }
        let off = push_value(&mut self.space, x)?;
        let _ = self.inner.field_locs.record(slot, off);
        self.inner.track_min_align(T::alignment());
        Ok(())
    }

    // Does so unless the value equals the default and defaults are not forced.
    pub fn push_slot<T: Kind>(
        &mut self,
        slot: u16,
        x: &T,
        default: &T,
    ) -> Result<(), Refusal<S::Error>>
        ensures { Did (λ _. done) (Call.push_slot slot (item T.Kind x.now) (not (T.Kind.meaning.equal x.now default.now))) self.old self.new result }
    {
        if !x.equals(default) || self.inner.force_defaults {
            return self.push_slot_always(slot, x);
        }
        self.inner.assert_slot(slot)?;
        assert_offset_stands(x.offset(), self.space.used())
    }
}
