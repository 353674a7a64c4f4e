ghost use Rattle.std.specs.Prelude.{◌≡◌, ◌+◌};
ghost use Rattle.builder.specs.View.{Did};
ghost use Rattle.model.specs.Calls.{Call, Reply};

use crate::builder::FlatBufferBuilder;
use store::allocator::Allocator;
use tables::offsets::ENTRIES;
use vectors::string::{create_byte_string, room_for_string};
use wire::refusal::Refusal;
use wire::utf8::is_utf8;

impl<S: Allocator> FlatBufferBuilder<S> {
    // The offset of an equal string pooled since the reset; else writes the text and pools it.
    pub fn create_shared_string(&mut self, text: &[u8]) -> Result<u32, Refusal<S::Error>>
        ensures { Did Reply.at (Call.create_shared_string text.now) self.old self.new result }
    {
        self.inner.assert_not_nested()?;
        if !is_utf8(text) {
            return Err(Refusal::Text);
        }
        if let Some(off) = self.inner.strings_pool.find_string(&self.space, text) {
            return Ok(off);
        }
        if self.inner.strings_pool.len() >= ENTRIES {
            room_for_string(&mut self.space, text)?;
            return Err(Refusal::Full);
        }
        let off = create_byte_string(&mut self.space, text)?;
        let _ = self.inner.strings_pool.push(off);
        self.inner.track_min_align(4);
        Ok(off)
    }
}
