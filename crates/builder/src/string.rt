ghost use Rattle.std.specs.Prelude.{◌≡◌, ◌+◌};
ghost use Rattle.builder.specs.View.{Did};
ghost use Rattle.model.specs.Calls.{Call, Reply};

use crate::builder::FlatBufferBuilder;
use store::allocator::Allocator;
use vectors::string::create_byte_string;
use wire::refusal::Refusal;
use wire::utf8::is_utf8;

impl<S: Allocator> FlatBufferBuilder<S> {
    // Writes bytes as a string, and answers its offset.
    pub fn create_byte_string(&mut self, text: &[u8]) -> Result<u32, Refusal<S::Error>>
        ensures { Did Reply.at (Call.create_byte_string text.now) self.old self.new result }
    {
        self.inner.assert_not_nested()?;
        let off = create_byte_string(&mut self.space, text)?;
        self.inner.track_min_align(4);
        Ok(off)
    }

    // Writes text as a string, and answers its offset.
    pub fn create_string(&mut self, text: &[u8]) -> Result<u32, Refusal<S::Error>>
        ensures { Did Reply.at (Call.create_string text.now) self.old self.new result }
    {
        self.inner.assert_not_nested()?;
        if !is_utf8(text) {
            return Err(Refusal::Text);
        }
        self.create_byte_string(text)
    }
}
