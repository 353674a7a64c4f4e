ghost use Rattle.std.specs.Prelude.{◌≡◌, ℕ, ◌+◌, List, is_some, IfSome};
ghost use Rattle.views.specs.Views.{text_bytes, text_stands, text_of};

use super::Text;
use crate::follow::Follow;
use crate::vector::Vector;
use kinds::names::Str;
use std::str::from_utf8_unchecked;
use wire::utf8::is_utf8;

impl<'a> Text<'a> {
    // The string at `loc`; nothing where it leaves the input or is not UTF-8.
    pub fn new(buf: &'a [u8], loc: usize) -> Option<Text<'a>>
        ensures test { is_some result ≡ text_stands buf.now loc }
        ensures some { IfSome result (λ t. (t.bytes.buf ≡ buf.entry) × (t.bytes.loc ≡ loc)) }
    {
        let bytes = Vector::<u8>::new(buf, loc)?;
        // `then_some` would build the text before its bytes were looked at.
        if !is_utf8(bytes.bytes()) {
            return None;
        }
        Some(Text { bytes })
    }

    // That part of the caller's input.
    pub fn as_bytes(&self) -> &'a [u8]
        ensures value { result.now ≡ text_bytes self.now.bytes.buf.now self.now.bytes.loc }
        ensures place { result.ref_ptr ≡ (self.now.bytes.buf.ref_ptr.0, self.now.bytes.buf.ref_ptr.1 + (self.now.bytes.loc + 4)) }
    {
        self.bytes.bytes()
    }

    // The same as text. (The library does not say where a `&str` lies.)
    pub fn as_str(&self) -> &'a str
        ensures { result.now ≡ text_bytes self.now.bytes.buf.now self.now.bytes.loc }
    {
        let bytes = self.as_bytes();
        // SAFETY: the type keeps that the bytes are UTF-8.
        unsafe { from_utf8_unchecked(bytes) }
    }
}

impl<'a> Follow<'a> for Str {
    type Inner = Text<'a>;

    ghost Meaning = { List ℕ };

    ghost means = { λ t. text_bytes t.bytes.buf.now t.bytes.loc };

    ghost reads = { text_of };

    ghost borrows = { λ b t. t.bytes.buf ≡ b };

    fn follow(buf: &'a [u8], loc: usize) -> Option<Text<'a>> {
        Text::new(buf, loc)
    }
}
