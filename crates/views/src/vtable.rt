// A table's vtable: words of two bytes, first its own length in bytes, then the size of the table's object.
ghost use Rattle.std.specs.Prelude.{◌+◌, ◌≤◌, length};
ghost use Rattle.wire.specs.Words.{word};

pub mod methods;

#[derive(Clone, Copy)]
pub struct VTable<'a> {
    pub(crate) buf: &'a [u8],
    pub(crate) loc: usize,
    ghost head: { loc + 2 ≤ length buf.now },
    ghost inside: { loc + word 2 buf.now loc ≤ length buf.now },
}
