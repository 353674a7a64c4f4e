// A string: a vector of bytes, which are UTF-8.
ghost use Rattle.std.specs.Prelude.{◌≡◌, true};
ghost use Rattle.wire.specs.Utf8.{well_formed};
ghost use Rattle.views.specs.Views.{text_bytes};

use crate::vector::Vector;

pub mod methods;

#[derive(Clone, Copy)]
pub struct Text<'a> {
    pub(crate) bytes: Vector<'a, u8>,
    ghost single: { bytes.size ≡ 1 },
    ghost utf8: { well_formed (text_bytes bytes.buf.now bytes.loc) ≡ true },
}
