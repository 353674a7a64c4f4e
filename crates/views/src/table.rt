// A table: a signed word that leads to its vtable, and then the values that stand in line.
ghost use Rattle.std.specs.Prelude.{◌≡◌, true};
ghost use Rattle.views.specs.Views.{table_inside};

pub mod identifier;
pub mod methods;

#[derive(Clone, Copy)]
pub struct Table<'a> {
    pub(crate) buf: &'a [u8],
    pub(crate) loc: usize,
    ghost inside: { table_inside buf.now loc ≡ true },
}
