// Vtables: where the values of a table lie, by their slots.
ghost use Rattle.std.specs.Prelude.{◌≡◌};
ghost use Rattle.model.specs.Tables.{vtable_length};
ghost use Rattle.tables.specs.Fields.{fields};

use crate::field_locs::FieldLocs;

pub mod methods;

// The vtable of a table of `size` bytes at the offset `table`, with the recorded values.
#[derive(Drop)]
pub(crate) struct VTableWriter<'a> {
    pub(crate) field_locs: &'a FieldLocs,
    pub(crate) table: usize,
    pub(crate) size: u16,
    pub(crate) len: usize,
    ghost long: { len ≡ vtable_length (fields field_locs.now) },
}
