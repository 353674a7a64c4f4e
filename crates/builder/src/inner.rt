// What a builder knows besides its bytes.
use tables::field_locs::FieldLocs;
use tables::offsets::Offsets;

pub mod checks;

// What is under construction: a table that began at an offset, or a vector that did, of `count` elements of `size` bytes.
#[derive(Clone, Copy)]
pub enum Open {
    Nothing,
    Table(u32),
    Vector {
        start: u32,
        size: usize,
        count: usize,
    },
}

#[derive(Drop)]
pub struct Inner {
    pub field_locs: FieldLocs,
    pub written_vtable_revpos: Offsets,
    pub strings_pool: Offsets,
    pub nest: Open,
    pub finished: bool,
    pub min_align: usize,
    pub force_defaults: bool,
}
