// Offsets of objects written since the reset.
ghost use Rattle.std.specs.Prelude.{◌≤◌, length};

use crate::field_locs::SLOTS;
use arrayvec::ArrayVec;

pub mod methods;
pub mod reads;

// As many as a table has slots.
pub const ENTRIES: usize = SLOTS;

#[derive(Drop)]
pub struct Offsets {
    pub(crate) items: ArrayVec<u32, ENTRIES>,
    ghost few: { length items.items ≤ 256 },
}
