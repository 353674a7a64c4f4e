// Where the values of the open table lie.
ghost use Rattle.std.specs.Prelude.{◌≤◌, length};
ghost use Rattle.tables.specs.Records.{Once, Slots};

use arrayvec::ArrayVec;
use model::field_loc::FieldLoc;

pub mod methods;

pub const SLOTS: usize = 256;

// No slot is recorded twice, and each stands: it is even, from 4 to 65,532.
#[derive(Drop)]
pub struct FieldLocs {
    pub(crate) items: ArrayVec<FieldLoc, SLOTS>,
    ghost few: { length items.items ≤ 256 },
    ghost once: { Once items.items },
    ghost slots: { Slots items.items },
}
