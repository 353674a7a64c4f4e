ghost use Rattle.std.specs.Prelude.{◌≡◌, not, ◌&&◌, [], length, is_some, if◌then◌else◌, ◌==◌};
ghost use Rattle.model.specs.Tables.{distance, lookup, no_room, record_slot};
ghost use Rattle.tables.specs.Fields.{fields};
ghost use Rattle.std.specs.List.{position};
ghost use Rattle.wire.specs.Slots.{slot_stands};

use super::{FieldLocs, SLOTS};
use arrayvec::ArrayVec;
use model::field_loc::FieldLoc;
use wire::slot::valid_slot;

impl FieldLocs {
    pub fn new() -> FieldLocs
        ensures { fields result ≡ [] }
    {
        FieldLocs {
            items: ArrayVec::new(),
        }
    }

    // The place of the slot's record.
    fn place(&self, slot: u16) -> Option<usize>
        ensures { result ≡ position (λ r. slot == r.id) (fields self.now) }
    {
        self.items.iter().position(|loc| loc.id == slot)
    }

    // How far the slot's value lies behind the table at the offset, or 0 where none is recorded.
    pub(crate) fn distance(&self, table: usize, slot: u16) -> usize
        ensures { result ≡ distance table (lookup slot (fields self.now)) }
    {
        self.items
            .iter()
            .find(|loc| loc.id == slot)
            .map_or(0, |loc| table.saturating_sub(loc.off as usize))
    }

    // Whether the slot can be recorded: it is already, or there is room for one more.
    pub fn room_for(&self, slot: u16) -> bool
        ensures { result ≡ not (not (is_some (lookup slot (fields self.now))) && no_room (length (fields self.now))) }
    {
        self.items.len() < SLOTS || self.place(slot).is_some()
    }

    // Records where the slot's value lies, over an earlier record of the slot; says no, as a set's `insert` does,
    // where the slot does not stand or there is no room.
    pub fn record(&mut self, slot: u16, off: u32) -> bool
        ensures value { result ≡ (slot_stands slot && not (not (is_some (lookup slot (fields self.old))) && no_room (length (fields self.old)))) }
        ensures fields { fields self.new ≡ (if result then record_slot slot off (fields self.old) else fields self.old) }
    {
        if !valid_slot(slot) {
            return false;
        }
        match self.place(slot) {
            Some(i) => {
                let loc = &mut self.items[i];
                loc.off = off;
                true
            }
            None => self.items.try_push(FieldLoc { off, id: slot }).is_ok(),
        }
    }

    // Forgets all records.
    pub fn clear(&mut self)
        ensures { fields self.new ≡ [] }
    {
        self.items.clear();
    }
}
