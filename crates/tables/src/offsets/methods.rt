ghost use Rattle.std.specs.Prelude.{◌≡◌, not, [], ◌∷◌, ◌++◌, length, if◌then◌else◌};
ghost use Rattle.model.specs.Tables.{no_room};
ghost use Rattle.tables.specs.Fields.{offsets};

use super::Offsets;
use arrayvec::ArrayVec;

impl Offsets {
    pub fn new() -> Offsets
        ensures { offsets result ≡ [] }
    {
        Offsets {
            items: ArrayVec::new(),
        }
    }

    // Keeps one more offset where there is room for it; else says no, as a set's `insert` does.
    pub fn push(&mut self, off: u32) -> bool
        ensures value { result ≡ not (no_room (length (offsets self.old))) }
        ensures offsets { offsets self.new ≡ (if result then offsets self.old ++ off ∷ [] else offsets self.old) }
    {
        self.items.try_push(off).is_ok()
    }

    // Forgets all offsets.
    pub fn clear(&mut self)
        ensures { offsets self.new ≡ [] }
    {
        self.items.clear();
    }
}
