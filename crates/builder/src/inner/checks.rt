ghost use Rattle.std.specs.Prelude.{◌≡◌, if◌then◌else◌, Ok, Err};
ghost use Rattle.builder.specs.Inner.{is_nothing, is_table, met_at_least};
ghost use Rattle.wire.specs.Slots.{slot_stands};
ghost use Rattle.wire.specs.declared.refusal.Refusal.TheVariants.{Finished, Nested, NotOpen, Slot};

use super::{Inner, Open};
use wire::refusal::Refusal;
use wire::slot::valid_slot;

impl Inner {
    // Refuses a finished buffer.
    pub(crate) fn assert_not_finished<E>(&self) -> Result<(), Refusal<E>>
        ensures { result ≡ (if self.now.finished then Err Finished else Ok tt) }
    {
        if self.finished {
            Err(Refusal::Finished)
        } else {
            Ok(())
        }
    }

    // Refuses a finished buffer, and one in which a table or vector is open.
    pub(crate) fn assert_not_nested<E>(&self) -> Result<(), Refusal<E>>
        ensures { result ≡ (if self.now.finished then Err Finished else if is_nothing self.now.nest then Ok tt else Err Nested) }
    {
        self.assert_not_finished()?;
        match self.nest {
            Open::Nothing => Ok(()),
            _ => Err(Refusal::Nested),
        }
    }

    // Refuses a finished buffer, one in which no table is open, and a number that is no slot.
    pub(crate) fn assert_slot<E>(&self, slot: u16) -> Result<(), Refusal<E>>
        ensures { result ≡ (if self.now.finished then Err Finished else if is_table self.now.nest then (if slot_stands slot then Ok tt else Err Slot) else Err NotOpen) }
    {
        self.assert_not_finished()?;
        match self.nest {
            Open::Table(_) if valid_slot(slot) => Ok(()),
            Open::Table(_) => Err(Refusal::Slot),
            _ => Err(Refusal::NotOpen),
        }
    }

    // The largest alignment met is at least this one.
    pub(crate) fn track_min_align(&mut self, alignment: usize)
        ensures { self.new ≡ met_at_least alignment self.old }
    {
        self.min_align = self.min_align.max(alignment);
    }
}
