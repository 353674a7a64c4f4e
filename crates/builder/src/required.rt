ghost use Rattle.std.specs.Prelude.{◌≡◌, ◌+◌, ◌≤◌, length};
ghost use Rattle.builder.specs.View.{view};
ghost use Rattle.model.specs.Calls.{done, said, Call};
ghost use Rattle.model.specs.Steps.{answered, slot_word, vtable_offset, vtable_stands};
ghost use Rattle.wire.specs.Words.{word};

use crate::builder::FlatBufferBuilder;
use space::Space;
use store::allocator::Allocator;
use vectors::value::offset_stands;
use wire::refusal::Refusal;
use wire::slot::valid_slot;

// The u16 at a place of the used bytes. The bytes are listed, here and below: over `array::from_fn`, which would
// serve both sizes, no proof was found.
fn read_u16<S: Allocator>(space: &Space<S>, at: usize) -> u16
    requires { at ≤ 4294967296 }
    ensures { result ≡ word 2 space.now.taken at }
{
    u16::from_le_bytes([space.byte(at), space.byte(at + 1)])
}

// The u32 at a place of the used bytes.
fn read_u32<S: Allocator>(space: &Space<S>, at: usize) -> u32
    requires { at ≤ 4294967296 }
    ensures { result ≡ word 4 space.now.taken at }
{
    u32::from_le_bytes([
        space.byte(at),
        space.byte(at + 1),
        space.byte(at + 2),
        space.byte(at + 3),
    ])
}

// Whether the vtable at an offset stands in the used bytes, of which there are `used`.
fn vtable_stands<S: Allocator>(space: &Space<S>, vtable: u32, used: usize) -> bool
    requires used { used ≡ length space.now.taken }
    requires short { used ≤ 2147483647 }
    ensures { result ≡ vtable_stands vtable space.now.taken }
{
    if !offset_stands(Some(vtable), used) || vtable < 2 {
        return false;
    }
    read_u16(space, used - vtable as usize) as u32 <= vtable
}

impl<S: Allocator> FlatBufferBuilder<S> {
    // Sees that a table that was written has a value at the slot.
    pub fn required(&self, table: u32, slot: u16) -> Result<(), Refusal<S::Error>>
        ensures { said (λ _. done) result ≡ answered (Call.required table slot) (view self.now) }
    {
        if !valid_slot(slot) {
            return Err(Refusal::Slot);
        }
        let used = self.space.used();
        if !offset_stands(Some(table), used) || table < 4 {
            return Err(Refusal::Offset);
        }
        let word = read_u32(&self.space, used - table as usize);
        let vtable = table.wrapping_add(word);
        if !vtable_stands(&self.space, vtable, used) {
            return Err(Refusal::Offset);
        }
        let at = used - vtable as usize;
        if slot >= read_u16(&self.space, at) || read_u16(&self.space, at + slot as usize) == 0 {
            return Err(Refusal::MissingSlot);
        }
        Ok(())
    }
}
