ghost use Rattle.std.specs.Prelude.{◌≡◌, ◌+◌, is_some, IfSome};
ghost use Rattle.wire.specs.Words.{word};
ghost use Rattle.views.specs.Views.{vtable_inside, vtable_bytes, slot_value, object_size, field_count, slot_of_field, field_of_slot};

use super::VTable;
use kinds::follow::{array_at, contains};
use wire::slot::valid_slot;
use wire::words::read_u16;

impl<'a> VTable<'a> {
    // The vtable at `loc`; nothing where it leaves the input.
    pub fn init(buf: &'a [u8], loc: usize) -> Option<VTable<'a>>
        ensures test { is_some result ≡ vtable_inside buf.now loc }
        ensures some { IfSome result (λ v. (v.buf ≡ buf.entry) × (v.loc ≡ loc)) }
    {
        let len = u16::from_le_bytes(array_at(buf, loc)?);
        if !contains(buf, loc, len as usize) {
            return None;
        }
        Some(VTable { buf, loc })
    }

    // The number of slots.
    pub fn num_fields(&self) -> usize
        ensures { result ≡ field_count self.now.buf.now self.now.loc }
    {
        (self.num_bytes() / 2).saturating_sub(2)
    }

    // The vtable's own length.
    pub fn num_bytes(&self) -> usize
        ensures { result ≡ word 2 self.now.buf.now self.now.loc }
    {
        read_u16(self.buf, self.loc) as usize
    }

    // The size of the table's object; 0 where the vtable is too short to say it.
    pub fn object_inline_num_bytes(&self) -> usize
        ensures { result ≡ object_size self.now.buf.now self.now.loc }
    {
        if self.num_bytes() < 4 {
            0
        } else {
            read_u16(self.buf, self.loc + 2) as usize
        }
    }

    // The distance that a slot stores; 0 at what is no slot, and beyond the vtable's length.
    pub fn get(&self, byte_loc: u16) -> u16
        ensures { result ≡ slot_value self.now.buf.now self.now.loc byte_loc }
    {
        if !valid_slot(byte_loc) || byte_loc as usize + 2 > self.num_bytes() {
            return 0;
        }
        read_u16(self.buf, self.loc + byte_loc as usize)
    }

    // That part of the caller's input.
    pub fn as_bytes(&self) -> &'a [u8]
        ensures value { result.now ≡ vtable_bytes self.now.buf.now self.now.loc }
        ensures place { result.ref_ptr ≡ (self.now.buf.ref_ptr.0, self.now.buf.ref_ptr.1 + self.now.loc) }
    {
        &self.buf[self.loc..self.loc + self.num_bytes()]
    }
}

// The slot of a field; nothing where it passes 16 bits.
pub fn field_index_to_field_offset(field_id: u16) -> Option<u16>
    ensures { result ≡ slot_of_field field_id }
{
    field_id.checked_add(2)?.checked_mul(2)
}

// The field of a slot; nothing before the first.
pub fn field_offset_to_field_index(field_o: u16) -> Option<u16>
    ensures { result ≡ field_of_slot field_o }
{
    (field_o / 2).checked_sub(2)
}
