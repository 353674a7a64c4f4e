ghost use Rattle.std.specs.Prelude.{◌≡◌, ℕ, is_some, IfSome, Some};
ghost use Rattle.std.specs.Option.{option_map};
ghost use Rattle.views.specs.Views.{table_inside, vtable_of, field_of, table_at};

use super::Table;
use crate::follow::Follow;
use crate::vtable::VTable;
use kinds::follow::array_at;
use wire::words::{led_to, read_u32};

impl<'a> Table<'a> {
    // The table at `loc`; nothing where its signed word or its vtable leaves the input.
    pub fn new(buf: &'a [u8], loc: usize) -> Option<Table<'a>>
        ensures test { is_some result ≡ table_inside buf.now loc }
        ensures some { IfSome result (λ t. (t.buf ≡ buf.entry) × (t.loc ≡ loc)) }
    {
        let place = led_to(buf, loc, u32::from_le_bytes(array_at(buf, loc)?))?;
        let _vtable = VTable::init(buf, place)?;
        Some(Table { buf, loc })
    }

    pub fn buf(&self) -> &'a [u8]
        ensures { result ≡ self.now.buf }
    {
        self.buf
    }

    pub fn loc(&self) -> usize
        ensures { result ≡ self.now.loc }
    {
        self.loc
    }

    pub fn vtable(&self) -> VTable<'a>
        ensures input { result.buf ≡ self.now.buf }
        ensures place { Some result.loc ≡ vtable_of self.now.buf.now self.now.loc }
    {
        let place = led_to(self.buf, self.loc, read_u32(self.buf, self.loc)).unwrap();
        VTable {
            buf: self.buf,
            loc: place,
        }
    }

    // The value at a slot: nothing where the slot has none or is none, or where the value cannot be read.
    pub fn get<T: Follow<'a>>(&self, slot_byte_loc: u16) -> Option<T::Inner>
        ensures value { option_map T.Follow.means result ≡ field_of T.Follow.reads self.now.buf.now self.now.loc slot_byte_loc }
        ensures borrowed { IfSome result (T.Follow.borrows self.now.buf) }
    {
        let o = self.vtable().get(slot_byte_loc) as usize;
        if o == 0 {
            return None;
        }
        T::follow(self.buf, self.loc + o)
    }
}

impl<'a> Follow<'a> for Table<'a> {
    type Inner = Table<'a>;

    ghost Meaning = { ℕ };

    ghost means = { λ t. t.loc };

    ghost reads = { table_at };

    ghost borrows = { λ b t. t.buf ≡ b };

    fn follow(buf: &'a [u8], loc: usize) -> Option<Table<'a>> {
        Table::new(buf, loc)
    }
}
