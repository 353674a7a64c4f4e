ghost use Rattle.std.specs.Prelude.{◌≡◌, ◌+◌, ◌<◌, ◌≤◌, true, length, take, slice_index};
ghost use Rattle.model.specs.Tables.{equal_object, vtable_bytes, vtable_length};
ghost use Rattle.space.specs.Taken.{Placed};
ghost use Rattle.std.specs.Str.{bytes_eq};
ghost use Rattle.tables.specs.Fields.{fields, offsets};
ghost use Rattle.tables.specs.Writing.{vtable_of, Rewritten};
ghost use Rattle.wire.specs.Bytes.{last};
ghost use Rattle.wire.specs.Words.{le};

use super::VTableWriter;
use crate::field_locs::FieldLocs;
use crate::offsets::Offsets;
use space::Space;
use store::allocator::Allocator;

impl<'a> VTableWriter<'a> {
    pub(crate) fn new(field_locs: &'a FieldLocs, table: usize, size: u16) -> VTableWriter<'a>
        ensures field_locs { result.field_locs.now ≡ field_locs.now }
        ensures table { result.table ≡ table }
        ensures size { result.size ≡ size }
    {
        let len = get_vtable_byte_len(field_locs);
        VTableWriter {
            field_locs,
            table,
            size,
            len,
        }
    }

    // How long the vtable is.
    pub(crate) fn len(&self) -> usize
        ensures value { result ≡ length (vtable_of self.now) }
        ensures bound { result ≤ 65534 }
    {
        self.len
    }

    // A byte of the vtable.
    fn byte(&self, i: usize) -> u8
        requires { i < self.now.len }
        ensures { result ≡ slice_index (vtable_of self.now) i }
    {
        let word = if i < 2 {
            self.len
        } else if i < 4 {
            self.size as usize
        } else {
            self.field_locs.distance(self.table, (i / 2 * 2) as u16)
        };
        word.to_le_bytes()[i % 2]
    }

    // Whether the object at the offset begins with the bytes of the vtable.
    fn stands_at<S: Allocator>(&self, space: &Space<S>, off: u32) -> bool
        ensures { result ≡ bytes_eq (take (length (vtable_of self.now)) (last off space.now.taken)) (vtable_of self.now) }
    {
        let used = space.used();
        let start = used.saturating_sub(off as usize);
        used - start >= self.len && (0..self.len).all(|i| self.byte(i) == space.byte(start + i))
    }

    // The first offset whose object begins with the bytes of the vtable: an equal one.
    pub(crate) fn find<S: Allocator>(&self, space: &Space<S>, vtables: &Offsets) -> Option<u32>
        ensures { result ≡ equal_object space.now.taken (vtable_of self.now) (offsets vtables.now) }
    {
        // A loop by a rule of this project: a search among written objects.
        for vtable in vtables.items.as_slice() {
            if self.stands_at(space, *vtable) {
                return Some(*vtable);
            }
        }
        None
    }

    // Puts the vtable in front of the used bytes, which have room for it.
    pub(crate) fn write<S: Allocator>(&self, space: &mut Space<S>)
        requires { self.now.len ≤ length space.old.rest }
        ensures { Placed space.old space.new true (vtable_of self.now) }
    {
        let _ = space.put_zeros(self.len);
        write_word(space, 0, self.len);
        write_word(space, 2, self.size as usize);
        for loc in self.field_locs.items.as_slice() {
            write_word(
                space,
                loc.id as usize,
                self.table.saturating_sub(loc.off as usize),
            );
        }
    }
}

// How long the vtable is: the largest recorded slot plus 2, or 4.
fn get_vtable_byte_len(field_locs: &FieldLocs) -> usize
    ensures { result ≡ vtable_length (fields field_locs.now) }
{
    // A loop by a rule of this project: a walk over the records.
    let mut len: usize = 4;
    for loc in field_locs.items.as_slice() {
        len = len.max(loc.id as usize + 2);
    }
    len
}

// Writes a word of two bytes over used ones, of a number as much as two bytes can say.
fn write_word<S: Allocator>(space: &mut Space<S>, i: usize, word: usize)
    requires { i + 2 ≤ length space.old.taken }
    ensures { Rewritten space.old space.new i (le 2 word) }
{
    let _ = space.replace(i, &word.to_le_bytes()[..2]);
}
