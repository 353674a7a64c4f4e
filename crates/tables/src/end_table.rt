// The end of a table.
ghost use Rattle.std.specs.Prelude.{◌≡◌, ◌+◌, ◌-◌, ◌≤◌, [], ◌∷◌, ◌++◌, length, is_ok, None, Some, true, if◌then◌else◌, nat_lt};
ghost use Rattle.model.specs.Tables.{signed, table_bytes, table_offset, table_returns, table_tests, table_vtables, word_padding};
ghost use Rattle.space.specs.Taken.{Fronted, Placed};
ghost use Rattle.tables.specs.Fields.{fields, offsets};
ghost use Rattle.tables.specs.Ends.{ended_vtable, equal_vtable};
ghost use Rattle.tables.specs.Writing.{vtable_of};
ghost use Rattle.wire.specs.Answers.{by_store, decided, told, Asked};
ghost use Rattle.wire.specs.Bytes.{zeros};
ghost use Rattle.wire.specs.Words.{le};

use crate::field_locs::FieldLocs;
use crate::offsets::Offsets;
use crate::vtable_writer::VTableWriter;
use space::{MAX_SIZE, Space};
use store::allocator::Allocator;
use wire::refusal::Refusal;

// The offset of a table that ends now, unless it has 65,536 bytes or more.
fn offset_of(used: usize, start: u32) -> Option<usize>
    ensures { result ≡ (if nat_lt 65535 (table_offset used - start) then None else Some (table_offset used)) }
{
    let most = start as usize + 65535;
    if used > most {
        return None;
    }
    let table = (used + 4).next_multiple_of(4);
    (table <= most).then_some(table)
}

// Puts the vtable, the table's word, which leads to the offset `to`, and the word's padding in front of the used bytes, which have room for them.
fn put_table<S: Allocator>(space: &mut Space<S>, vtable: &VTableWriter, to: u32)
    requires table { vtable.now.table ≡ table_offset (length space.old.taken) }
    requires small { vtable.now.table ≤ 2147483647 }
    requires room { vtable.now.table + vtable.now.len ≤ length space.old.taken + length space.old.rest }
    ensures { Placed space.old space.new true (vtable_of vtable.now ++ (le 4 (signed to vtable.now.table) ++ zeros (word_padding (length space.old.taken)))) }
{
    let word = to.wrapping_sub(vtable.table as u32);
    let _ = space.put_zeros(vtable.table - 4 - space.used());
    let _ = space.put_front(&word.to_le_bytes());
    vtable.write(space);
}

// Writes the word of the table that began at `start`, and its vtable unless an equal one is written already; answers the table's offset.
pub fn end_table<S: Allocator>(
    space: &mut Space<S>,
    field_locs: &FieldLocs,
    vtables: &mut Offsets,
    start: u32,
) -> Result<u32, Refusal<S::Error>>
    ensures answer { told result ≡ decided (table_tests start (fields field_locs.now) space.old.taken (offsets vtables.old) space.old.limit) (table_offset (length space.old.taken)) }
    ensures used { space.new.taken ≡ (if is_ok result then table_bytes (length space.old.taken) (ended_vtable space.old field_locs.now start) (equal_vtable space.old field_locs.now start vtables.old) else []) ++ space.old.taken }
    ensures vtables { offsets vtables.new ≡ (if is_ok result then table_vtables (length space.old.taken) (ended_vtable space.old field_locs.now start) (offsets vtables.old) (equal_vtable space.old field_locs.now start vtables.old) else offsets vtables.old) }
    ensures store { Asked result (Fronted space.old space.new (table_offset (length space.old.taken) + length (ended_vtable space.old field_locs.now start)) (if is_ok result then table_returns (ended_vtable space.old field_locs.now start) (equal_vtable space.old field_locs.now start vtables.old) else 0) (by_store result)) (space.new ≡ space.old) }
{
    let used = space.used();
    let table = offset_of(used, start).ok_or_else(|| Refusal::TableTooLarge)?;
    let size = table.saturating_sub(start as usize) as u16;
    let vtable = VTableWriter::new(field_locs, table, size);
    let found = vtable.find(space, vtables);
    let off = table + vtable.len();
    let end = if found.is_some() { table } else { off };
    if end > MAX_SIZE {
        return Err(Refusal::TooLong);
    }
    // the vtable is written even where an equal one stands, and then given back
    space.make_space(off - used).map_err(Refusal::Store)?;
    match found {
        Some(to) => {
            put_table(space, &vtable, to);
            space.release(vtable.len());
        }
        None => {
            if !vtables.push(off as u32) {
                return Err(Refusal::Full);
            }
            put_table(space, &vtable, off as u32);
        }
    }
    Ok(table as u32)
}
