// Elements one behind the other, of any kind.
ghost use Rattle.std.specs.Prelude.{◌≡◌, ◌+◌, ◌*◌, ◌<◌, ◌≤◌, true, map, length, is_ok, Some, Ok, slice_index_or};
ghost use Rattle.space.specs.Taken.{Placed};
ghost use Rattle.vectors.specs.Items.{item, item_layout, ItemsFit, ItemsReadBack};
ghost use Rattle.vectors.specs.Written.{Roomed, Wrote};
ghost use Rattle.wire.specs.Answers.{space_tests, start_vector_tests, vector_tests};
ghost use Rattle.wire.specs.Bytes.{zeros};
ghost use Rattle.wire.specs.Layouts.{all_stand, element, row, vector_bytes, vector_offset, vector_padding};
ghost use Rattle.wire.specs.Words.{le};

use crate::room::{padding_for, room_for};
use crate::value::{offset_stands, put_value};
use kinds::Kind;
use space::{MAX_SIZE, Space};
use store::allocator::{Allocator, Contiguous};
use wire::refusal::Refusal;

// Whether each offset among the items leads to an object in the used space.
pub fn all_offsets_stand<T: Kind>(items: &[T], used: usize) -> bool
    ensures { result ≡ all_stand (map (item T.Kind) items.now) used }
{
    items.iter().all(|item| offset_stands(item.offset(), used))
}

// Puts the items in order in front of the used bytes: the last lies next to them.
fn put_row<S: Allocator, T: Kind>(space: &mut Space<S>, items: &[T])
    requires { length items.now * T.Kind.meaning.size ≤ length space.old.rest }
    ensures placed { Placed space.old space.new true (row (map (item T.Kind) items.now) (length space.old.taken)) }
    ensures fit { ItemsFit T.Kind items.now }
{
    for item in items.iter().rev() {
        let _ = put_value(space, item);
    }
}

// Makes room for a vector of the items, and answers how many zero bytes go behind it.
fn room_for_vector<S: Allocator, T: Kind>(
    space: &mut Space<S>,
    items: &[T],
) -> Result<usize, Refusal<S::Error>>
    ensures { Roomed space.old space.new result (vector_tests (item_layout T.Kind) (map (item T.Kind) items.now) (length space.old.taken) space.old.limit) (vector_padding (length space.old.taken) (length items.now * T.Kind.meaning.size) T.Kind.meaning.alignment) (vector_padding (length space.old.taken) (length items.now * T.Kind.meaning.size) T.Kind.meaning.alignment + length items.now * T.Kind.meaning.size + 4) }
{
    if !all_offsets_stand(items, space.used()) {
        return Err(Refusal::Offset);
    }
    // a product that no number holds is too long as well
    let size = items.len().saturating_mul(T::size());
    room_for(space, size, T::alignment().max(4), 4)
}

// Writes the items as a vector, and answers the used space: the offset of its count.
pub fn create_vector<S: Allocator, T: Kind>(
    space: &mut Space<S>,
    items: &[T],
) -> Result<u32, Refusal<S::Error>>
    ensures wrote { Wrote space.old space.new result (vector_tests (item_layout T.Kind) (map (item T.Kind) items.now) (length space.old.taken) space.old.limit) (vector_offset (item_layout T.Kind) (map (item T.Kind) items.now) (length space.old.taken)) (vector_bytes (item_layout T.Kind) (map (item T.Kind) items.now) (length space.old.taken)) }
    ensures fit { is_ok result ≡ true → ItemsFit T.Kind items.now }
{
    let pad = room_for_vector(space, items)?;
    let _ = space.put_zeros(pad);
    put_row(space, items);
    let _ = space.put_front(&(items.len() as u32).to_le_bytes());
    Ok(space.used() as u32)
}

// Puts the padding behind a vector of `count` elements, which are then pushed one by one, the last first.
pub fn start_vector<S: Allocator, T: Kind>(
    space: &mut Space<S>,
    count: usize,
) -> Result<(), Refusal<S::Error>>
    ensures { Wrote space.old space.new result (start_vector_tests (item_layout T.Kind) count (length space.old.taken) space.old.limit) tt (zeros (vector_padding (length space.old.taken) (count * T.Kind.meaning.size) T.Kind.meaning.alignment)) }
{
    // a product that no number holds is too long as well
    let size = count.saturating_mul(T::size());
    let pad = padding_for(space.used(), size, T::alignment().max(4), 4).ok_or_else(
        || Refusal::TooLong,
    )?;
    space.prepend_zeros(pad).map_err(Refusal::Store)
}

// Puts a count in front of a vector's elements, and answers the used space: the vector's offset.
pub fn end_vector<S: Allocator>(
    space: &mut Space<S>,
    count: usize,
) -> Result<u32, Refusal<S::Error>>
    ensures { Wrote space.old space.new result (space_tests (length space.old.taken + 4) space.old.limit) (length space.old.taken + 4) (le 4 count) }
{
    if space.used() > MAX_SIZE - 4 {
        return Err(Refusal::TooLong);
    }
    space
        .prepend(&count.to_le_bytes()[..4])
        .map_err(Refusal::Store)?;
    Ok(space.used() as u32)
}

// The element `i` of the `count` elements that begin at `start`.
pub fn get<T: Kind>(buf: &[u8], start: usize, count: usize, i: usize) -> Option<T::Inner>
    ensures { result ≡ element T.Kind.meaning buf.now start count i }
{
    if i >= count {
        return None;
    }
    let loc = start.checked_add(i.checked_mul(T::size())?)?;
    T::follow(buf, loc)
}

// What `create_vector` writes, `get` reads back, of every kind.
pub fn reads_back<T: Kind>() -> bool
    ensures { ItemsReadBack T.Kind }
{
    true
}

// Writes the items as a vector and reads one of them back from the store.
pub fn create_and_get<S: Contiguous, T: Kind>(
    space: &mut Space<S>,
    items: &[T],
    i: usize,
) -> Result<Option<T::Inner>, Refusal<S::Error>>
    ensures { (d : T) → is_ok result ≡ true → i < length items.now → result ≡ Ok (Some (T.Kind.meaning.shown (slice_index_or items.now i d) (length space.new.taken))) }
{
    create_vector(space, items)?;
    Ok(get::<T>(space.as_slice(), 4, items.len(), i))
}
