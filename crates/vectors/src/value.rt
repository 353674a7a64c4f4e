// One value in front of the used bytes.
ghost use Rattle.std.specs.Prelude.{◌≡◌, ◌+◌, ◌-◌, ◌≤◌, min, true, T as True, length, take, drop, is_ok, if◌then◌else◌, Ok, Err};
ghost use Rattle.space.specs.Taken.{Placed};
ghost use Rattle.vectors.specs.Items.{item};
ghost use Rattle.vectors.specs.Written.{Roomed, Wrote};
ghost use Rattle.wire.specs.Answers.{push_tests};
ghost use Rattle.wire.specs.Kind.{stands};
ghost use Rattle.wire.specs.Layouts.{push_padding, pushed_bytes, pushed_offset};
ghost use Rattle.wire.specs.declared.refusal.Refusal.TheVariants.{Offset};

use crate::room::room_for;
use kinds::Kind;
use space::Space;
use store::allocator::Allocator;
use wire::refusal::Refusal;

// Whether an offset leads to an object in the used space; what is none does.
pub fn offset_stands(offset: Option<u32>, used: usize) -> bool
    ensures { result ≡ stands offset used }
{
    offset.is_none_or(|o| 0 < o && o as usize <= used)
}

// Refuses an offset that leads to no object in the used space.
pub fn assert_offset_stands<E>(offset: Option<u32>, used: usize) -> Result<(), Refusal<E>>
    ensures { result ≡ (if stands offset used then Ok tt else Err Offset) }
{
    if offset_stands(offset, used) {
        Ok(())
    } else {
        Err(Refusal::Offset)
    }
}

// A value is written in parts of this many bytes, from its end on; the first bytes may be fewer.
const PART: usize = 8;

// Puts a value's bytes in front of the used ones where the list has room for them; else says no, as `put_front` does.
pub fn put_value<S: Allocator, T: Kind>(space: &mut Space<S>, x: &T) -> bool
    ensures placed { Placed space.old space.new result (T.Kind.meaning.bytes x.now (length space.old.taken)) }
    ensures fits { result ≡ true → True (T.Kind.meaning.fits x.now) }
{
    let used = space.used();
    if T::size() > space.room() {
        return false;
    }
    for i in 0..T::size().div_ceil(PART) {
        let _ = put_part(space, x, used, T::size() - i * PART);
    }
    true
}

// Puts one part of the value's bytes, those up to `end`, in front of the used ones.
fn put_part<S: Allocator, T: Kind>(space: &mut Space<S>, x: &T, used: usize, end: usize) -> bool
    requires { end ≤ T.Kind.meaning.size }
    ensures placed { Placed space.old space.new result (take (min 8 end) (drop (end - 8) (T.Kind.meaning.bytes x.now used))) }
    ensures fits { True (T.Kind.meaning.fits x.now) }
{
    let from = end.saturating_sub(PART);
    let mut bytes = [0; PART];
    let part = &mut bytes[..end - from];
    x.push(part, used, from);
    space.put_front(part)
}

// Makes room for a value and the zero bytes behind it, and answers how many these are.
pub fn room_for_value<S: Allocator, T: Kind>(
    space: &mut Space<S>,
    x: &T,
) -> Result<usize, Refusal<S::Error>>
    ensures { Roomed space.old space.new result (push_tests (item T.Kind x.now) (length space.old.taken) space.old.limit) (push_padding (item T.Kind x.now) (length space.old.taken)) (push_padding (item T.Kind x.now) (length space.old.taken) + T.Kind.meaning.size) }
{
    assert_offset_stands(x.offset(), space.used())?;
    room_for(space, T::size(), T::alignment(), 0)
}

// Writes a value, aligned, and answers the used space: the value's offset.
pub fn push_value<S: Allocator, T: Kind>(
    space: &mut Space<S>,
    x: &T,
) -> Result<u32, Refusal<S::Error>>
    ensures wrote { Wrote space.old space.new result (push_tests (item T.Kind x.now) (length space.old.taken) space.old.limit) (pushed_offset (item T.Kind x.now) (length space.old.taken)) (pushed_bytes (item T.Kind x.now) (length space.old.taken)) }
    ensures fits { is_ok result ≡ true → True (T.Kind.meaning.fits x.now) }
{
    let pad = room_for_value(space, x)?;
    let _ = space.put_zeros(pad);
    let _ = put_value(space, x);
    Ok(space.used() as u32)
}
