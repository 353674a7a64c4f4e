// Strings: bytes with a count before and a zero byte behind them.
ghost use Rattle.std.specs.Prelude.{◌+◌, length};
ghost use Rattle.vectors.specs.Written.{Roomed, Wrote};
ghost use Rattle.wire.specs.Answers.{string_tests};
ghost use Rattle.wire.specs.Layouts.{string_object_bytes, string_padding, string_space};

use crate::room::room_for;
use space::Space;
use store::allocator::Allocator;
use wire::refusal::Refusal;

// Makes room for a string of the bytes, and answers how many zero bytes go behind it and its terminator.
pub fn room_for_string<S: Allocator>(
    space: &mut Space<S>,
    text: &[u8],
) -> Result<usize, Refusal<S::Error>>
    ensures { Roomed space.old space.new result (string_tests text.now (length space.old.taken) space.old.limit) (string_padding (length space.old.taken) (length text.now)) (string_padding (length space.old.taken) (length text.now) + length text.now + 5) }
{
    room_for(space, text.len() + 1, 4, 4)
}

// Writes bytes as a string, and answers the used space: the offset of its count.
pub fn create_byte_string<S: Allocator>(
    space: &mut Space<S>,
    text: &[u8],
) -> Result<u32, Refusal<S::Error>>
    ensures { Wrote space.old space.new result (string_tests text.now (length space.old.taken) space.old.limit) (string_space (length space.old.taken) (length text.now)) (string_object_bytes text.now (length space.old.taken)) }
{
    let pad = room_for_string(space, text)?;
    let _ = space.put_zeros(pad + 1);
    let _ = space.put_front(text);
    let _ = space.put_front(&(text.len() as u32).to_le_bytes());
    Ok(space.used() as u32)
}
