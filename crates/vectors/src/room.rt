// Room for bytes that are aligned, in front of the used ones.
ghost use Rattle.std.specs.Prelude.{◌≡◌, ◌+◌, length, if◌then◌else◌, Some, None, nat_lt};
ghost use Rattle.vectors.specs.Written.{Roomed};
ghost use Rattle.wire.specs.Answers.{space_tests};
ghost use Rattle.wire.specs.Layouts.{padding};

use space::{MAX_SIZE, Space};
use store::allocator::Allocator;
use wire::padding::padding_bytes;
use wire::refusal::Refusal;

// The zero bytes behind `size` bytes that are aligned and have `head` more in front of them,
// or nothing where the used space would be too long.
pub fn padding_for(used: usize, size: usize, alignment: usize, head: usize) -> Option<usize>
    ensures { result ≡ (if nat_lt 2147483647 (used + padding (used + size) alignment + size + head) then None else Some (padding (used + size) alignment)) }
{
    let end = used.checked_add(size)?;
    let pad = padding_bytes(end, alignment);
    let all = end.checked_add(pad)?.checked_add(head)?;
    (all <= MAX_SIZE).then_some(pad)
}

// Makes room for `size` bytes that are aligned, `head` more in front of them and the zero bytes behind them,
// and answers how many these last are.
pub fn room_for<S: Allocator>(
    space: &mut Space<S>,
    size: usize,
    alignment: usize,
    head: usize,
) -> Result<usize, Refusal<S::Error>>
    ensures { Roomed space.old space.new result (space_tests (length space.old.taken + padding (length space.old.taken + size) alignment + size + head) space.old.limit) (padding (length space.old.taken + size) alignment) (padding (length space.old.taken + size) alignment + size + head) }
{
    // not `ok_or`, which asks that the store's error can be dropped
    let pad = padding_for(space.used(), size, alignment, head).ok_or_else(|| Refusal::TooLong)?;
    space.make_space(pad + size + head).map_err(Refusal::Store)?;
    Ok(pad)
}
