// Finishing a buffer: the root's offset at its front.
#![tactic(auto)]

ghost use Rattle.std.specs.Prelude.{◌≡◌, ◌+◌, ◌≤◌, true, cond, length, is_ok, if◌then◌else◌, Some, None};
ghost use Rattle.model.specs.Finish.{finish_bytes, finish_tests, identifier_bytes, identifier_stands, prefix_bytes, rooted};
ghost use Rattle.finish.specs.Given.{given};
ghost use Rattle.space.specs.Taken.{Placed};
ghost use Rattle.vectors.specs.Written.{Wrote};

use space::Space;
use store::allocator::Allocator;
use vectors::room::room_for;
use vectors::value::assert_offset_stands;
use wire::refusal::Refusal;

// The bytes of an identifier, none where there is none, or nothing where they are not four.
pub fn identifier_part(identifier: Option<&[u8]>) -> Option<&[u8]>
    ensures { given result ≡ (if identifier_stands (given identifier.entry) then Some (identifier_bytes (given identifier.entry)) else None) }
{
    match identifier {
        None => Some(&[]),
        Some(id) if id.len() == 4 => Some(id),
        Some(_) => None,
    }
}

// Puts zero bytes, the identifier and the root's offset in front of the used bytes.
fn put_root<S: Allocator>(space: &mut Space<S>, root: u32, id: &[u8], pad: usize)
    requires room { pad + length id.now + 4 ≤ length space.old.rest }
    requires low { length space.old.taken + pad + length id.now + 4 ≤ 2147483647 }
    requires root { root ≤ length space.old.taken }
    ensures { Placed space.old space.new true (rooted root id.now pad (length space.old.taken)) }
{
    let _ = space.put_zeros(pad);
    let _ = space.put_front(id);
    let distance = (4 + space.used() - root as usize) as u32;
    let _ = space.put_front(&distance.to_le_bytes());
}

// Puts the count of the used bytes in front of them, if it is asked for.
fn put_prefix<S: Allocator>(space: &mut Space<S>, size_prefixed: bool)
    requires room { (if size_prefixed then 4 else 0) ≤ length space.old.rest }
    requires low { length space.old.taken ≤ 2147483647 }
    ensures { Placed space.old space.new true (prefix_bytes size_prefixed (length space.old.taken)) }
{
    if size_prefixed {
        let count = space.used() as u32;
        let _ = space.put_front(&count.to_le_bytes());
    }
}

// Writes the root's offset, with an identifier behind it and the size before it where they are asked for.
// The whole becomes a multiple of the largest alignment met, at least 4.
pub fn finish<S: Allocator>(
    space: &mut Space<S>,
    root: u32,
    identifier: Option<&[u8]>,
    size_prefixed: bool,
    min_align: usize,
) -> Result<(), Refusal<S::Error>>
    ensures { Wrote space.old space.new result (finish_tests root (given identifier.entry) size_prefixed (length space.old.taken) min_align space.old.limit) tt (finish_bytes root (given identifier.entry) size_prefixed (length space.old.taken) min_align) }
{
    let id = identifier_part(identifier).ok_or_else(|| Refusal::Identifier)?;
    assert_offset_stands(Some(root), space.used())?;
    let prefix = if size_prefixed { 4 } else { 0 };
    let head = 4 + id.len() + prefix;
    let pad = room_for(space, head, min_align.max(4), 0)?;
    put_root(space, root, id, pad);
    put_prefix(space, size_prefixed);
    Ok(())
}
