ghost use Rattle.std.specs.Prelude.{◌≡◌, ◌++◌, length, take, drop};
ghost use Rattle.model.specs.Tables.{equal_object};
ghost use Rattle.std.specs.Str.{bytes_eq};
ghost use Rattle.tables.specs.Fields.{offsets};
ghost use Rattle.wire.specs.Bytes.{last};
ghost use Rattle.wire.specs.Words.{le};

use super::Offsets;
use space::Space;
use store::allocator::Allocator;

impl Offsets {
    // How many offsets are kept.
    pub fn len(&self) -> usize
        ensures { result ≡ length (offsets self.now) }
    {
        self.items.len()
    }

    // The first offset whose object begins with the text's length and its bytes: an equal string.
    pub fn find_string<S: Allocator>(&self, space: &Space<S>, text: &[u8]) -> Option<u32>
        ensures { result ≡ equal_object space.now.taken (le 4 (length text.now) ++ text.now) (offsets self.now) }
    {
        // A loop by a rule of this project: a search among written objects.
        // It takes no closure, so the search for a vtable is its near twin.
        for off in self.items.as_slice() {
            if is_string(space, *off, text) {
                return Some(*off);
            }
        }
        None
    }
}

// Whether the object at the offset begins with the text's length and its bytes.
fn is_string<S: Allocator>(space: &Space<S>, off: u32, text: &[u8]) -> bool
    ensures { result ≡ bytes_eq (take (length (le 4 (length text.now) ++ text.now)) (last off space.now.taken)) (le 4 (length text.now) ++ text.now) }
{
    let used = space.used();
    let start = used.saturating_sub(off as usize);
    // as much of the length as four bytes can say
    let count = text.len().to_le_bytes();
    bytes_at(space, start, &count[..4]) && bytes_at(space, start + 4, text)
}

// Whether the bytes stand among the used ones from the index `start` on.
fn bytes_at<S: Allocator>(space: &Space<S>, start: usize, bytes: &[u8]) -> bool
    ensures { result ≡ bytes_eq (take (length bytes.now) (drop start space.now.taken)) bytes.now }
{
    space.used().saturating_sub(start) >= bytes.len()
        && bytes
            .iter()
            .enumerate()
            .all(|(i, b)| space.byte(start + i) == *b)
}
