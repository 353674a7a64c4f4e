ghost use Rattle.std.specs.Prelude.{◌≤◌, length};

use crate::inner::Inner;
use space::Space;
use store::allocator::Allocator;

// A buffer under construction: the used bytes of a space, and what is known of them.
#[derive(Drop)]
pub struct FlatBufferBuilder<S: Allocator> {
    pub(crate) space: Space<S>,
    pub(crate) inner: Inner,
    ghost short: { length space.taken ≤ 2147483647 },
}
