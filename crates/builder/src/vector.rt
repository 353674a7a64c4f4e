ghost use Rattle.std.specs.Prelude.{◌≡◌, ◌+◌, List, map};
ghost use Rattle.builder.specs.View.{nest_of, Did};
ghost use Rattle.model.specs.Calls.{done, Call, Reply};
ghost use Rattle.model.specs.Steps.{ends_vector_lem};
ghost use Rattle.model.specs.declared.field_loc.FieldLoc.{FieldLoc};
ghost use Rattle.vectors.specs.Items.{item, item_layout, items_of};

use crate::builder::FlatBufferBuilder;
use crate::inner::Open;
use kinds::Kind;
use store::allocator::Allocator;
use vectors::vector::{create_vector, end_vector, start_vector};
use wire::refusal::Refusal;

impl<S: Allocator> FlatBufferBuilder<S> {
    // Writes the items as a vector, in order, and answers its offset.
    pub fn create_vector<T: Kind>(&mut self, items: &[T]) -> Result<u32, Refusal<S::Error>>
        ensures { Did Reply.at (Call.create_vector (item_layout T.Kind) (map (item T.Kind) items.now) (items_of T.Kind items.now)) self.old self.new result }
    {
        self.inner.assert_not_finished()?;
        let off = create_vector(&mut self.space, items)?;
        self.inner.track_min_align(T::alignment().max(4));
        Ok(off)
    }

    // Starts a vector of so many elements, which are then pushed one by one, the last first.
    pub fn start_vector<T: Kind>(&mut self, count: usize) -> Result<(), Refusal<S::Error>>
        ensures { Did (λ _. done) (Call.start_vector (item_layout T.Kind) count) self.old self.new result }
    {
        self.inner.assert_not_nested()?;
        start_vector::<S, T>(&mut self.space, count)?;
        self.inner.track_min_align(T::alignment().max(4));
        self.inner.nest = Open::Vector {
            start: self.space.used() as u32,
            size: T::size(),
            count,
        };
        Ok(())
    }

    // Ends a vector, and answers its offset.
    pub fn end_vector(&mut self, count: usize) -> Result<u32, Refusal<S::Error>>
        ensures { Did Reply.at (Call.end_vector count) self.old self.new result }
    {
        self.inner.assert_not_finished()?;
        if !ends_vector(self.inner.nest, count, self.space.used()) {
            return Err(Refusal::NotOpen);
        }
        let off = end_vector(&mut self.space, count)?;
        self.inner.track_min_align(4);
        self.inner.nest = Open::Nothing;
        Ok(off)
    }
}

// Whether an end agrees with its start: the count, and the bytes pushed since.
fn ends_vector(nest: Open, count: usize, used: usize) -> bool
    ensures { (ls : List FieldLoc) → result ≡ ends_vector_lem count used (nest_of nest ls) }
{
    match nest {
        Open::Vector {
            start,
            size,
            count: n,
        } => {
            let begun = start as usize;
            count == n
                && n.checked_mul(size)
                    .is_some_and(|bytes| begun <= used && used - begun == bytes)
        }
        _ => false,
    }
}
