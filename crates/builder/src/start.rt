ghost use Rattle.std.specs.Prelude.{◌≡◌, ◌+◌};
ghost use Rattle.builder.specs.View.{view, Did};
ghost use Rattle.model.specs.Calls.{Call, Reply};
ghost use Rattle.model.specs.State.{fresh};
ghost use Rattle.model.specs.Steps.{after};

use crate::builder::FlatBufferBuilder;
use crate::inner::{Inner, Open};
use space::Space;
use store::allocator::Allocator;
use tables::field_locs::FieldLocs;
use tables::offsets::Offsets;
use wire::refusal::Refusal;

impl<S: Allocator> FlatBufferBuilder<S> {
    // A builder with no byte used, over a store of any length and content.
    pub fn new_in(allocator: S) -> FlatBufferBuilder<S>
        ensures state { view result ≡ fresh (S.Allocator.limit allocator) }
        ensures store { result.space.rest ≡ S.Allocator.list allocator }
    {
        let inner = Inner {
            field_locs: FieldLocs::new(),
            written_vtable_revpos: Offsets::new(),
            strings_pool: Offsets::new(),
            nest: Open::Nothing,
            finished: false,
            min_align: 0,
            force_defaults: false,
        };
        FlatBufferBuilder {
            space: Space::new(allocator),
            inner,
        }
    }

    // Whether values that equal their default are written too.
    pub fn force_defaults(&mut self, force_defaults: bool)
        ensures state { view self.new ≡ after (Call.force_defaults force_defaults) (view self.old) }
        ensures store { self.new.space ≡ self.old.space }
    {
        self.inner.force_defaults = force_defaults;
    }

    // Starts a table, and answers the used space.
    pub fn start_table(&mut self) -> Result<u32, Refusal<S::Error>>
        ensures { Did Reply.at Call.start_table self.old self.new result }
    {
        self.inner.assert_not_nested()?;
        let start = self.space.used() as u32;
        self.inner.field_locs.clear();
        self.inner.nest = Open::Table(start);
        Ok(start)
    }
}
