// The verifier: what it reads of an input, what it counts, and how a fault rises.
ghost use Rattle.std.specs.Prelude.{◌≡◌, ◌+◌, ◌*◌, ◌^◌, ◌<◌, ◌≤◌, if◌then◌else◌, ◌||◌, length, Err, IfOk, Ok, OnOk, slice_index, slice_set};
ghost use Rattle.reading.specs.Input.{saturated, u16_at, u32_at};
ghost use Rattle.reading.specs.Outcomes.{layer as layer_of};
ghost use Rattle.reading.specs.Law.{Inside};
ghost use Rattle.reading.specs.Reading.{aligned, ascend, count_table, descend, enter, in_buffer, keeps, position_of, raised, ranged, reading, signed, text_of, union_key, variants, vector_range, visit_table, vtable, within, zero_at};
ghost use Rattle.reading.specs.Shape.{Shape, Variants};
ghost use Rattle.reading.specs.declared.invalid.TraceRecord.TheVariants.{UnionVariant};
ghost use Rattle.verifier.specs.Told.{Begun, Reset, Resumed, Seen, Told, Verified, Wrote, bytes, done, table_of};

pub use reading::invalid::{InvalidFlatbuffer, TraceRecord};
pub use reading::options::{Counters, VerifierOptions};
use wire::utf8::valid_up_to;
use wire::words::{byte_at, led_to, read_u16, read_u32};

// An input, what to stop at, what was met so far, the lent trace, and how many layers a fault
// rose through, whether or not the trace held them all.
#[derive(Drop)]
pub struct Verifier<'a> {
    buffer: &'a [u8],
    opts: VerifierOptions,
    counters: Counters,
    trace: &'a mut [TraceRecord],
    traced: usize,
}

// A table that a verifier is in: where it stands, and where its vtable of a length does.
// The verifier is passed beside it: what one that it borrowed ends as after a fault is not proved.
#[derive(Clone, Copy, Debug, PartialEq, Eq)]
pub struct TableVerifier {
    pub(crate) pos: usize,
    pub(crate) vtable: usize,
    pub(crate) vtable_len: usize,
}

// What a whole verification answers: `traced` layers, of which the lent trace holds the first.
#[derive(Clone, Copy, Debug, PartialEq, Eq)]
pub struct Verdict {
    pub result: Result<(), InvalidFlatbuffer>,
    pub counters: Counters,
    pub traced: usize,
}

// A kind that can be verified where it stands.
pub trait Verifiable {
    // what is read of it
    ghost shape: { Shape };

    fn run_verifier(v: &mut Verifier<'_>, pos: usize) -> Result<(), InvalidFlatbuffer>
        ensures { Told (reading shape pos) done result v.old v.new };
}

// A union: what stands at its value, by its key.
pub trait UnionVerifier {
    // the variants by key
    ghost choices: { Variants };

    fn verify_union(v: &mut Verifier<'_>, key: u8, pos: usize) -> Result<(), InvalidFlatbuffer>
        ensures { Told (variants choices key pos) done result v.old v.new };
}

// Verifies what stands at a position: the answer, and what was counted and recorded by then.
pub fn verify_at<T: Verifiable>(
    opts: &VerifierOptions,
    input: &[u8],
    pos: usize,
    trace: &mut [TraceRecord],
) -> Verdict
    ensures verified { Verified T.Verifiable.shape pos input.now opts.now result trace.old trace.new }
{
    let mut v = Verifier::new(opts, input, trace);
    let result = T::run_verifier(&mut v, pos);
    Verdict {
        result,
        counters: v.counters(),
        traced: v.traced(),
    }
}

// Writes a record in its place; a full trace stays.
// An index and no `get_mut`: what is written through that is not known of the slice.
fn record(trace: &mut [TraceRecord], n: usize, r: TraceRecord)
    ensures { trace.new ≡ slice_set trace.old n r }
{
    if n < trace.len() {
        trace[n] = r;
    }
}

// Raises a counter. One that would pass 64 bits stays, and passes its limit.
fn raise(
    counter: &mut usize,
    by: usize,
    most: usize,
    fault: InvalidFlatbuffer,
) -> Result<(), InvalidFlatbuffer>
    ensures value { counter.new ≡ raised counter.old by }
    ensures answer { result ≡ (if keeps counter.old by most then Ok tt else Err fault) }
{
    *counter = counter.checked_add(by).ok_or(fault)?;
    if *counter <= most { Ok(()) } else { Err(fault) }
}

impl<'a> Verifier<'a> {
    pub fn new(
        opts: &VerifierOptions,
        buffer: &'a [u8],
        trace: &'a mut [TraceRecord],
    ) -> Verifier<'a>
        ensures { Begun buffer.now opts.now trace.entry result }
    {
        Verifier::resume(opts, buffer, trace, Counters::default(), 0)
    }

    // Goes on from what an earlier verifier had met and traced, with another trace.
    pub fn resume(
        opts: &VerifierOptions,
        buffer: &'a [u8],
        trace: &'a mut [TraceRecord],
        counters: Counters,
        traced: usize,
    ) -> Verifier<'a>
        ensures { Resumed buffer.now opts.now trace.entry counters traced result }
    {
        Verifier {
            buffer,
            opts: *opts,
            counters,
            trace,
            traced,
        }
    }

    // Forgets what was met, for another walk of the same input.
    pub fn reset(&mut self)
        ensures { Reset self.old self.new }
    {
        self.counters = Counters::default();
        self.traced = 0;
    }

    pub fn counters(&self) -> Counters
        ensures { result ≡ self.now.counters }
    {
        self.counters
    }

    pub fn traced(&self) -> usize
        ensures { result ≡ self.now.traced }
    {
        self.traced
    }

    // A verifier of the same input that goes on from here, with another trace.
    pub fn with_trace<'t>(&self, trace: &'t mut [TraceRecord]) -> Verifier<'t>
    where
        'a: 't,
        ensures { Resumed (bytes self.now) self.now.opts trace.entry self.now.counters self.now.traced result }
    {
        Verifier::resume(
            &self.opts,
            self.buffer,
            trace,
            self.counters(),
            self.traced(),
        )
    }

    // Takes over what such a verifier has met and traced since; the trace stays this one's own.
    pub fn take_over(&mut self, counters: Counters, traced: usize)
        ensures { Resumed (bytes self.old) self.old.opts self.old.trace counters traced self.new }
    {
        self.counters = counters;
        self.traced = traced;
    }

    // The lent trace as it stands now.
    pub fn trace(&self) -> &[TraceRecord]
        ensures { result.now ≡ self.now.trace.now }
    {
        &self.trace[..]
    }

    // Records the layer that a fault rises through; a limit's fault gets none.
    pub(crate) fn append_trace<T>(
        &mut self,
        res: Result<T, InvalidFlatbuffer>,
        layer: TraceRecord,
    ) -> Result<T, InvalidFlatbuffer>
        ensures result { result ≡ res }
        ensures wrote { Wrote (layer_of res layer) self.old self.new }
    {
        if let Err(fault) = &res
            && !fault.is_limit()
        {
            record(self.trace, self.traced, layer);
            self.traced = self.traced.saturating_add(1);
        }
        res
    }

    // Verifies what stands where a layer begins, as that layer.
    pub(crate) fn visit<T: Verifiable>(
        &mut self,
        layer: TraceRecord,
    ) -> Result<(), InvalidFlatbuffer>
        ensures { Told (within layer (reading T.Verifiable.shape (position_of layer))) done result self.old self.new }
    {
        let res = T::run_verifier(self, layer.position());
        self.append_trace(res, layer)
    }

    // Refuses a position that is no multiple of the alignment; of 0, only 0 is one.
    pub fn is_aligned(&self, pos: usize, alignment: usize) -> Result<(), InvalidFlatbuffer>
        ensures { Seen (aligned pos alignment) done result self.now self.now }
    {
        if pos.is_multiple_of(alignment) {
            Ok(())
        } else {
            Err(InvalidFlatbuffer::Unaligned {
                position: pos,
                alignment,
            })
        }
    }

    // Refuses a range that leaves the input, and counts its size.
    pub fn range_in_buffer(&mut self, pos: usize, size: usize) -> Result<(), InvalidFlatbuffer>
        ensures seen { Seen (ranged pos size) done result self.old self.new }
        ensures fits { OnOk result (pos + size < 2 ^ 63) }
        ensures lies { OnOk result (pos + size ≤ length (bytes self.new)) }
    {
        let end = pos.saturating_add(size);
        if end > self.buffer.len() {
            return Err(InvalidFlatbuffer::RangeOutOfBounds { start: pos, end });
        }
        raise(
            &mut self.counters.apparent_size,
            size,
            self.opts.max_apparent_size,
            InvalidFlatbuffer::ApparentSizeTooLarge,
        )
    }

    // An element of this size and alignment stands there.
    pub fn in_buffer(
        &mut self,
        pos: usize,
        size: usize,
        alignment: usize,
    ) -> Result<(), InvalidFlatbuffer>
        ensures { Seen (in_buffer pos size alignment) done result self.old self.new }
    {
        self.is_aligned(pos, alignment)?;
        self.range_in_buffer(pos, size)
    }

    // A reader for each width: one over kinds would say an option of what is read, and be no plainer.
    pub fn get_u8(&mut self, pos: usize) -> Result<u8, InvalidFlatbuffer>
        ensures { Seen (in_buffer pos 1 1) (λ b. slice_index b pos) result self.old self.new }
    {
        self.in_buffer(pos, 1, 1)?;
        Ok(byte_at(self.buffer, pos))
    }

    pub fn get_u16(&mut self, pos: usize) -> Result<u16, InvalidFlatbuffer>
        ensures { Seen (in_buffer pos 2 2) (λ b. u16_at b pos) result self.old self.new }
    {
        self.in_buffer(pos, 2, 2)?;
        Ok(read_u16(self.buffer, pos))
    }

    pub fn get_uoffset(&mut self, pos: usize) -> Result<u32, InvalidFlatbuffer>
        ensures { Seen (in_buffer pos 4 4) (λ b. u32_at b pos) result self.old self.new }
    {
        self.in_buffer(pos, 4, 4)?;
        Ok(read_u32(self.buffer, pos))
    }

    // Where a table's signed word leads: to its vtable.
    fn deref_soffset(&mut self, pos: usize) -> Result<usize, InvalidFlatbuffer>
        ensures { Seen (signed pos) (λ b. vtable b pos) result self.old self.new }
    {
        let word = self.get_uoffset(pos)?;
        led_to(self.buffer, pos, word).ok_or(InvalidFlatbuffer::SignedOffsetOutOfBounds {
            soffset: word.cast_signed(),
            position: pos,
        })
    }

    fn count_table(&mut self) -> Result<(), InvalidFlatbuffer>
        ensures { Seen count_table done result self.old self.new }
    {
        raise(
            &mut self.counters.num_tables,
            1,
            self.opts.max_tables,
            InvalidFlatbuffer::TooManyTables,
        )
    }

    fn descend(&mut self) -> Result<(), InvalidFlatbuffer>
        ensures { Seen descend done result self.old self.new }
    {
        raise(
            &mut self.counters.depth,
            1,
            self.opts.max_depth,
            InvalidFlatbuffer::DepthLimitReached,
        )
    }

    // The vtable's end is even and its range inside, and one more table is entered.
    fn enter(&mut self, vtable: usize, vtable_len: usize) -> Result<(), InvalidFlatbuffer>
        ensures { Seen (enter vtable vtable_len) done result self.old self.new }
    {
        self.is_aligned(vtable.saturating_add(vtable_len), 2)?;
        self.range_in_buffer(vtable, vtable_len)?;
        self.count_table()?;
        self.descend()
    }

    // Begins the table there.
    pub fn visit_table(&mut self, pos: usize) -> Result<TableVerifier, InvalidFlatbuffer>
        ensures { Seen (visit_table pos) (λ b. table_of b pos) result self.old self.new }
    {
        let vtable = self.deref_soffset(pos)?;
        let vtable_len = self.get_u16(vtable)? as usize;
        self.enter(vtable, vtable_len)?;
        Ok(TableVerifier {
            pos,
            vtable,
            vtable_len,
        })
    }

    // Leaves a table.
    pub fn finish(&mut self)
        ensures { Seen ascend done (Ok tt) self.old self.new }
    {
        self.counters.depth = self.counters.depth.saturating_sub(1);
    }

    // How many elements the vector there counts, all of which lie inside.
    pub(crate) fn vector_range(
        &mut self,
        pos: usize,
        size: usize,
        alignment: usize,
    ) -> Result<u32, InvalidFlatbuffer>
        ensures seen { Seen (vector_range pos size alignment) (λ b. u32_at b pos) result self.old self.new }
        ensures fits { IfOk result (λ n. saturated pos 4 + n * size < 2 ^ 63) }
        ensures lies { IfOk result (λ n. saturated pos 4 + n * size ≤ length (bytes self.new)) }
    {
        let len = self.get_uoffset(pos)?;
        let start = pos.saturating_add(4);
        self.is_aligned(start, alignment)?;
        self.range_in_buffer(start, (len as usize).saturating_mul(size))?;
        Ok(len)
    }

    // A zero byte stands there, or none is wanted.
    fn terminated(&self, pos: usize) -> bool
        ensures { result ≡ (self.now.opts.ignore_missing_null_terminator || zero_at (bytes self.now) pos) }
    {
        self.opts.ignore_missing_null_terminator || self.buffer.get(pos) == Some(&0)
    }

    // The bytes there are text, and a zero byte follows them.
    pub(crate) fn text(&self, start: usize, len: usize) -> Result<(), InvalidFlatbuffer>
        requires { start + len ≤ length (bytes self.now) }
        ensures { Seen (text_of start len (bytes self.now)) done result self.now self.now }
    {
        let end = start + len;
        let valid_up_to = valid_up_to(&self.buffer[start..end]);
        if valid_up_to != len {
            return Err(InvalidFlatbuffer::Utf8Error {
                start,
                end,
                valid_up_to,
            });
        }
        if self.terminated(end) {
            Ok(())
        } else {
            Err(InvalidFlatbuffer::MissingNullTerminator { start, end })
        }
    }

    // The key of a union, which is verified as the field of its slot.
    pub(crate) fn union_key(&mut self, slot: u16, position: usize) -> Result<u8, InvalidFlatbuffer>
        ensures { Told (union_key slot position) (λ b. slice_index b position) result self.old self.new }
    {
        let res = self.get_u8(position);
        self.append_trace(res, TraceRecord::TableField { slot, position })
    }

    // Verifies the variant that a key names.
    pub fn verify_union_variant<T: Verifiable>(
        &mut self,
        key: u8,
        position: usize,
    ) -> Result<(), InvalidFlatbuffer>
        ensures { Told (within (UnionVariant key position) (reading T.Verifiable.shape position)) done result self.old self.new }
    {
        self.visit::<T>(TraceRecord::UnionVariant { key, position })
    }
}
