// A whole font pack, written through the builder.
use builder::builder::FlatBufferBuilder;
use font::anchor::Anchor;
use font::kern::Kern;
use kinds::Kind;
use kinds::primitives::WIPOffset;
use store::allocator::Allocator;
use wire::refusal::Refusal;

// A glyph as it is to be written.
#[derive(Drop)]
pub struct Glyph<'a> {
    pub id: u16,
    pub advance: u16,
    pub name: &'a [u8],
    pub anchors: &'a [Anchor],
}

// Writes a glyph and answers its table's offset.
fn write_glyph<S: Allocator>(
    b: &mut FlatBufferBuilder<S>,
    glyph: &Glyph,
) -> Result<u32, Refusal<S::Error>> {
    let name = b.create_shared_string(glyph.name)?;
    let anchors = b.create_vector(glyph.anchors)?;
    let start = b.start_table()?;
    b.push_slot_always(8, &WIPOffset::<u8>::new(name))?;
    b.push_slot_always(10, &WIPOffset::<u8>::new(anchors))?;
    b.push_slot(4, &glyph.id, &0)?;
    b.push_slot(6, &glyph.advance, &0)?;
    b.end_table(start)
}

// Writes the units of a font.
fn write_units<S: Allocator>(
    b: &mut FlatBufferBuilder<S>,
    per_em: u16,
) -> Result<u32, Refusal<S::Error>> {
    let start = b.start_table()?;
    b.push_slot(4, &per_em, &0)?;
    b.end_table(start)
}

// Writes a font of two glyphs, with its kerns and its units as the union's value, and answers its table's offset.
pub fn write_font<S: Allocator>(
    b: &mut FlatBufferBuilder<S>,
    family: &[u8],
    glyphs: &[Glyph; 2],
    kerns: &[Kern],
) -> Result<u32, Refusal<S::Error>> {
    let family = b.create_string(family)?;
    let first = write_glyph(b, &glyphs[0])?;
    let second = write_glyph(b, &glyphs[1])?;
    let glyphs = b.create_vector(&[WIPOffset::<u8>::new(first), WIPOffset::<u8>::new(second)])?;
    let kerns = b.create_vector(kerns)?;
    let units = write_units(b, 1000)?;
    let start = b.start_table()?;
    b.push_slot_always(12, &WIPOffset::<u8>::new(units))?;
    b.push_slot_always(8, &WIPOffset::<u8>::new(kerns))?;
    b.push_slot_always(6, &WIPOffset::<u8>::new(glyphs))?;
    b.push_slot_always(4, &WIPOffset::<u8>::new(family))?;
    b.push_slot(10, &2u8, &0)?;
    b.end_table(start)
}
