// What the builder makes of a font, and what misuse of it is told.
use crate::pack::{Glyph, write_font};
use crate::report::{Refused, report_bytes};
use builder::builder::FlatBufferBuilder;
use font::anchor::Anchor;
use font::kern::Kern;
use kinds::Kind;
use std::fmt::Debug;
use store::allocator::Contiguous;
use wire::refusal::Refusal;

const ANCHORS: [Anchor; 2] = [Anchor { x: 120, y: -30 }, Anchor { x: 0, y: 700 }];

const KERNS: [Kern; 1] = [Kern {
    left: 1,
    right: 2,
    value: -10,
}];

// Builds the font over a store, and misuses the builder before and after.
pub fn report_pack<S: Contiguous>(rt: &HostRuntime, title: &str, store: S) -> anyhow::Result<()>
where
    S: Drop,
    S::Error: Debug + Drop,
{
    println!(rt; "A font in {title}")?;
    let mut b = FlatBufferBuilder::new_in(store);
    report_told(rt, "a slot with no table open", b.push_slot(4, &1u16, &0))?;
    report_told(rt, "a root that is not there", b.finish_minimal(8))?;
    let glyphs = [
        Glyph {
            id: 1,
            advance: 600,
            name: b"fi",
            anchors: &ANCHORS,
        },
        Glyph {
            id: 2,
            advance: 580,
            name: b"fl",
            anchors: &[],
        },
    ];
    match write_font(&mut b, b"Padrezok", &glyphs, &KERNS) {
        Ok(font) => report_finished(rt, &mut b, font)?,
        Err(refusal) => println!(rt; "  {}", Refused(&refusal))?,
    }
    Ok(())
}

// Finishes the buffer and shows it.
fn report_finished<S: Contiguous>(
    rt: &HostRuntime,
    b: &mut FlatBufferBuilder<S>,
    font: u32,
) -> anyhow::Result<()>
where
    S::Error: Debug + Drop,
{
    let vtables = b.num_written_vtables();
    println!(rt; "  the font lies at offset {font}, with {vtables} vtables")?;
    report_told(rt, "finishing", b.finish(font, Some(b"FONT")))?;
    report_bytes(rt, b.unfinished_data())?;
    report_told(rt, "a table in a finished buffer", b.end_table(font))
}

// What a call was told.
fn report_told<A: Drop, E: Debug + Drop>(
    rt: &HostRuntime,
    what: &str,
    told: Result<A, Refusal<E>>,
) -> anyhow::Result<()> {
    match told {
        Ok(_) => println!(rt; "  {what}: done")?,
        Err(refusal) => println!(rt; "  {what}: {}", Refused(&refusal))?,
    }
    Ok(())
}
