// What took place, in words and bytes.
use crate::job::{Object, write};
use font::kern::Kern;
use space::Space;
use std::fmt;
use std::fmt::Debug;
use store::allocator::Contiguous;
use vectors::vector::create_and_get;
use wire::refusal::Refusal;

const NAME: &[u8] = b"fi";

const KERNS: [Kern; 3] = [
    Kern {
        left: 3,
        right: 5,
        value: -10,
    },
    Kern {
        left: 3,
        right: 9,
        value: 4,
    },
    Kern {
        left: 7,
        right: 2,
        value: -1,
    },
];

// More lists than any of the stores can hold.
const LISTS: usize = 1000;

// The whole job over one store.
pub fn report_on<S: Contiguous>(rt: &HostRuntime, title: &str, store: S) -> anyhow::Result<()>
where
    S: Drop,
    S::Error: Debug + Drop,
{
    println!(rt; "{title}")?;
    let mut space = Space::new(store);
    match write(&mut space, NAME, &KERNS) {
        Ok(places) => {
            let bytes = space.as_slice();
            let at = |offset: u32| Object { bytes, offset };
            report_bytes(rt, bytes)?;
            report_name(rt, at(places.name))?;
            report_kerns(rt, at(places.kerns))?;
        }
        Err(refusal) => println!(rt; "  {}", Refused(&refusal))?,
    }
    report_limit(rt, &mut space)
}

// The used bytes in rows of sixteen.
pub fn report_bytes(rt: &HostRuntime, bytes: &[u8]) -> anyhow::Result<()> {
    let used = bytes.len();
    println!(rt; "  {used} bytes are used:")?;
    for row in bytes.chunks(16) {
        print!(rt; "   ")?;
        for b in row {
            print!(rt; " {b:02X}")?;
        }
        println!(rt; "")?;
    }
    Ok(())
}

// The name as it reads.
fn report_name(rt: &HostRuntime, name: Object) -> anyhow::Result<()> {
    let offset = name.offset;
    match name.string().map(|text| std::str::from_utf8(text)) {
        None => println!(rt; "  no name is at offset {offset}")?,
        Some(Ok(name)) => println!(rt; "  the name at offset {offset} reads {name}")?,
        Some(Err(_)) => println!(rt; "  the name at offset {offset} is no text")?,
    }
    Ok(())
}

// The kerns as they read.
fn report_kerns(rt: &HostRuntime, kerns: Object) -> anyhow::Result<()> {
    let offset = kerns.offset;
    let Some(count) = kerns.count() else {
        println!(rt; "  no kerns are at offset {offset}")?;
        return Ok(());
    };
    println!(rt; "  the {count} kerns at offset {offset} read")?;
    for Kern { left, right, value } in (0..count as usize).filter_map(|i| kerns.kern(i)) {
        println!(rt; "    left {left}, right {right}, value {value}")?;
    }
    Ok(())
}

// A refusal in words: its number and its name.
#[derive(Drop)]
pub struct Refused<'a, E>(pub &'a Refusal<E>);

impl<'a, E: Debug> fmt::Display for Refused<'a, E> {
    fn fmt<W: fmt::Write>(&self, f: &mut fmt::Formatter<W>) -> fmt::Result {
        write!(f, "refused by {}, {:?}", self.0.number(), self.0)
    }
}

// Writes the kerns again and again, reading one back each time, until the store refuses.
fn report_limit<S: Contiguous>(rt: &HostRuntime, space: &mut Space<S>) -> anyhow::Result<()>
where
    S::Error: Debug + Drop,
{
    for written in 0..LISTS {
        let before = space.as_slice().to_vec(rt.alloc())?;
        if let Err(refusal) = create_and_get(space, &KERNS, 1) {
            println!(rt; "  further lists that fit: {written}; the next is")?;
            println!(rt; "  {}", Refused(&refusal))?;
            let same = before.as_slice() == space.as_slice();
            println!(rt; "  the used bytes are as before: {same}")?;
            return Ok(());
        }
    }
    println!(rt; "  no limit was met")?;
    Ok(())
}
