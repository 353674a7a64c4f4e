// The work: a name and kerns written in front of the used bytes, and read back.
ghost use Rattle.std.specs.Prelude.{◌≡◌, ◌-◌, true, length, is_ok, IfOk, if◌then◌else◌, Some, None, nat_le};
ghost use Rattle.std.specs.Option.{option_map};
ghost use Rattle.fontpack.specs.Job.{at_offset, count as count_of, kern_of, string as string_of, with_kerns, with_name};

use font::kern::Kern;
use kinds::Kind;
use space::Space;
use store::allocator::Allocator;
use vectors::string::create_byte_string;
use vectors::vector::{create_vector, get};
use wire::refusal::Refusal;

// Where a name and its kerns were written, as offsets from the end.
#[derive(Clone, Copy)]
pub struct Places {
    pub name: u32,
    pub kerns: u32,
}

// Writes a name and then kerns in front of it.
pub fn write<S: Allocator>(
    space: &mut Space<S>,
    name: &[u8],
    kerns: &[Kern],
) -> Result<Places, Refusal<S::Error>>
    ensures used { is_ok result ≡ true → space.new.taken ≡ with_kerns kerns.now (with_name name.now space.old.taken) }
    ensures places { IfOk result (λ p. (p.name ≡ length (with_name name.now space.old.taken)) × (p.kerns ≡ length space.new.taken)) }
{
    let name = create_byte_string(space, name)?;
    let kerns = create_vector(space, kerns)?;
    Ok(Places { name, kerns })
}

// What lies at an offset from the end of some bytes.
#[derive(Clone, Copy)]
pub struct Object<'a> {
    pub bytes: &'a [u8],
    pub offset: u32,
}

impl<'a> Object<'a> {
    // Its position, or nothing where it is outside the bytes.
    fn position(&self) -> Option<usize>
        ensures { result ≡ (if nat_le self.now.offset (length self.now.bytes.now) then Some (length self.now.bytes.now - self.now.offset) else None) }
    {
        self.bytes.len().checked_sub(self.offset as usize)
    }

    // How many elements the vector there has.
    pub fn count(&self) -> Option<u32>
        ensures { result ≡ at_offset (count_of self.now.bytes.now) self.now.bytes.now self.now.offset }
    {
        u32::follow(self.bytes, self.position()?)
    }

    // The bytes of the string there.
    pub fn string(&self) -> Option<&'a [u8]>
        ensures { option_map (λ x. x.now) result ≡ at_offset (string_of self.now.bytes.now) self.now.bytes.now self.now.offset }
    {
        let at = self.position()?;
        let count = u32::follow(self.bytes, at)? as usize;
        self.bytes.get(at + 4..at + 4 + count)
    }

    // The kern `i` of those there.
    pub fn kern(&self, i: usize) -> Option<Kern>
        ensures { result ≡ at_offset (kern_of self.now.bytes.now i) self.now.bytes.now self.now.offset }
    {
        let at = self.position()?;
        let count = u32::follow(self.bytes, at)? as usize;
        get::<Kern>(self.bytes, at + 4, count, i)
    }
}
