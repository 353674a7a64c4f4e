// The fields and unions of a table that a verifier is in.
ghost use Rattle.std.specs.Prelude.{◌≡◌, if◌then◌else◌, Ok, Err};
ghost use Rattle.reading.specs.Reading.{reading, variants};
ghost use Rattle.reading.specs.declared.invalid.InvalidFlatbuffer.TheVariants.{MissingRequiredField};
ghost use Rattle.verifier.specs.Told.{Seen, Told, done, field_visit, slot_place, slot_visit, union_visit};

use crate::verifier::{
    InvalidFlatbuffer, TableVerifier, TraceRecord, UnionVerifier, Verifiable, Verifier,
};

// What an absent field answers.
fn missing(required: bool, slot: u16) -> Result<(), InvalidFlatbuffer>
    ensures { result ≡ (if required then Err (MissingRequiredField slot) else Ok tt) }
{
    if required {
        Err(InvalidFlatbuffer::MissingRequiredField { slot })
    } else {
        Ok(())
    }
}

impl TableVerifier {
    // Where the field of a slot stands, if it is present.
    pub fn deref(self, v: &mut Verifier<'_>, slot: u16) -> Result<Option<usize>, InvalidFlatbuffer>
        ensures { Seen (slot_visit self slot) (slot_place self slot) result v.old v.new }
    {
        if (slot as usize) < self.vtable_len {
            let distance = v.get_u16(self.vtable.saturating_add(slot as usize))?;
            Ok((distance > 0).then_some(self.pos.saturating_add(distance as usize)))
        } else {
            Ok(None)
        }
    }

    // Verifies the field of a slot.
    pub fn visit_field<T: Verifiable>(
        self,
        v: &mut Verifier<'_>,
        slot: u16,
        required: bool,
    ) -> Result<(), InvalidFlatbuffer>
        ensures { Told (field_visit self slot required (reading T.Verifiable.shape)) done result v.old v.new }
    {
        match self.deref(v, slot)? {
            Some(position) => v.visit::<T>(TraceRecord::TableField { slot, position }),
            None => missing(required, slot),
        }
    }

    // Verifies the key and the value of a union.
    pub fn visit_union<U: UnionVerifier>(
        self,
        v: &mut Verifier<'_>,
        key: u16,
        value: u16,
        required: bool,
    ) -> Result<(), InvalidFlatbuffer>
        ensures { Told (union_visit self key value required (variants U.UnionVerifier.choices)) done result v.old v.new }
    {
        let value_pos = self.deref(v, value)?;
        let key_pos = self.deref(v, key)?;
        match (key_pos, value_pos) {
            (None, None) => missing(required, value),
            (None, Some(_)) => Err(InvalidFlatbuffer::InconsistentUnion { key, value }),
            (Some(key_pos), None) => {
                if v.union_key(key, key_pos)? == 0 {
                    missing(required, value)
                } else {
                    Err(InvalidFlatbuffer::InconsistentUnion { key, value })
                }
            }
            (Some(key_pos), Some(position)) => {
                let discriminant = v.union_key(key, key_pos)?;
                let res = U::verify_union(v, discriminant, position);
                v.append_trace(
                    res,
                    TraceRecord::TableField {
                        slot: value,
                        position,
                    },
                )
            }
        }
    }
}
