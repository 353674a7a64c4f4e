// The calls that name a kind.
use crate::answer::Answer;
use crate::call::Call;
use crate::fault::Failure;
use crate::value::{KindName, Value};
use builder::builder::FlatBufferBuilder;
use font::anchor::Anchor;
use font::kern::Kern;
use kinds::primitives::WIPOffset;
use store::allocator::Allocator;

// A call as far as its kind. No closure stands for it, since it is generic in the kind.
#[derive(Clone, Copy)]
pub enum Valued {
    Push,
    PushSlot(u16),
    PushSlotAlways(u16),
    StartVector,
    CreateVector,
}

impl<'b, 'w, S: Allocator> Call<'b, 'w, FlatBufferBuilder<S>> {
    // Makes the call at the kind that the next word names.
    pub fn valued(mut self, valued: Valued) -> Result<Answer<'b>, Failure<S::Error>> {
        match self.words.read::<KindName>()? {
            KindName::U8 => self.valued_at::<u8>(valued),
            KindName::U16 => self.valued_at::<u16>(valued),
            KindName::U32 => self.valued_at::<u32>(valued),
            KindName::U64 => self.valued_at::<u64>(valued),
            KindName::I8 => self.valued_at::<i8>(valued),
            KindName::I16 => self.valued_at::<i16>(valued),
            KindName::I32 => self.valued_at::<i32>(valued),
            KindName::I64 => self.valued_at::<i64>(valued),
            KindName::F32 => self.valued_at::<f32>(valued),
            KindName::F64 => self.valued_at::<f64>(valued),
            KindName::Offset => self.valued_at::<WIPOffset<u8>>(valued),
            KindName::Anchor => self.valued_at::<Anchor>(valued),
            KindName::Kern => self.valued_at::<Kern>(valued),
        }
    }

    fn valued_at<T: Value + Drop>(
        mut self,
        valued: Valued,
    ) -> Result<Answer<'b>, Failure<S::Error>> {
        match valued {
            Valued::Push => {
                let x = self.words.value::<T>()?;
                self.words.end()?;
                Ok(Answer::At(self.builder.push(&x)?))
            }
            Valued::PushSlot(slot) => {
                let x = self.words.value::<T>()?;
                let default = self.words.value::<T>()?;
                self.words.end()?;
                self.builder.push_slot(slot, &x, &default)?;
                Ok(Answer::Done)
            }
            Valued::PushSlotAlways(slot) => {
                let x = self.words.value::<T>()?;
                self.words.end()?;
                self.builder.push_slot_always(slot, &x)?;
                Ok(Answer::Done)
            }
            Valued::StartVector => {
                let count = self.words.read::<usize>()?;
                self.words.end()?;
                self.builder.start_vector::<T>(count)?;
                Ok(Answer::Done)
            }
            Valued::CreateVector => {
                let items = self.words.values::<T>()?;
                Ok(Answer::At(self.builder.create_vector(items.as_slice())?))
            }
        }
    }
}
