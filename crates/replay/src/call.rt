// One call on a builder.
use crate::answer::Answer;
use crate::fault::{Failure, Fault};
use crate::value::KindName;
use crate::valued::Valued;
use crate::words::Words;
use builder::builder::FlatBufferBuilder;
use store::allocator::Contiguous;
use wire::refusal::Refusal;

// A call on a builder, and the words after its name.
#[derive(Drop)]
pub struct Call<'b, 'w, B> {
    pub builder: &'b mut B,
    pub words: Words<'w>,
}

// Makes the call of this name with the words that follow it. Before the first store line there is no builder.
pub fn make_call<'b, 'w, S: Contiguous>(
    builder: Option<&'b mut FlatBufferBuilder<S>>,
    name: &str,
    words: Words<'w>,
) -> Result<Answer<'b>, Failure<S::Error>> {
    let builder = builder.ok_or(Fault::NoStore)?;
    let mut call = Call { builder, words };
    // Matched as text, and here alone: an enum of the names would be matched a second time.
    match name {
        "push" => call.valued(Valued::Push),
        "push_slot" => {
            let slot = call.words.read::<u16>()?;
            call.valued(Valued::PushSlot(slot))
        }
        "push_slot_always" => {
            let slot = call.words.read::<u16>()?;
            call.valued(Valued::PushSlotAlways(slot))
        }
        "start_vector" => call.valued(Valued::StartVector),
        "create_vector" => call.valued(Valued::CreateVector),
        "end_vector" => call.end_vector(),
        "create_byte_string" => call.string(|b, text| b.create_byte_string(text)),
        "create_string" => call.string(|b, text| b.create_string(text)),
        "create_shared_string" => call.string(|b, text| b.create_shared_string(text)),
        "start_table" => call.start_table(),
        "end_table" => call.end_table(),
        "required" => call.required(),
        "finish" => call.finish(|b, root, name| b.finish(root, name)),
        "finish_size_prefixed" => call.finish(|b, root, name| b.finish_size_prefixed(root, name)),
        "reset" => call.reset(),
        "force_defaults" => call.force_defaults(),
        "finished_data" => call.finished_data(),
        "used" => call.used(),
        "vtables" => call.vtables(),
        _ => Err(Fault::NoSuchCall.into()),
    }
}

impl<'b, 'w, B> Call<'b, 'w, B> {
    // A call that writes text.
    fn string<E, F>(mut self, create: F) -> Result<Answer<'b>, Failure<E>>
    where
        F: FnOnce(&mut B, &[u8]) -> Result<u32, Refusal<E>>,
        requires { F.IsAlwaysCallable create }
    {
        let text = self.words.bytes()?;
        self.words.end()?;
        Ok(Answer::At(create(self.builder, text.as_slice())?))
    }

    // A call that finishes the buffer; an identifier of no bytes is none.
    fn finish<E, F>(mut self, finish: F) -> Result<Answer<'b>, Failure<E>>
    where
        F: FnOnce(&mut B, u32, Option<&[u8]>) -> Result<(), Refusal<E>>,
        requires { F.IsAlwaysCallable finish }
    {
        let root = self.words.read::<u32>()?;
        let identifier = self.words.bytes()?;
        self.words.end()?;
        let given = Some(identifier.as_slice()).filter(|bytes| !bytes.is_empty());
        finish(self.builder, root, given)?;
        Ok(Answer::Done)
    }
}

impl<'b, 'w, S: Contiguous> Call<'b, 'w, FlatBufferBuilder<S>> {
    // The kind of an end says nothing: the start named it.
    fn end_vector(mut self) -> Result<Answer<'b>, Failure<S::Error>> {
        let _ = self.words.read::<KindName>()?;
        let count = self.words.read::<usize>()?;
        self.words.end()?;
        Ok(Answer::At(self.builder.end_vector(count)?))
    }

    fn start_table(mut self) -> Result<Answer<'b>, Failure<S::Error>> {
        self.words.end()?;
        Ok(Answer::At(self.builder.start_table()?))
    }

    fn end_table(mut self) -> Result<Answer<'b>, Failure<S::Error>> {
        let start = self.words.read::<u32>()?;
        self.words.end()?;
        Ok(Answer::At(self.builder.end_table(start)?))
    }

    fn required(mut self) -> Result<Answer<'b>, Failure<S::Error>> {
        let table = self.words.read::<u32>()?;
        let slot = self.words.read::<u16>()?;
        self.words.end()?;
        self.builder.required(table, slot)?;
        Ok(Answer::Done)
    }

    fn reset(mut self) -> Result<Answer<'b>, Failure<S::Error>> {
        self.words.end()?;
        self.builder.reset();
        Ok(Answer::Done)
    }

    fn force_defaults(mut self) -> Result<Answer<'b>, Failure<S::Error>> {
        let forced = self.words.flag()?;
        self.words.end()?;
        self.builder.force_defaults(forced);
        Ok(Answer::Done)
    }

    fn finished_data(mut self) -> Result<Answer<'b>, Failure<S::Error>> {
        self.words.end()?;
        let builder = self.builder;
        Ok(Answer::Bytes(builder.finished_data()?))
    }

    fn used(mut self) -> Result<Answer<'b>, Failure<S::Error>> {
        self.words.end()?;
        let builder = self.builder;
        Ok(Answer::Bytes(builder.unfinished_data()))
    }

    fn vtables(mut self) -> Result<Answer<'b>, Failure<S::Error>> {
        self.words.end()?;
        Ok(Answer::Count(self.builder.num_written_vtables()))
    }
}
