// Replays a script, a builder to each store line.
use crate::answer::{Answer, Answers};
use crate::call::make_call;
use crate::script::{Base, Choice, Request, Script};
use builder::builder::FlatBufferBuilder;
use std::alloc::Global;
use std::io;
use store::allocator::Contiguous;
use store::doubling::Doubling;
use store::quota::Quota;
use store::still::Still;

// A script, and where its answers go.
#[derive(Drop)]
pub struct Session {
    script: Script,
    answers: Answers,
    heap: Global,
}

impl Session {
    pub fn new(script: Script, answers: Answers, heap: Global) -> Session {
        Session {
            script,
            answers,
            heap,
        }
    }

    // Replays the whole script.
    pub fn replay(&mut self) -> io::Result<()> {
        let mut next = self.replay_lines::<Still>(&mut None)?;
        // Each loop has to end, here and below, and no handle that may wait is allowed: no script comes to this bound.
        for _ in 0..u64::MAX {
            let Some(choice) = next else { break };
            next = self.replay_in(choice)?;
        }
        self.answers.end()
    }

    // Replays what follows a store line, and answers the next one.
    fn replay_in(&mut self, choice: Choice) -> io::Result<Option<Choice>> {
        match choice.base {
            Base::Still => self.replay_under(choice.quota, Still::new()),
            Base::Doubling(limit) => {
                let mut bytes = vec![in self.heap; 0u8; limit]?;
                self.replay_under(choice.quota, Doubling::new(bytes.as_mut_slice()))
            }
        }
    }

    // Replays the lines on a store, which may have a quota.
    fn replay_under<S: Contiguous + Drop>(
        &mut self,
        quota: Option<usize>,
        store: S,
    ) -> io::Result<Option<Choice>>
    where
        S::Error: Drop,
    {
        match quota {
            None => self.replay_on(store),
            Some(quota) => self.replay_on(Quota::new(store, quota)),
        }
    }

    // Says that the store is there, and replays the lines on a builder over it.
    fn replay_on<S: Contiguous + Drop>(&mut self, store: S) -> io::Result<Option<Choice>>
    where
        S::Error: Drop,
    {
        self.answers.answer(Answer::Done)?;
        // lent and not moved: it holds the whole store
        let mut builder = Some(FlatBufferBuilder::new_in(store));
        self.replay_lines(&mut builder)
    }

    // Replays the lines up to the next store line, and answers that. Those before the first have no builder.
    fn replay_lines<S: Contiguous + Drop>(
        &mut self,
        builder: &mut Option<FlatBufferBuilder<S>>,
    ) -> io::Result<Option<Choice>>
    where
        S::Error: Drop,
    {
        for _ in 0..u64::MAX {
            let Some((number, line)) = self.script.next_line()? else {
                break
            };
            match Request::read(line, self.heap) {
                Ok(Request::Nothing) => {}
                Ok(Request::Store(choice)) => return Ok(Some(choice)),
                Ok(Request::Call(name, words)) => match make_call(builder.as_mut(), name, words) {
                    Ok(answer) => self.answers.answer(answer)?,
                    Err(failure) => self.answers.failure(number, failure)?,
                },
                Err(fault) => self.answers.fault(number, fault)?,
            }
        }
        Ok(None)
    }
}
