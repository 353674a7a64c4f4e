// The lines of a script.
ghost use Rattle.std.specs.Prelude.{◌≡◌, IfErr};
ghost use Rattle.std.specs.IoError.{error_kind};
ghost use Rattle.std.specs.declared.io.ErrorKind.TheVariants.{OutOfMemory};

use crate::fault::Fault;
use crate::words::Words;
use std::alloc::Global;
use std::io;
use std::io::{BufRead, BufReader, Stdin};

// No store over a lent slice has more bytes.
const LONGEST: usize = 1048576;

// The store below a quota, or alone.
#[derive(Clone, Copy)]
pub enum Base {
    Still,
    Doubling(usize),
}

#[derive(Clone, Copy)]
pub struct Choice {
    pub base: Base,
    pub quota: Option<usize>,
}

// What a line asks for.
#[derive(Drop)]
pub enum Request<'a> {
    Nothing,
    Store(Choice),
    Call(&'a str, Words<'a>),
}

// The lines, read one after another into the same memory.
#[derive(Drop)]
pub struct Script {
    input: BufReader<Stdin>,
    line: Vec<u8>,
    number: u64,
}

impl Script {
    // The buffer is allocated: that is all that can fail.
    pub fn new(input: Stdin, heap: Global) -> io::Result<Script>
        ensures { IfErr result (λ e. error_kind e ≡ OutOfMemory) }
    {
        Ok(Script {
            input: BufReader::new(heap, input)?,
            line: Vec::new(heap),
            number: 0,
        })
    }

    // The next line with its number, from 1; nothing where there is none. No iterator, which would have to
    // allocate each line anew: with one, short lines took half as much time again.
    pub fn next_line(&mut self) -> io::Result<Option<(u64, &[u8])>> {
        self.line.clear();
        if self.input.read_until(b'\n', &mut self.line)? == 0 {
            return Ok(None);
        }
        self.number = self.number.saturating_add(1);
        Ok(Some((self.number, self.line.as_slice())))
    }
}

impl<'a> Request<'a> {
    // What a line asks for; a call that allocates does so on the heap.
    pub fn read(line: &'a [u8], heap: Global) -> Result<Request<'a>, Fault> {
        let text = std::str::from_utf8(line).map_err(|_| Fault::NotText)?;
        let mut words = Words::new(text, heap);
        match words.next_word() {
            None => Ok(Request::Nothing),
            Some("store") => Ok(Request::Store(Choice::try_from(words)?)),
            Some(name) if name.starts_with('#') => Ok(Request::Nothing),
            Some(name) => Ok(Request::Call(name, words)),
        }
    }
}

impl<'a> TryFrom<Words<'a>> for Choice {
    type Error = Fault;

    // Which store the words after `store` name.
    fn try_from(mut words: Words<'a>) -> Result<Choice, Fault> {
        let mut name = words.word()?;
        let mut quota = None;
        if name == "quota" {
            quota = Some(words.read::<usize>()?);
            name = words.word()?;
        }
        let base = match name {
            "still" => Base::Still,
            "doubling" => Base::Doubling(words.read::<usize>()?.min(LONGEST)),
            _ => return Err(Fault::NoSuchStore),
        };
        words.end()?;
        Ok(Choice { base, quota })
    }
}
