// The words of a line, taken from the left.
use crate::fault::Fault;
use crate::value::Value;
use std::alloc::Global;
use std::str::{FromStr, SplitWhitespace};

#[derive(Drop)]
pub struct Words<'a> {
    rest: SplitWhitespace<'a>,
    heap: Global,
}

impl<'a> Words<'a> {
    pub fn new(line: &'a str, heap: Global) -> Words<'a> {
        Words {
            rest: line.split_whitespace(),
            heap,
        }
    }

    // The next word, if there is one.
    pub fn next_word(&mut self) -> Option<&'a str> {
        self.rest.next()
    }

    // The next word, which has to be there.
    pub fn word(&mut self) -> Result<&'a str, Fault> {
        self.next_word().ok_or(Fault::WordMissing)
    }

    // The line ends here.
    pub fn end(&mut self) -> Result<(), Fault> {
        self.next_word().map_or(Ok(()), |_| Err(Fault::WordsLeft))
    }

    // What the next word says.
    pub fn read<T: FromStr>(&mut self) -> Result<T, Fault>
    where
        Fault: From<T::Err>,
    {
        Ok(self.word()?.parse::<T>()?)
    }

    // `0` for no, `1` for yes.
    pub fn flag(&mut self) -> Result<bool, Fault> {
        match self.word()? {
            "0" => Ok(false),
            "1" => Ok(true),
            _ => Err(Fault::NotANumber),
        }
    }

    // Bytes in hexadecimal, or `-` for none.
    pub fn bytes(&mut self) -> Result<Vec<u8>, Fault> {
        match self.word()? {
            "-" => Ok(Vec::new(self.heap)),
            // before memory is asked for; the crate takes upper case too, which scripts do not
            word if !is_lower_hex(word) => Err(Fault::NotHexadecimal),
            word => Ok(hex::decode(self.heap, word)?),
        }
    }

    // A value of the kind `T`.
    pub fn value<T: Value>(&mut self) -> Result<T, Fault> {
        T::read(self.word()?)
    }

    // The values of the kind `T` that all the words left say.
    pub fn values<T: Value + Drop>(&mut self) -> Result<Vec<T>, Fault> {
        let mut values = Vec::new(self.heap);
        for word in self.rest.by_ref() {
            values.push(T::read(word)?)?;
        }
        Ok(values)
    }
}

// Whether all of a word are the hexadecimal digits of a script. To its end in any case: so it is done many bytes
// at a time.
fn is_lower_hex(word: &str) -> bool {
    word.bytes().fold(true, |all, b| all & matches!(b, b'0'..=b'9' | b'a'..=b'f'))
}
