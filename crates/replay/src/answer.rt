// What a line is answered, and how it is printed.
ghost use Rattle.std.specs.Prelude.{◌≡◌, IfErr};
ghost use Rattle.std.specs.IoError.{error_kind};
ghost use Rattle.std.specs.declared.io.ErrorKind.TheVariants.{OutOfMemory};

use crate::fault::{Failure, Fault};
use std::alloc::Global;
use std::io;
use std::io::{BufWriter, Stdout, Write};

#[derive(Clone, Copy)]
pub enum Answer<'a> {
    Done,
    At(u32),
    Count(usize),
    Bytes(&'a [u8]),
}

// Where answers go, one to a line.
#[derive(Drop)]
pub struct Answers {
    output: BufWriter<Stdout>,
    heap: Global,
}

impl Answers {
    // The buffer is allocated: that is all that can fail.
    pub fn new(output: Stdout, heap: Global) -> io::Result<Answers>
        ensures { IfErr result (λ e. error_kind e ≡ OutOfMemory) }
    {
        Ok(Answers {
            output: BufWriter::new(heap, output)?,
            heap,
        })
    }

    pub fn answer(&mut self, answer: Answer) -> io::Result<()> {
        match answer {
            Answer::Done => writeln!(self.output, "ok"),
            Answer::At(offset) => writeln!(self.output, "{offset}"),
            Answer::Count(count) => writeln!(self.output, "{count}"),
            Answer::Bytes([]) => writeln!(self.output, "-"),
            // No Display: it has no heap, and byte by byte scripts took three times as long.
            Answer::Bytes(bytes) => writeln!(self.output, "{}", hex::encode(self.heap, bytes)?),
        }
    }

    // Says why the line of this number is no call.
    pub fn fault(&mut self, line: u64, fault: Fault) -> io::Result<()> {
        writeln!(self.output, "error {line}: {fault}")
    }

    // Says why the line of this number has no answer.
    pub fn failure<E: Drop>(&mut self, line: u64, failure: Failure<E>) -> io::Result<()> {
        match failure {
            Failure::Fault(fault) => self.fault(line, fault),
            Failure::Refused(refusal) => writeln!(self.output, "refused {}", refusal.number()),
        }
    }

    pub fn end(&mut self) -> io::Result<()> {
        self.output.flush()
    }
}
