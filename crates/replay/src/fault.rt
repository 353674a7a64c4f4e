// Why a line is no call, and why a call gives no answer.
use hex::FromHexError;
use std::alloc::AllocFailed;
use std::fmt;
use std::num::ParseIntError;
use wire::refusal::Refusal;

#[derive(Clone, Copy)]
pub enum Fault {
    NotText,
    NoStore,
    NoSuchCall,
    NoSuchKind,
    NoSuchStore,
    WordMissing,
    WordsLeft,
    NotANumber,
    NotHexadecimal,
    NoMemory,
}

impl fmt::Display for Fault {
    fn fmt<W: fmt::Write>(&self, f: &mut fmt::Formatter<W>) -> fmt::Result {
        let why = match self {
            Fault::NotText => "the line is not UTF-8",
            Fault::NoStore => "no store is open yet",
            Fault::NoSuchCall => "no call has this name",
            Fault::NoSuchKind => "no kind has this name",
            Fault::NoSuchStore => "no store has this name",
            Fault::WordMissing => "a word is missing",
            Fault::WordsLeft => "there are more words than the call takes",
            Fault::NotANumber => "a word is not a value of its kind",
            Fault::NotHexadecimal => "a word is not pairs of hexadecimal digits",
            Fault::NoMemory => "there is no memory for the line",
        };
        f.write_str(why)
    }
}

impl<T: Drop> From<AllocFailed<T>> for Fault {
    fn from(_: AllocFailed<T>) -> Fault {
        Fault::NoMemory
    }
}

impl From<ParseIntError> for Fault {
    fn from(_: ParseIntError) -> Fault {
        Fault::NotANumber
    }
}

impl From<FromHexError> for Fault {
    fn from(error: FromHexError) -> Fault {
        match error {
            FromHexError::OutOfMemory => Fault::NoMemory,
            _ => Fault::NotHexadecimal,
        }
    }
}

// Why a line has no answer: it is no call, or the builder refused it.
#[derive(Drop)]
pub enum Failure<E> {
    Fault(Fault),
    Refused(Refusal<E>),
}

impl<E> From<Fault> for Failure<E> {
    fn from(fault: Fault) -> Failure<E> {
        Failure::Fault(fault)
    }
}

impl<E> From<Refusal<E>> for Failure<E> {
    fn from(refusal: Refusal<E>) -> Failure<E> {
        Failure::Refused(refusal)
    }
}
