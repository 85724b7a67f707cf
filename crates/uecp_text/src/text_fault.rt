//! Why a line of input was refused (profile).
ghost use Rattle.std.specs.Prelude.{◌≡◌};
ghost use Rattle.uecp_text.specs.Faults.{refusal_text, IsPlain};
ghost use Rattle.uecp_text.specs.Run.{fault_at};
ghost use Rattle.uecp_text.specs.declared.text_fault.TextFault.TheVariants.{OutOfMemory};

use crate::run_fault::RunFault;
use std::alloc::{AllocError, AllocFailed};
use std::fmt;
use thiserror::Error;

/// At which character a line of phrases says nothing, and what was expected there.
#[derive(Clone, Copy, Debug, PartialEq, Eq)]
pub struct Unsaid {
    /// The column of that character, counted in characters from 1, the first being the first of the line that is no
    /// space; where the line is too short, the column behind its last.
    pub column: usize,
    /// The character, where it is one that nothing can begin with or that stands for no byte.
    pub character: Option<char>,
    /// What is said of the character, such as `is not in the RDS character set`; or, where there is none, what was
    /// expected, such as `four hexadecimal digits`.
    pub what: &'static str,
    /// The nearest word that could stand there, where one is near.
    pub nearest: Option<&'static str>,
}

/// What `report` says of it behind the line's number and the column.
impl fmt::Display for Unsaid {
    fn fmt<W: fmt::Write>(&self, f: &mut fmt::Formatter<W>) -> fmt::Result {
        match self.character {
            Some(character) => write!(f, "'{character}' {}", self.what)?,
            None => write!(f, "expected {}", self.what)?,
        }
        match self.nearest {
            Some(word) => write!(f, "; did you mean {word}?"),
            None => Ok(()),
        }
    }
}

/// A refusal as it is said behind the number of its line: the column where it is known, and the text.
#[derive(Clone, Copy)]
pub(crate) struct BehindNumber<'a>(pub(crate) &'a TextFault);

impl fmt::Display for BehindNumber<'_> {
    fn fmt<W: fmt::Write>(&self, f: &mut fmt::Formatter<W>) -> fmt::Result {
        match self.0 {
            TextFault::Unsaid(unsaid) => write!(f, ", column {}: {unsaid}", unsaid.column),
            refusal => write!(f, ": {refusal}"),
        }
    }
}

/// What is wrong with one line, in the order in which it is looked for. Its text is what `report` says of it behind the
/// line's number, and the column where that is known.
#[derive(Clone, Copy, Debug, PartialEq, Eq, Error)]
pub enum TextFault {
    /// A line of pieces has another character than a digit, or an odd number of digits.
    #[error("not hex")]
    NotHex,
    /// A line of a script has an unknown first word, a wrong number of words or wrong digits.
    #[error("not a command")]
    NotACommand,
    /// An element stands before any frame.
    #[error("no frame")]
    NoFrame,
    /// The message would have more than 255 bytes.
    #[error("message too long")]
    MessageTooLong,
    /// A line of phrases says nothing.
    #[error("{0}")]
    Unsaid(Unsaid),
    /// There was no memory: the line itself is not at fault.
    #[error("out of memory")]
    OutOfMemory,
}

impl TextFault {
    /// The run's fault where this is the fault of the line of this number, counted from 1.
    pub fn at(self, number: usize) -> RunFault
        ensures { result ≡ fault_at number self }
    {
        match self {
            TextFault::OutOfMemory => RunFault::OutOfMemory,
            refusal => RunFault::Text(number, refusal),
        }
    }

    /// What is said of it, such as `not hex`; of a line of phrases what is said of the character.
    pub fn text(self) -> &'static str
        ensures { IsPlain self → result.now ≡ refusal_text self }
    {
        match self {
            TextFault::NotHex => "not hex",
            TextFault::NotACommand => "not a command",
            TextFault::NoFrame => "no frame",
            TextFault::MessageTooLong => "message too long",
            TextFault::Unsaid(unsaid) => unsaid.what,
            TextFault::OutOfMemory => "out of memory",
        }
    }
}

impl From<AllocError> for TextFault {
    ghost from_gives = { λ _ e. e ≡ OutOfMemory };

    fn from(_error: AllocError) -> TextFault {
        TextFault::OutOfMemory
    }
}

impl<T: Drop> From<AllocFailed<T>> for TextFault {
    ghost from_gives = { λ _ e. e ≡ OutOfMemory };

    fn from(_error: AllocFailed<T>) -> TextFault {
        TextFault::OutOfMemory
    }
}
