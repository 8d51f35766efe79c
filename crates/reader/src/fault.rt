ghost use Rattle.std.specs.Prelude.{◌≡◌, Some};
ghost use Rattle.reader.specs.Faults.{entry_fault, fault_at, fault_text, word_fault};

use crate::refusal::{Layer, Refusal};
use std::error::Error;
use std::fmt;

/// A refusal, with its layer and the line where it arose (0 where it belongs to no line).
// A number, and no `Option`: the 0 is what is printed.
// That the layer is the refusal's own is no ghost field: the fields are public, and it would ask a proof of whoever fills them.
#[derive(Clone, Copy, Debug, PartialEq, Eq)]
pub struct Fault {
    pub refusal: Refusal,
    pub layer: Layer,
    pub line: usize,
}

impl Fault {
    /// The refusal at a line, in the refusal's own layer.
    pub fn new(refusal: Refusal, line: usize) -> Fault
        ensures { result ≡ fault_at refusal line }
    {
        Fault {
            refusal,
            layer: refusal.layer(),
            line,
        }
    }
}

/// What is refused before the first line is read.
#[derive(Clone, Copy, Debug, PartialEq, Eq)]
pub enum EntryFault {
    TextTooLong,
    TooFewRows,
}

/// A line whose bytes or quotes are at fault.
#[derive(Clone, Copy, Debug, PartialEq, Eq)]
pub struct WordFault {
    pub line: usize,
}

impl From<EntryFault> for Fault {
    ghost from_gives = { λ x y. y ≡ entry_fault x };

    fn from(fault: EntryFault) -> Fault {
        match fault {
            EntryFault::TextTooLong => Fault::new(Refusal::TextTooLong, 0),
            EntryFault::TooFewRows => Fault::new(Refusal::TooFewRows, 0),
        }
    }
}

impl From<WordFault> for Fault {
    ghost from_gives = { λ x y. y ≡ word_fault x };

    fn from(fault: WordFault) -> Fault {
        Fault::new(Refusal::UnreadableWord, fault.line)
    }
}

impl fmt::Display for Fault {
    ghost output = { λ fault. Some (fault_text fault) };

    /// Writes the refusal's number, a space and the line.
    fn fmt<W: fmt::Write>(&self, f: &mut fmt::Formatter<W>) -> fmt::Result {
        write!(f, "{} {}", self.refusal.number(), self.line)
    }
}

// An `impl` for each of the two: there is none for all types that become a `Fault`, since `Fault` has its own.
impl fmt::Display for EntryFault {
    ghost output = { λ fault. Some (fault_text (entry_fault fault)) };

    /// Writes the fault that it becomes.
    fn fmt<W: fmt::Write>(&self, f: &mut fmt::Formatter<W>) -> fmt::Result {
        Fault::from(*self).fmt(f)
    }
}

impl fmt::Display for WordFault {
    ghost output = { λ fault. Some (fault_text (word_fault fault)) };

    /// Writes the fault that it becomes.
    fn fmt<W: fmt::Write>(&self, f: &mut fmt::Formatter<W>) -> fmt::Result {
        write!(f, "{}", Fault::from(*self))
    }
}

impl Error for Fault {}

impl Error for EntryFault {}

impl Error for WordFault {}
