ghost use Rattle.std.specs.Prelude.{◌≡◌, Some};
ghost use Rattle.bytecode.specs.Kinds.{kind_letter, kind_of, size, slots};
ghost use Rattle.std.proofs.Common.{rules};

use operands::Cell;
use std::fmt;

/// What sort of value stands on the operand stack.
#[derive(Clone, Copy, Debug, PartialEq, Eq)]
pub enum Kind {
    /// I, a 32-bit signed number.
    Int,
    /// J, a 64-bit signed number. It takes two slots.
    Long,
    /// T, a quoted text.
    Text,
    /// O, the output handle, which a print takes.
    Output,
}

impl Kind {
    /// How many slots a value of this kind takes.
    // Beside `Cell::slots`, for callers to whom a kind is no cell of an operand stack.
    pub fn slots(self) -> usize
        ensures { result ≡ slots self }
    {
        match self {
            Kind::Long => 2,
            Kind::Int | Kind::Text | Kind::Output => 1,
        }
    }
}

impl Cell for Kind {
    ghost size = { slots };

    ghost bounded = { Prim.search rules };

    fn slots(self) -> usize {
        Kind::slots(self)
    }
}

/// The kind's letter.
impl fmt::Display for Kind {
    ghost output = { λ kind. Some (kind_letter kind) };

    fn fmt<W: fmt::Write>(&self, f: &mut fmt::Formatter<W>) -> fmt::Result {
        f.write_str(match self {
            Kind::Int => "I",
            Kind::Long => "J",
            Kind::Text => "T",
            Kind::Output => "O",
        })
    }
}

/// The kinds that are numbers: what arithmetic works on, and registers hold.
#[derive(Clone, Copy, Debug, PartialEq, Eq)]
pub enum Number {
    Int,
    Long,
}

impl Number {
    /// How many registers a number takes.
    pub fn registers(self) -> usize
        ensures { result ≡ size self }
    {
        Kind::from(self).slots()
    }
}

/// The kind of value that the number is.
impl From<Number> for Kind {
    ghost from_gives = { λ number kind. kind ≡ kind_of number };

    fn from(number: Number) -> Kind {
        match number {
            Number::Int => Kind::Int,
            Number::Long => Kind::Long,
        }
    }
}
