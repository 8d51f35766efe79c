ghost use Rattle.bytecode_tests.specs.Values.{value_slots};
ghost use Rattle.std.proofs.Common.{rules};

use operands::Cell;
use std::fmt;

/// A value on a stack: a long takes two slots.
#[derive(Clone, Copy)]
pub enum Value {
    Int(i32),
    Long(i64),
}

impl Cell for Value {
    ghost size = { value_slots };

    ghost bounded = { Prim.search rules };

    fn slots(self) -> usize {
        match self {
            Value::Int(_) => 1,
            Value::Long(_) => 2,
        }
    }
}

/// The number, with an `L` after a long.
impl fmt::Display for Value {
    fn fmt<W: fmt::Write>(&self, f: &mut fmt::Formatter<W>) -> fmt::Result {
        match self {
            Value::Int(value) => write!(f, "{value}"),
            Value::Long(value) => write!(f, "{value}L"),
        }
    }
}
