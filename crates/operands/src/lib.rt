//! The operand stack and the registers of a method, for values and for their kinds alone. Nothing here knows what the
//! values are: a cell of the stack tells its slots, and a register holds an int or half of a long.
#![tactic(auto)]

mod register;
pub mod registers;
pub mod stack;

pub use register::Register;
pub use stack::{Cell, Stack, StackError, StackOp};
