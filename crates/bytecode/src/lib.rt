//! What the reader, the verifier and the player share: kinds, descriptors, instructions, and what they take and leave.
#![tactic(auto)]

mod descriptor;
mod effect;
mod instruction;
mod kind;
mod misspelled;
mod mnemonic;

pub use descriptor::{Descriptor, FieldType, ReturnType};
pub use effect::{Effect, Takes};
pub use instruction::{
    Comparison, Constant, Conversion, Direction, Flow, Instruction, Operator, PrintType, ReadType,
};
pub use kind::{Kind, Number};
pub use misspelled::Misspelled;
pub use mnemonic::Mnemonic;
