//! Drives the instruction set, the descriptors, the operand stack and the registers on cases whose answers are known, and
//! prints a line for each.
#![tactic(auto)]

mod descriptors;
mod effects;
mod instructions;
mod mnemonics;
mod registers;
mod stacks;
mod value;

use std::io;

fn main(rt: HostRuntime) -> io::Result<()> {
    mnemonics::words(&rt)?;
    instructions::cases(&rt)?;
    descriptors::letters(&rt)?;
    descriptors::texts(&rt)?;
    stacks::cases(&rt)?;
    registers::cases(&rt)
}
