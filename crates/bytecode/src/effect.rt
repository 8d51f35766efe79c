use crate::kind::Kind;
use operands::StackOp;

/// What an instruction takes from the operand stack: the kinds of the values, the last one's from the top.
#[derive(Clone, Copy, Debug, PartialEq, Eq)]
pub enum Takes {
    Nothing,
    One(Kind),
    Two(Kind, Kind),
}

/// What an instruction does to the operand stack.
// Numbers of rows, as in `Instruction`.
#[derive(Clone, Copy, Debug, PartialEq, Eq)]
pub enum Effect {
    /// Takes values of these kinds, and leaves a value of that kind or none.
    Fixed(Takes, Option<Kind>),
    /// Rearranges the values that lie there.
    Rearranges(StackOp),
    /// Leaves the value of the field that has this number.
    GetsField(usize),
    /// Takes a value for the field that has this number.
    PutsField(usize),
    /// Takes the parameters of the method that has this number, and leaves what it returns.
    Calls(usize),
}
