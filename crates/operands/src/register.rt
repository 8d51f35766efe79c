/// What a register holds, where an int is told by an `I` and a long by a `J`: their values in a record, nothing in a frame
/// of kinds. A long takes two registers.
#[derive(Clone, Copy, Debug, PartialEq, Eq)]
pub enum Register<I, J> {
    Unset,
    Int(I),
    /// The first of the two registers of a long.
    LongFirst(J),
    LongSecond,
}
