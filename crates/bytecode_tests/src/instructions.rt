use crate::effects::ShownEffect;
use bytecode::{
    Comparison, Constant, Conversion, Direction, Flow, Instruction, Number, Operator, PrintType,
    ReadType,
};
use operands::StackOp;
use std::{fmt, io};

/// Instructions of every sort.
static CASES: [Instruction; 62] = [
    Instruction::Nop,
    Instruction::Push(Constant::Short(-1)),
    Instruction::Push(Constant::Int(70_000)),
    Instruction::Push(Constant::Text {
        place: 9,
        length: 3,
    }),
    Instruction::Push(Constant::Long(-5)),
    Instruction::Arithmetic(Operator::Add, Number::Int),
    Instruction::Arithmetic(Operator::Subtract, Number::Int),
    Instruction::Arithmetic(Operator::Multiply, Number::Int),
    Instruction::Arithmetic(Operator::Divide, Number::Int),
    Instruction::Arithmetic(Operator::Remainder, Number::Int),
    Instruction::Arithmetic(Operator::Add, Number::Long),
    Instruction::Arithmetic(Operator::Subtract, Number::Long),
    Instruction::Arithmetic(Operator::Multiply, Number::Long),
    Instruction::Arithmetic(Operator::Divide, Number::Long),
    Instruction::Arithmetic(Operator::Remainder, Number::Long),
    Instruction::Negate(Number::Int),
    Instruction::Negate(Number::Long),
    Instruction::Shift(Direction::Left, Number::Int),
    Instruction::Shift(Direction::Right, Number::Int),
    Instruction::Shift(Direction::Left, Number::Long),
    Instruction::Shift(Direction::Right, Number::Long),
    Instruction::Convert(Conversion::IntToChar),
    Instruction::Convert(Conversion::IntToShort),
    Instruction::Convert(Conversion::IntToLong),
    Instruction::Convert(Conversion::LongToInt),
    Instruction::CompareLong,
    Instruction::Load(Number::Int, 15),
    Instruction::Load(Number::Long, 14),
    Instruction::Store(Number::Int, 0),
    Instruction::Store(Number::Long, 0),
    Instruction::Stack(StackOp::Dup),
    Instruction::Stack(StackOp::Dup2),
    Instruction::Stack(StackOp::Pop),
    Instruction::Stack(StackOp::Pop2),
    Instruction::Stack(StackOp::Swap),
    Instruction::Goto(7),
    Instruction::IfZero(Comparison::Equal, 1),
    Instruction::IfZero(Comparison::GreaterOrEqual, 2),
    Instruction::IfZero(Comparison::Greater, 3),
    Instruction::IfZero(Comparison::LessOrEqual, 4),
    Instruction::IfZero(Comparison::Less, 5),
    Instruction::IfZero(Comparison::NotEqual, 6),
    Instruction::IfCompare(Comparison::Equal, 1),
    Instruction::IfCompare(Comparison::GreaterOrEqual, 2),
    Instruction::IfCompare(Comparison::Greater, 3),
    Instruction::IfCompare(Comparison::LessOrEqual, 4),
    Instruction::IfCompare(Comparison::Less, 5),
    Instruction::IfCompare(Comparison::NotEqual, 6),
    Instruction::GetField(63),
    Instruction::PutField(0),
    Instruction::Call(31),
    Instruction::GetOutput,
    Instruction::Print(PrintType::Char),
    Instruction::Print(PrintType::Int),
    Instruction::Print(PrintType::Long),
    Instruction::Print(PrintType::Text),
    Instruction::Read(ReadType::Char),
    Instruction::Read(ReadType::Int),
    Instruction::Read(ReadType::Long),
    Instruction::Return,
    Instruction::ReturnNumber(Number::Int),
    Instruction::ReturnNumber(Number::Long),
];

/// For each instruction its mnemonic, what it does to the stack, and which can follow.
pub fn cases(rt: &HostRuntime) -> io::Result<()> {
    for instruction in &CASES {
        print!(rt; "instruction ")?;
        match instruction.mnemonic() {
            Some(mnemonic) => print!(rt; "{mnemonic}")?,
            None => print!(rt; "-")?,
        }
        let effect = ShownEffect(instruction.effect());
        let flow = ShownFlow(instruction.flow());
        println!(rt; "{effect}{flow}")?;
    }
    Ok(())
}

/// Which instructions can follow, as the test prints it.
#[derive(Clone, Copy)]
struct ShownFlow(Flow);

impl fmt::Display for ShownFlow {
    fn fmt<W: fmt::Write>(&self, f: &mut fmt::Formatter<W>) -> fmt::Result {
        match self.0 {
            Flow::Next => write!(f, " then next"),
            Flow::Jump(target) => write!(f, " then {target}"),
            Flow::Branch(target) => write!(f, " then next or {target}"),
            Flow::End => write!(f, " then none"),
        }
    }
}
