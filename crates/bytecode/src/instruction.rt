ghost use Rattle.std.specs.Prelude.{◌≡◌, None};
ghost use Rattle.bytecode.specs.FrameExamples.{ExamplesHold};
ghost use Rattle.bytecode.specs.Frames.{TransferLaws};
ghost use Rattle.bytecode.specs.Instructions.{arithmetic_mnemonic, constant_kind, convert_mnemonic, effect_by, effect_of, flow_of, int_mnemonic, mnemonic_of, print_kind, push_mnemonic, read_kind, shift_mnemonic, stack_mnemonic, zero_mnemonic};

use crate::effect::{Effect, Takes};
use crate::kind::{Kind, Number};
use crate::mnemonic::Mnemonic;
use operands::StackOp;

/// What arithmetic with two operands computes.
#[derive(Clone, Copy, Debug, PartialEq, Eq)]
pub enum Operator {
    Add,
    Subtract,
    Multiply,
    Divide,
    Remainder,
}

/// Which way a shift goes. A shift to the right keeps the sign.
#[derive(Clone, Copy, Debug, PartialEq, Eq)]
pub enum Direction {
    Left,
    Right,
}

/// What a number is converted from and to.
#[derive(Clone, Copy, Debug, PartialEq, Eq)]
pub enum Conversion {
    IntToChar,
    IntToShort,
    IntToLong,
    LongToInt,
}

/// How a jump compares a number with another, or with zero.
#[derive(Clone, Copy, Debug, PartialEq, Eq)]
pub enum Comparison {
    Equal,
    GreaterOrEqual,
    Greater,
    LessOrEqual,
    Less,
    NotEqual,
}

/// A constant to push.
#[derive(Clone, Copy, Debug, PartialEq, Eq)]
pub enum Constant {
    /// `sipush`: an I that is given in 16 bits.
    Short(i16),
    /// `ldc_w` with a number.
    Int(i32),
    /// `ldc2_w`.
    Long(i64),
    /// `ldc_w` with a quoted text: where it begins in the scene text, and how many bytes it has.
    // Numbers and no `&str`, so that no instruction borrows from the scene text; and no `Range`, which is not `Copy`.
    Text { place: usize, length: usize },
}

/// What a print shows. A character is an I on the stack.
#[derive(Clone, Copy, Debug, PartialEq, Eq)]
pub enum PrintType {
    Char,
    Int,
    Long,
    Text,
}

/// What a reading block reads. A character is an I on the stack.
// A type beside `PrintType`, so that the reading of a text cannot be written.
#[derive(Clone, Copy, Debug, PartialEq, Eq)]
pub enum ReadType {
    Char,
    Int,
    Long,
}

/// An instruction with its operand. Fields, methods and jumps' targets are numbers of table rows.
// Numbers and no references: the rows lie in tables that the caller lends, and some are written later.
#[derive(Clone, Copy, Debug, PartialEq, Eq)]
pub enum Instruction {
    /// `nop`
    Nop,
    /// `sipush`, `ldc_w`, `ldc2_w`
    Push(Constant),
    /// `iadd`, `lrem` and their like
    Arithmetic(Operator, Number),
    /// `ineg`, `lneg`
    Negate(Number),
    /// `ishl`, `lshr` and their like: a number of the kind named, and on it an I that says how far
    Shift(Direction, Number),
    /// `i2c`, `i2s`, `i2l`, `l2i`
    Convert(Conversion),
    /// `lcmp`
    CompareLong,
    /// `iload`, `lload`: from a register, and the next one for a J
    Load(Number, usize),
    /// `istore`, `lstore`
    Store(Number, usize),
    /// `dup`, `dup2`, `pop`, `pop2`, `swap`
    Stack(StackOp),
    /// `goto`
    Goto(usize),
    /// `ifeq` and its like: jumps where the comparison with zero holds
    IfZero(Comparison, usize),
    /// `if_icmpeq` and its like: jumps where the comparison of two numbers holds
    IfCompare(Comparison, usize),
    /// `getstatic` of a field
    GetField(usize),
    /// `putstatic`
    PutField(usize),
    /// `invokestatic`
    Call(usize),
    /// `getstatic` of `java/lang/System/out`
    GetOutput,
    /// `invokevirtual` of a `print`
    Print(PrintType),
    /// a reading block, which stands on eight or nine lines
    Read(ReadType),
    /// `return`
    Return,
    /// `ireturn`, `lreturn`
    ReturnNumber(Number),
}

impl Constant {
    // A method, as of the other parts of an instruction, and no `From`: several constants have one mnemonic, and others ask for
    // a second part.
    fn mnemonic(self) -> Mnemonic
        ensures { result ≡ push_mnemonic self }
    {
        match self {
            Constant::Short(_) => Mnemonic::Sipush,
            Constant::Int(_) | Constant::Text { .. } => Mnemonic::LdcW,
            Constant::Long(_) => Mnemonic::Ldc2W,
        }
    }

    /// The kind of the value that is pushed.
    fn kind(self) -> Kind
        ensures { result ≡ constant_kind self }
    {
        match self {
            Constant::Short(_) | Constant::Int(_) => Kind::Int,
            Constant::Long(_) => Kind::Long,
            Constant::Text { .. } => Kind::Text,
        }
    }
}

impl Operator {
    fn mnemonic(self, number: Number) -> Mnemonic
        ensures { result ≡ arithmetic_mnemonic self number }
    {
        match (self, number) {
            (Operator::Add, Number::Int) => Mnemonic::Iadd,
            (Operator::Subtract, Number::Int) => Mnemonic::Isub,
            (Operator::Multiply, Number::Int) => Mnemonic::Imul,
            (Operator::Divide, Number::Int) => Mnemonic::Idiv,
            (Operator::Remainder, Number::Int) => Mnemonic::Irem,
            (Operator::Add, Number::Long) => Mnemonic::Ladd,
            (Operator::Subtract, Number::Long) => Mnemonic::Lsub,
            (Operator::Multiply, Number::Long) => Mnemonic::Lmul,
            (Operator::Divide, Number::Long) => Mnemonic::Ldiv,
            (Operator::Remainder, Number::Long) => Mnemonic::Lrem,
        }
    }
}

impl Direction {
    fn mnemonic(self, number: Number) -> Mnemonic
        ensures { result ≡ shift_mnemonic self number }
    {
        match (self, number) {
            (Direction::Left, Number::Int) => Mnemonic::Ishl,
            (Direction::Right, Number::Int) => Mnemonic::Ishr,
            (Direction::Left, Number::Long) => Mnemonic::Lshl,
            (Direction::Right, Number::Long) => Mnemonic::Lshr,
        }
    }
}

impl Conversion {
    fn mnemonic(self) -> Mnemonic
        ensures { result ≡ convert_mnemonic self }
    {
        match self {
            Conversion::IntToChar => Mnemonic::I2c,
            Conversion::IntToShort => Mnemonic::I2s,
            Conversion::IntToLong => Mnemonic::I2l,
            Conversion::LongToInt => Mnemonic::L2i,
        }
    }
}

impl Comparison {
    /// The mnemonics of the two jumps that compare so: a number with zero, and a number with another.
    fn mnemonics(self) -> (Mnemonic, Mnemonic)
        ensures zero { result.0 ≡ zero_mnemonic self }
        ensures int { result.1 ≡ int_mnemonic self }
    {
        match self {
            Comparison::Equal => (Mnemonic::Ifeq, Mnemonic::IfIcmpeq),
            Comparison::GreaterOrEqual => (Mnemonic::Ifge, Mnemonic::IfIcmpge),
            Comparison::Greater => (Mnemonic::Ifgt, Mnemonic::IfIcmpgt),
            Comparison::LessOrEqual => (Mnemonic::Ifle, Mnemonic::IfIcmple),
            Comparison::Less => (Mnemonic::Iflt, Mnemonic::IfIcmplt),
            Comparison::NotEqual => (Mnemonic::Ifne, Mnemonic::IfIcmpne),
        }
    }
}

impl PrintType {
    /// The kind of the value that is printed.
    // A method of each of these types and no trait: nothing takes any type whose values have a kind.
    fn kind(self) -> Kind
        ensures { result ≡ print_kind self }
    {
        match self {
            PrintType::Char | PrintType::Int => Kind::Int,
            PrintType::Long => Kind::Long,
            PrintType::Text => Kind::Text,
        }
    }
}

impl ReadType {
    /// The kind of the value that is read.
    fn kind(self) -> Kind
        ensures { result ≡ read_kind self }
    {
        match self {
            ReadType::Char | ReadType::Int => Kind::Int,
            ReadType::Long => Kind::Long,
        }
    }
}

/// The mnemonic that the operation is written with.
impl From<StackOp> for Mnemonic {
    ghost from_gives = { λ op mnemonic. mnemonic ≡ stack_mnemonic op };

    fn from(op: StackOp) -> Mnemonic {
        match op {
            StackOp::Dup => Mnemonic::Dup,
            StackOp::Dup2 => Mnemonic::Dup2,
            StackOp::Pop => Mnemonic::Pop,
            StackOp::Pop2 => Mnemonic::Pop2,
            StackOp::Swap => Mnemonic::Swap,
        }
    }
}

/// Which instructions can follow another in its method.
// Numbers of instructions, as in `Instruction`.
#[derive(Clone, Copy, Debug, PartialEq, Eq)]
pub enum Flow {
    /// The next one.
    Next,
    /// The jump's target.
    Jump(usize),
    /// The next one or the jump's target.
    Branch(usize),
    /// None.
    End,
}

impl Instruction {
    /// The mnemonic that it is written with; none for a print, whose word is `invokevirtual`, and for a reading block.
    pub fn mnemonic(self) -> Option<Mnemonic>
        ensures { result ≡ mnemonic_of self }
    {
        Some(match self {
            Instruction::Nop => Mnemonic::Nop,
            Instruction::Push(constant) => constant.mnemonic(),
            Instruction::Arithmetic(operator, number) => operator.mnemonic(number),
            Instruction::Negate(Number::Int) => Mnemonic::Ineg,
            Instruction::Negate(Number::Long) => Mnemonic::Lneg,
            Instruction::Shift(direction, number) => direction.mnemonic(number),
            Instruction::Convert(conversion) => conversion.mnemonic(),
            Instruction::CompareLong => Mnemonic::Lcmp,
            Instruction::Load(Number::Int, _) => Mnemonic::Iload,
            Instruction::Load(Number::Long, _) => Mnemonic::Lload,
            Instruction::Store(Number::Int, _) => Mnemonic::Istore,
            Instruction::Store(Number::Long, _) => Mnemonic::Lstore,
            Instruction::Stack(op) => Mnemonic::from(op),
            Instruction::Goto(_) => Mnemonic::Goto,
            Instruction::IfZero(comparison, _) => comparison.mnemonics().0,
            Instruction::IfCompare(comparison, _) => comparison.mnemonics().1,
            Instruction::GetField(_) | Instruction::GetOutput => Mnemonic::Getstatic,
            Instruction::PutField(_) => Mnemonic::Putstatic,
            Instruction::Call(_) => Mnemonic::Invokestatic,
            Instruction::Print(_) | Instruction::Read(_) => return None,
            Instruction::Return => Mnemonic::Return,
            Instruction::ReturnNumber(Number::Int) => Mnemonic::Ireturn,
            Instruction::ReturnNumber(Number::Long) => Mnemonic::Lreturn,
        })
    }

    /// What it does to the operand stack: what the table says of its mnemonic or, where that is open, what its operand says.
    pub fn effect(self) -> Effect
        ensures value { result ≡ effect_of self }
        ensures laws { TransferLaws }
        ensures examples { ExamplesHold }
    {
        self.mnemonic()
            .and_then(Mnemonic::effect)
            .unwrap_or_else(|| self.operand_effect())
    }

    /// What the operand says, where the table leaves it open.
    fn operand_effect(self) -> Effect
        ensures { effect_by (mnemonic_of self) ≡ None → result ≡ effect_of self }
    {
        match self {
            Instruction::Push(constant) => Effect::Fixed(Takes::Nothing, Some(constant.kind())),
            Instruction::GetField(field) => Effect::GetsField(field),
            Instruction::PutField(field) => Effect::PutsField(field),
            Instruction::Call(method) => Effect::Calls(method),
            Instruction::GetOutput => Effect::Fixed(Takes::Nothing, Some(Kind::Output)),
            Instruction::Print(what) => Effect::Fixed(Takes::Two(Kind::Output, what.kind()), None),
            Instruction::Read(what) => Effect::Fixed(Takes::Nothing, Some(what.kind())),
            // The table has told of the others.
            _ => Effect::Fixed(Takes::Nothing, None),
        }
    }

    /// Which instructions can follow it.
    pub fn flow(self) -> Flow
        ensures { result ≡ flow_of self }
    {
        match self {
            Instruction::Goto(target) => Flow::Jump(target),
            Instruction::IfZero(_, target) | Instruction::IfCompare(_, target) => {
                Flow::Branch(target)
            }
            Instruction::Return | Instruction::ReturnNumber(_) => Flow::End,
            _ => Flow::Next,
        }
    }
}
