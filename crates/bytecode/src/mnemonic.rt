ghost use Rattle.std.specs.Prelude.{◌≡◌, Some};
ghost use Rattle.std.specs.Result.{result_ok};
ghost use Rattle.bytecode.specs.Mnemonics.{Spells, spelling, table_effect};

use crate::effect::Effect;
use crate::effect::Effect::{Fixed, Rearranges};
use crate::effect::Takes::{Nothing, One, Two};
use crate::kind::Kind;
use crate::misspelled::Misspelled;
use crate::mnemonic::Mnemonic::*;
use operands::StackOp;
use std::fmt;

/// The 53 mnemonics. `invokevirtual`, which prints, is none of them.
#[derive(Clone, Copy, Debug, PartialEq, Eq)]
pub enum Mnemonic {
    Iadd,
    Idiv,
    Imul,
    Ineg,
    Irem,
    Ishl,
    Ishr,
    Isub,
    Ladd,
    Ldiv,
    Lmul,
    Lneg,
    Lrem,
    Lshl,
    Lshr,
    Lsub,
    LdcW,
    Ldc2W,
    Sipush,
    Goto,
    IfIcmpeq,
    IfIcmpge,
    IfIcmpgt,
    IfIcmple,
    IfIcmplt,
    IfIcmpne,
    Ifeq,
    Ifge,
    Ifgt,
    Ifle,
    Iflt,
    Ifne,
    Ireturn,
    Lcmp,
    Lreturn,
    Nop,
    Return,
    I2c,
    I2s,
    I2l,
    L2i,
    Dup,
    Dup2,
    Pop,
    Pop2,
    Swap,
    Getstatic,
    Invokestatic,
    Putstatic,
    Iload,
    Istore,
    Lload,
    Lstore,
}

const I: Kind = Kind::Int;

const J: Kind = Kind::Long;

/// A mnemonic, how it is spelled, and what it does to the operand stack: none where its operand decides that.
struct Row(Mnemonic, &'static str, Option<Effect>);

/// The rows of all mnemonics, in the order of the enum.
// Of a `const` the check does not find by itself what stands at an index.
static TABLE: [Row; 53] = [
    Row(Iadd, "iadd", Some(Fixed(Two(I, I), Some(I)))),
    Row(Idiv, "idiv", Some(Fixed(Two(I, I), Some(I)))),
    Row(Imul, "imul", Some(Fixed(Two(I, I), Some(I)))),
    Row(Ineg, "ineg", Some(Fixed(One(I), Some(I)))),
    Row(Irem, "irem", Some(Fixed(Two(I, I), Some(I)))),
    Row(Ishl, "ishl", Some(Fixed(Two(I, I), Some(I)))),
    Row(Ishr, "ishr", Some(Fixed(Two(I, I), Some(I)))),
    Row(Isub, "isub", Some(Fixed(Two(I, I), Some(I)))),
    Row(Ladd, "ladd", Some(Fixed(Two(J, J), Some(J)))),
    Row(Ldiv, "ldiv", Some(Fixed(Two(J, J), Some(J)))),
    Row(Lmul, "lmul", Some(Fixed(Two(J, J), Some(J)))),
    Row(Lneg, "lneg", Some(Fixed(One(J), Some(J)))),
    Row(Lrem, "lrem", Some(Fixed(Two(J, J), Some(J)))),
    Row(Lshl, "lshl", Some(Fixed(Two(J, I), Some(J)))),
    Row(Lshr, "lshr", Some(Fixed(Two(J, I), Some(J)))),
    Row(Lsub, "lsub", Some(Fixed(Two(J, J), Some(J)))),
    Row(LdcW, "ldc_w", None),
    Row(Ldc2W, "ldc2_w", Some(Fixed(Nothing, Some(J)))),
    Row(Sipush, "sipush", Some(Fixed(Nothing, Some(I)))),
    Row(Goto, "goto", Some(Fixed(Nothing, None))),
    Row(IfIcmpeq, "if_icmpeq", Some(Fixed(Two(I, I), None))),
    Row(IfIcmpge, "if_icmpge", Some(Fixed(Two(I, I), None))),
    Row(IfIcmpgt, "if_icmpgt", Some(Fixed(Two(I, I), None))),
    Row(IfIcmple, "if_icmple", Some(Fixed(Two(I, I), None))),
    Row(IfIcmplt, "if_icmplt", Some(Fixed(Two(I, I), None))),
    Row(IfIcmpne, "if_icmpne", Some(Fixed(Two(I, I), None))),
    Row(Ifeq, "ifeq", Some(Fixed(One(I), None))),
    Row(Ifge, "ifge", Some(Fixed(One(I), None))),
    Row(Ifgt, "ifgt", Some(Fixed(One(I), None))),
    Row(Ifle, "ifle", Some(Fixed(One(I), None))),
    Row(Iflt, "iflt", Some(Fixed(One(I), None))),
    Row(Ifne, "ifne", Some(Fixed(One(I), None))),
    Row(Ireturn, "ireturn", Some(Fixed(One(I), None))),
    Row(Lcmp, "lcmp", Some(Fixed(Two(J, J), Some(I)))),
    Row(Lreturn, "lreturn", Some(Fixed(One(J), None))),
    Row(Nop, "nop", Some(Fixed(Nothing, None))),
    Row(Return, "return", Some(Fixed(Nothing, None))),
    Row(I2c, "i2c", Some(Fixed(One(I), Some(I)))),
    Row(I2s, "i2s", Some(Fixed(One(I), Some(I)))),
    Row(I2l, "i2l", Some(Fixed(One(I), Some(J)))),
    Row(L2i, "l2i", Some(Fixed(One(J), Some(I)))),
    Row(Dup, "dup", Some(Rearranges(StackOp::Dup))),
    Row(Dup2, "dup2", Some(Rearranges(StackOp::Dup2))),
    Row(Pop, "pop", Some(Rearranges(StackOp::Pop))),
    Row(Pop2, "pop2", Some(Rearranges(StackOp::Pop2))),
    Row(Swap, "swap", Some(Rearranges(StackOp::Swap))),
    Row(Getstatic, "getstatic", None),
    Row(Invokestatic, "invokestatic", None),
    Row(Putstatic, "putstatic", None),
    Row(Iload, "iload", Some(Fixed(Nothing, Some(I)))),
    Row(Istore, "istore", Some(Fixed(One(I), None))),
    Row(Lload, "lload", Some(Fixed(Nothing, Some(J)))),
    Row(Lstore, "lstore", Some(Fixed(One(J), None))),
];

impl Mnemonic {
    pub fn spelling(self) -> &'static str
        ensures { result.now ≡ spelling self }
    {
        let Row(_, spelling, _) = &TABLE[self as usize];
        spelling
    }

    /// What it takes from the operand stack and leaves on it; none where its operand decides that.
    pub fn effect(self) -> Option<Effect>
        ensures { result ≡ table_effect self }
    {
        let Row(_, _, effect) = &TABLE[self as usize];
        *effect
    }
}

/// The mnemonic that is spelled so.
impl TryFrom<&[u8]> for Mnemonic {
    type Error = Misspelled;

    ghost try_from_gives = { λ word r. Spells word.now (result_ok r) };

    fn try_from(word: &[u8]) -> Result<Mnemonic, Misspelled> {
        TABLE
            .iter()
            .find(|Row(_, spelling, _)| spelling.as_bytes() == word)
            .map(|Row(mnemonic, _, _)| *mnemonic)
            .ok_or(Misspelled)
    }
}

/// The mnemonic's spelling.
impl fmt::Display for Mnemonic {
    ghost output = { λ mnemonic. Some (spelling mnemonic) };

    fn fmt<W: fmt::Write>(&self, f: &mut fmt::Formatter<W>) -> fmt::Result {
        f.write_str(self.spelling())
    }
}
