use crate::effects::ShownEffect;
use bytecode::{Effect, Mnemonic};
use std::{fmt, io};

/// All mnemonics, and words that are none.
static WORDS: [&str; 66] = [
    "iadd",
    "idiv",
    "imul",
    "ineg",
    "irem",
    "ishl",
    "ishr",
    "isub",
    "ladd",
    "ldiv",
    "lmul",
    "lneg",
    "lrem",
    "lshl",
    "lshr",
    "lsub",
    "ldc_w",
    "ldc2_w",
    "sipush",
    "goto",
    "if_icmpeq",
    "if_icmpge",
    "if_icmpgt",
    "if_icmple",
    "if_icmplt",
    "if_icmpne",
    "ifeq",
    "ifge",
    "ifgt",
    "ifle",
    "iflt",
    "ifne",
    "ireturn",
    "lcmp",
    "lreturn",
    "nop",
    "return",
    "i2c",
    "i2s",
    "i2l",
    "l2i",
    "dup",
    "dup2",
    "pop",
    "pop2",
    "swap",
    "getstatic",
    "invokestatic",
    "putstatic",
    "iload",
    "istore",
    "lload",
    "lstore",
    "invokevirtual",
    "invokespecial",
    "new",
    "",
    "iad",
    "iaddx",
    "Iadd",
    "IADD",
    "ldc",
    "ldc_W",
    "if_icmp",
    "dup3",
    "\u{e9}",
];

/// For each word the mnemonic that it spells, and what that takes and leaves.
pub fn words(rt: &HostRuntime) -> io::Result<()> {
    for word in &WORDS {
        print!(rt; "word \"{word}\"")?;
        match Mnemonic::try_from(word.as_bytes()) {
            Ok(mnemonic) => print!(rt; " spelled {mnemonic}{}", ShownRow(mnemonic.effect()))?,
            Err(_) => print!(rt; " no mnemonic")?,
        }
        println!(rt)?;
    }
    Ok(())
}

/// What the table says of a mnemonic, as the test prints it.
#[derive(Clone, Copy)]
struct ShownRow(Option<Effect>);

impl fmt::Display for ShownRow {
    fn fmt<W: fmt::Write>(&self, f: &mut fmt::Formatter<W>) -> fmt::Result {
        match self.0 {
            Some(effect) => write!(f, "{}", ShownEffect(effect)),
            None => write!(f, " by its operand"),
        }
    }
}
