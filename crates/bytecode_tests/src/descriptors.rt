use bytecode::{Descriptor, FieldType, Number, ReturnType};
use std::{fmt, io};

/// Letters of types, and some that are none.
static LETTERS: [u8; 9] = [b'C', b'S', b'I', b'J', b'V', b'c', b'Z', b'L', 0];

/// Descriptors, and texts that are none.
static TEXTS: [&str; 37] = [
    "()V",
    "()C",
    "()S",
    "()I",
    "()J",
    "(C)V",
    "(CSIJ)J",
    "(JI)I",
    "(IIIIIIIIIIIIIIII)V",
    "(IIIIIIIIIIIIIIIII)V",
    "(JJJJJJJJ)J",
    "(JJJJJJJJI)V",
    "(IJJJJJJJ)V",
    "(IJJJJJJJI)V",
    "(IJJJJJJJJ)V",
    "(IIIIIIIIIIIIIIIJ)V",
    "(IIIIIIIIIIIIIIJ)V",
    "",
    "(",
    "()",
    ")V",
    "V",
    "I",
    "()VV",
    "()V ",
    " ()V",
    "( )V",
    "(I )V",
    "(V)V",
    "(I",
    "(I)",
    "(i)V",
    "()Z",
    "()v",
    "([Ljava/lang/String;)V",
    "(I)I)I",
    "((I)V",
];

/// For each letter the types that it stands for.
pub fn letters(rt: &HostRuntime) -> io::Result<()> {
    for byte in &LETTERS {
        print!(rt; "letter {byte}")?;
        match FieldType::try_from(*byte) {
            Ok(field) => print!(rt; " field {field} {}", ShownNumber(field.number()))?,
            Err(_) => print!(rt; " no field")?,
        }
        match ReturnType::try_from(*byte) {
            Ok(returned) => print!(rt; "{}", ShownResult(returned))?,
            Err(_) => print!(rt; " no result")?,
        }
        println!(rt)?;
    }
    Ok(())
}

/// For each text its parameters, the registers that they take, and its result.
pub fn texts(rt: &HostRuntime) -> io::Result<()> {
    for text in &TEXTS {
        print!(rt; "descriptor \"{text}\"")?;
        match Descriptor::try_from(text.as_bytes()) {
            Ok(descriptor) => print!(rt; "{}", ShownDescriptor(descriptor))?,
            Err(_) => print!(rt; " none")?,
        }
        println!(rt)?;
    }
    Ok(())
}

/// A descriptor, as the test prints it: its parameters, the registers that they take, and its result.
#[derive(Clone, Copy)]
struct ShownDescriptor(Descriptor);

impl fmt::Display for ShownDescriptor {
    fn fmt<W: fmt::Write>(&self, f: &mut fmt::Formatter<W>) -> fmt::Result {
        write!(f, " parameters ")?;
        for parameter in self.0.parameters() {
            write!(f, "{parameter}")?;
        }
        let result = ShownResult(self.0.result());
        write!(f, " registers {}{result}", self.0.registers())
    }
}

/// The result of a method, as the test prints it: its letter, and the number that it is held as.
#[derive(Clone, Copy)]
struct ShownResult(ReturnType);

impl fmt::Display for ShownResult {
    fn fmt<W: fmt::Write>(&self, f: &mut fmt::Formatter<W>) -> fmt::Result {
        write!(f, " result {}", self.0)?;
        match self.0.number() {
            Some(number) => write!(f, " {}", ShownNumber(number)),
            None => Ok(()),
        }
    }
}

/// A kind of number, as the test prints it.
#[derive(Clone, Copy)]
struct ShownNumber(Number);

impl fmt::Display for ShownNumber {
    fn fmt<W: fmt::Write>(&self, f: &mut fmt::Formatter<W>) -> fmt::Result {
        f.write_str(match self.0 {
            Number::Int => "int",
            Number::Long => "long",
        })
    }
}
