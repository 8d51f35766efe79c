ghost use Rattle.std.specs.Prelude.{◌≡◌, ◌≤◌, [], ◌∷◌, Some, take};
ghost use Rattle.std.specs.Result.{result_ok};
ghost use Rattle.bytecode.specs.Descriptors.{LetterOf, letter, number_of, registers_of, return_letter, return_number};

use crate::kind::Number;
use crate::misspelled::Misspelled;
use std::fmt;

mod parsing;

/// The type of a field or a parameter, by its letter. All but `Long` are held as an I.
#[derive(Clone, Copy, Debug, PartialEq, Eq)]
pub enum FieldType {
    /// `C`
    Char,
    /// `S`
    Short,
    /// `I`
    Int,
    /// `J`
    Long,
}

impl FieldType {
    /// The kind of number that a value of this type is held as.
    // No `From`: three types have the same, so the one is not the other in another form.
    pub fn number(self) -> Number
        ensures { result ≡ number_of self }
    {
        match self {
            FieldType::Char | FieldType::Short | FieldType::Int => Number::Int,
            FieldType::Long => Number::Long,
        }
    }
}

/// The type that a letter stands for.
impl TryFrom<u8> for FieldType {
    type Error = Misspelled;

    ghost try_from_gives = { λ byte r. LetterOf letter byte (result_ok r) };

    fn try_from(byte: u8) -> Result<FieldType, Misspelled> {
        match byte {
            b'C' => Ok(FieldType::Char),
            b'S' => Ok(FieldType::Short),
            b'I' => Ok(FieldType::Int),
            b'J' => Ok(FieldType::Long),
            _ => Err(Misspelled),
        }
    }
}

/// The type's letter.
impl From<FieldType> for u8 {
    ghost from_gives = { λ field byte. byte ≡ letter field };

    fn from(field: FieldType) -> u8 {
        match field {
            FieldType::Char => b'C',
            FieldType::Short => b'S',
            FieldType::Int => b'I',
            FieldType::Long => b'J',
        }
    }
}

/// The type's letter.
impl fmt::Display for FieldType {
    ghost output = { λ field. Some (letter field ∷ []) };

    fn fmt<W: fmt::Write>(&self, f: &mut fmt::Formatter<W>) -> fmt::Result {
        f.write_char(char::from(u8::from(*self)))
    }
}

/// What a method returns: nothing, letter `V`, or a value.
// Of the shape of an `Option`, but nothing is a type here too: it is read from a letter and printed as one.
#[derive(Clone, Copy, Debug, PartialEq, Eq)]
pub enum ReturnType {
    Void,
    Value(FieldType),
}

impl ReturnType {
    /// The kind of number that a method leaves for its caller; none where it returns nothing.
    // No `From`, as at `FieldType`.
    pub fn number(self) -> Option<Number>
        ensures { result ≡ return_number self }
    {
        match self {
            ReturnType::Void => None,
            ReturnType::Value(value) => Some(value.number()),
        }
    }
}

/// What a letter stands for after the parameters.
impl TryFrom<u8> for ReturnType {
    type Error = Misspelled;

    ghost try_from_gives = { λ byte r. LetterOf return_letter byte (result_ok r) };

    fn try_from(byte: u8) -> Result<ReturnType, Misspelled> {
        match byte {
            b'V' => Ok(ReturnType::Void),
            _ => FieldType::try_from(byte).map(ReturnType::Value),
        }
    }
}

/// The letter of what is returned.
impl From<ReturnType> for u8 {
    ghost from_gives = { λ returned byte. byte ≡ return_letter returned };

    fn from(returned: ReturnType) -> u8 {
        match returned {
            ReturnType::Void => b'V',
            ReturnType::Value(value) => u8::from(value),
        }
    }
}

/// The letter of what is returned.
// An `impl` for each type that has a letter: there is none for all that become a `u8`.
impl fmt::Display for ReturnType {
    ghost output = { λ returned. Some (return_letter returned ∷ []) };

    fn fmt<W: fmt::Write>(&self, f: &mut fmt::Formatter<W>) -> fmt::Result {
        let letter = u8::from(*self);
        f.write_char(char::from(letter))
    }
}

/// A method's parameters, which take at most 16 registers, and what it returns.
// An array and a count, and no vector, so that it is `Copy` and of fixed memory: it is to lie in the rows of a lent table.
// No `impl Model` either: a `Copy` struct has one only where its value gives the fields back, also past the count.
#[derive(Clone, Copy, Debug)]
pub struct Descriptor {
    parameters: [FieldType; 16],
    /// How many of them there are.
    count: usize,
    result: ReturnType,
    ghost few: { count ≤ 16 },
    ghost fits: { registers_of (take count parameters) ≤ 16 },
}
