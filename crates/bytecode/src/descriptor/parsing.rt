ghost use Rattle.std.specs.Prelude.{◌≡◌, ◌≤◌, length};
ghost use Rattle.std.specs.Result.{result_ok};
ghost use Rattle.bytecode.specs.Descriptors.{SpellsOnce, registers_of};
ghost use Rattle.bytecode.specs.Signatures.{Reads, StandFor, signature_of};

use crate::descriptor::{Descriptor, FieldType, ReturnType};
use crate::misspelled::Misspelled;

/// The most registers that the parameters of a method may take.
const MOST: usize = 16;

/// Reads a descriptor such as `(IJ)V`: the letters of the parameters in parentheses, and the letter of the result. Refused
/// where the text is no descriptor, or its parameters take more than 16 registers, of which a `J` takes two.
impl TryFrom<&[u8]> for Descriptor {
    type Error = Misspelled;

    ghost try_from_gives = { λ text r. Reads text.now (result_ok r) × SpellsOnce };

    fn try_from(text: &[u8]) -> Result<Descriptor, Misspelled> {
        let [b'(', letters @ .., b')', returned] = text else {
            return Err(Misspelled);
        };
        let result = ReturnType::try_from(*returned)?;
        let parameters = types_of(letters)?;
        let count = letters.len();
        if registers_of(&parameters[..count]) > MOST {
            return Err(Misspelled);
        }
        Ok(Descriptor {
            parameters,
            count,
            result,
        })
    }
}

/// The types that at most 16 letters stand for, and then others that mean nothing.
fn types_of(letters: &[u8]) -> Result<[FieldType; 16], Misspelled>
    ensures { StandFor letters.now (result_ok result) }
{
    let mut types = [FieldType::Int; 16];
    if letters.len() > types.len() {
        return Err(Misspelled);
    }
    // Each is written by its place: of what `iter_mut().zip(..)` writes, a proof knows nothing after the loop.
    for (place, letter) in letters.iter().enumerate() {
        types[place] = FieldType::try_from(*letter)?;
    }
    Ok(types)
}

/// How many registers parameters take.
fn registers_of(parameters: &[FieldType]) -> usize
    requires { length parameters.now ≤ 16 }
    ensures { result ≡ registers_of parameters.now }
{
    parameters
        .iter()
        .map(|parameter| parameter.number().registers())
        .sum()
}

impl Descriptor {
    /// The types of the parameters, the first one first.
    pub fn parameters(&self) -> &[FieldType]
        ensures { result.now ≡ (signature_of self.now).parameters }
    {
        &self.parameters[..self.count]
    }

    pub fn result(&self) -> ReturnType
        ensures { result ≡ (signature_of self.now).result }
    {
        self.result
    }

    /// How many registers the parameters take.
    pub fn registers(&self) -> usize
        ensures { result ≡ registers_of (signature_of self.now).parameters }
    {
        registers_of(self.parameters())
    }
}
