ghost use Rattle.std.specs.Prelude.{Some, codes};

use std::error::Error;
use std::fmt;

/// What comes of bytes that spell nothing of the type that they are converted to.
#[derive(Clone, Copy, Debug, PartialEq, Eq)]
pub struct Misspelled;

impl fmt::Display for Misspelled {
    ghost output = { λ _. Some (codes "misspelled") };

    fn fmt<W: fmt::Write>(&self, f: &mut fmt::Formatter<W>) -> fmt::Result {
        f.write_str("misspelled")
    }
}

impl Error for Misspelled {}
