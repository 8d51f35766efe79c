ghost use Rattle.std.specs.Prelude.{◌≡◌, ◌^◌, ◌<◌, length};
ghost use Rattle.std.proofs.Common.{rules};

use crate::keys::KeySource;

/// Keys from a list of bytes.
#[derive(Drop)]
pub struct Tape<'a> {
    /// What waits.
    rest: &'a [u8],
    ghost countable: { length rest.now < 2 ^ 64 },
}

impl<'a> Tape<'a> {
    /// A tape on which all of `bytes` wait, the first one first.
    pub fn new(bytes: &'a [u8]) -> Tape<'a>
        ensures { result.rest.now ≡ bytes.now }
    {
        Tape { rest: bytes }
    }
}

impl<'a> KeySource for Tape<'a> {
    ghost keys = { λ s. s.rest.now };

    ghost countable = { Prim.search rules };

    fn waiting(&self) -> u64 {
        self.rest.len() as u64
    }

    fn take(&mut self) -> Option<u8> {
        let (key, rest) = self.rest.split_first()?;
        self.rest = rest;
        Some(*key)
    }
}
