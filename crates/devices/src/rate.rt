ghost use Rattle.std.specs.Prelude.{◌≡◌, ℕ, List, length};
ghost use Rattle.devices.specs.Costs.{cost};
ghost use Rattle.devices.specs.Laws.{CostLaws};

/// What a panel charges in units: P for each byte of a text, and Q for the text.
#[derive(Clone, Copy, Debug, PartialEq, Eq)]
pub struct Rate {
    /// P, the units for each byte.
    pub byte: u8,
    /// Q, the units for each text that is not empty.
    pub text: u8,
}

impl Rate {
    /// What a text of `len` bytes costs, whatever bytes they are. No length is too long.
    pub fn cost(self, len: usize) -> u128
        ensures value { (text : List ℕ) → length text ≡ len → result ≡ cost self text }
        ensures laws { CostLaws }
    {
        if len == 0 {
            return 0;
        }
        u128::from(self.byte) * (len as u128) + u128::from(self.text)
    }
}
