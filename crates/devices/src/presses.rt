ghost use Rattle.std.specs.Prelude.{◌≡◌, ◌^◌, ◌<◌, replicate};
ghost use Rattle.devices.specs.Keys.{presses_countable};

use crate::keys::KeySource;

/// One key, pressed a number of times.
#[derive(Drop)]
pub struct Presses {
    key: u8,
    /// How many presses wait.
    left: u64,
    ghost countable: { left < 2 ^ 64 },
}

impl Presses {
    /// A source where `count` presses of `key` wait.
    pub fn new(key: u8, count: u64) -> Presses
        ensures { (result.key ≡ key) × (result.left ≡ count) }
    {
        Presses { key, left: count }
    }
}

impl KeySource for Presses {
    ghost keys = { λ s. replicate s.left s.key };

    ghost countable = { λ s. presses_countable s.left s.key s.countable };

    fn waiting(&self) -> u64 {
        self.left
    }

    fn take(&mut self) -> Option<u8> {
        self.left = self.left.checked_sub(1)?;
        Some(self.key)
    }
}
