ghost use Rattle.std.specs.Prelude.{◌≡◌, ℕ, ◌^◌, ◌<◌, List, length};
ghost use Rattle.devices.specs.Keys.{Takes};

/// Where a show reads its keys. A key source means the list of the bytes that wait, the next one first.
pub trait KeySource {
    /// The bytes that wait.
    ghost keys: { Self → List ℕ };

    /// How many bytes wait. Alters nothing.
    fn waiting(&self) -> u64
        ensures { result ≡ length (keys self.now) };

    /// The first byte that waits, which then waits no longer; none exactly when none waits.
    fn take(&mut self) -> Option<u8>
        ensures { Takes (keys self.old) result (keys self.new) };

    /// Law: fewer than 2^64 bytes wait.
    ghost countable: { (s : Self) → length (keys s) < 2 ^ 64 };
}
