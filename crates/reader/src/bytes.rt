ghost use Rattle.std.specs.Prelude.{◌≡◌, ℕ, Bool, ◌+◌, ◌≤◌, length, drop};
ghost use Rattle.std.specs.List.{prefix_len};
ghost use Rattle.reader.specs.Bytes.{is_allowed, is_blank, is_quotable};

/// What a line may have: a tab, and 32 to 126.
pub(crate) fn is_allowed(b: u8) -> bool
    ensures { result ≡ is_allowed b }
{
    matches!(b, b'\t' | b' '..=b'~')
}

/// What parts words: a tab or a space.
pub(crate) fn is_blank(b: u8) -> bool
    ensures { result ≡ is_blank b }
{
    matches!(b, b'\t' | b' ')
}

/// What a quoted text is made of: any byte but a quote and a tab.
pub(crate) fn is_quotable(b: u8) -> bool
    ensures { result ≡ is_quotable b }
{
    !matches!(b, b'\t' | b'"')
}

/// Where the bytes that pass a test, at `from` and after it, end.
pub(crate) fn run_end<F: Fn(u8) -> bool>(bytes: &[u8], from: usize, test: F) -> usize
    requires { F.IsAlwaysCallable test }
    ensures after { from ≤ result }
    ensures within { from ≤ length bytes.now → result ≤ length bytes.now }
    ensures value { (p : ℕ → Bool) → ((b : ℕ) (r : Bool) → F.post test b r → r ≡ p b) → result ≡ from + prefix_len p (drop from bytes.now) }
{
    if from >= bytes.len() {
        return from;
    }
    // Of the bytes from there on, since `skip` goes through all those before it, one by one.
    let rest = &bytes[from..];
    from + rest.iter().take_while(|b| test(**b)).count()
}
