ghost use Rattle.std.specs.Prelude.{◌≡◌, ◌-◌, ◌&&◌, ℕ, nat_le, length, take, true, false, MatchOption};
ghost use Rattle.std.specs.Char.{is_ascii_alphanumeric};
ghost use Rattle.std.specs.List.{list_all};
ghost use Rattle.reader.specs.Tokens.{at_place, part_of};
ghost use Rattle.reader.specs.Words.{is_directive, is_label, is_name, is_number, plain};

/// A word of a scene text, which borrows its part of the text.
#[derive(Clone, Copy, Debug, PartialEq, Eq)]
pub enum Word<'a> {
    /// A `.` and then one or more letters.
    Directive(&'a [u8]),
    /// A name that a `:` follows, which is left out; it may begin with a digit.
    Label(&'a [u8]),
    /// 1 to 32 letters and digits, the first a letter.
    Name(&'a [u8]),
    /// An optional minus, and then one or more digits.
    Number(&'a [u8]),
    /// What stands between two quotes.
    Quoted(&'a [u8]),
    /// None of these.
    Other(&'a [u8]),
}

impl<'a> Word<'a> {
    /// The part of the text that the word borrows.
    pub fn part(self) -> &'a [u8]
        ensures { result.now ≡ part_of self.entry }
    {
        match self {
            Word::Directive(part)
            | Word::Label(part)
            | Word::Name(part)
            | Word::Number(part)
            | Word::Quoted(part)
            | Word::Other(part) => part,
        }
    }

    /// The word of these bytes, which are no quoted text.
    pub(crate) fn plain(bytes: &'a [u8]) -> Word<'a>
        ensures { (p : ℕ) → at_place p result ≡ plain p bytes.now }
    {
        if is_directive(bytes) {
            Word::Directive(bytes)
        } else if let Some(name) = label_name(bytes) {
            Word::Label(name)
        } else if is_name(bytes) {
            Word::Name(bytes)
        } else if is_number(bytes) {
            Word::Number(bytes)
        } else {
            Word::Other(bytes)
        }
    }
}

fn is_directive(w: &[u8]) -> bool
    ensures { result ≡ is_directive w.now }
{
    match w {
        [b'.', letters @ ..] => !letters.is_empty() && letters.iter().all(u8::is_ascii_alphabetic),
        _ => false,
    }
}

/// The label without its `:`, if it is one.
fn label_name(w: &[u8]) -> Option<&[u8]>
    ensures { MatchOption result (is_label w.now ≡ false) (λ name. (is_label w.now ≡ true) × (name.now ≡ take (length w.now - 1) w.now)) }
{
    match w {
        [name @ .., b':'] if is_short(name) => Some(name),
        _ => None,
    }
}

fn is_name(w: &[u8]) -> bool
    ensures { result ≡ is_name w.now }
{
    match w {
        [first, ..] => first.is_ascii_alphabetic() && is_short(w),
        [] => false,
    }
}

/// Whether these are 1 to 32 letters and digits.
fn is_short(w: &[u8]) -> bool
    ensures { result ≡ (nat_le 1 (length w.now) && nat_le (length w.now) 32) && list_all is_ascii_alphanumeric w.now }
{
    !w.is_empty() && w.len() <= 32 && w.iter().all(u8::is_ascii_alphanumeric)
}

fn is_number(w: &[u8]) -> bool
    ensures { result ≡ is_number w.now }
{
    let digits = w.strip_prefix(b"-").unwrap_or(w);
    !digits.is_empty() && digits.iter().all(u8::is_ascii_digit)
}
