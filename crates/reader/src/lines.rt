ghost use Rattle.std.specs.Prelude.{◌≡◌, ◌-◌, ◌^◌, ◌<◌, ◌≤◌, length, drop};
ghost use Rattle.std.specs.Iterator.{at_most};
ghost use Rattle.reader.specs.Lines.{GivesLine, line_start, lines};

use crate::bytes::run_end;
use crate::line::Line;

/// Gives the lines of a text, one after another.
#[derive(Drop)]
pub struct Lines<'a> {
    text: &'a [u8],
    /// Where the next line begins.
    at: usize,
    /// How many lines were given.
    given: usize,
    ghost short: { length text.now < 2 ^ 63 },
    ghost placed: { at ≡ line_start text.now given },
    ghost counted: { given ≤ length (lines text.now) },
    ghost left: { drop given (lines text.now) ≡ lines (drop at text.now) },
}

impl<'a> Lines<'a> {
    /// Gives the lines of `text` from its first one on.
    pub fn new(text: &'a [u8]) -> Lines<'a>
        ensures { (result.text.now ≡ text.now) × (result.given ≡ 0) }
    {
        Lines {
            text,
            at: 0,
            given: 0,
        }
    }
}

impl<'a> Iterator for Lines<'a> {
    type Item = Line<'a>;

    ghost next_gives = { λ s r t. GivesLine s.text.now s.given r t.given × (t.text ≡ s.text) };

    ghost remaining = { λ s. at_most (length (lines s.text.now) - s.given) };

    /// The next line; none once all were given.
    fn next(&mut self) -> Option<Line<'a>> {
        let text = self.text;
        let start = self.at;
        if start >= text.len() {
            return None;
        }
        let end = run_end(text, start, |b| b != b'\n');
        self.at = end + 1;
        self.given += 1;
        Some(Line {
            number: self.given,
            place: start,
            bytes: &text[start..end],
        })
    }
}
