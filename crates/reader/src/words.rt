ghost use Rattle.std.specs.Prelude.{◌≡◌, ◌-◌, length};
ghost use Rattle.std.specs.Iterator.{at_most};
ghost use Rattle.reader.specs.Grammar.{Grammatical};
ghost use Rattle.reader.specs.Tokens.{GivesWord, IsPart, Moves, Opens, answered};
ghost use Rattle.reader.specs.Words.{words_from};

use crate::bytes::{is_allowed, is_blank, is_quotable, run_end};
use crate::fault::WordFault;
use crate::line::Line;
use crate::word::Word;

/// A word, and where its part begins in its line, counted from 0.
#[derive(Clone, Copy, Debug, PartialEq, Eq)]
pub struct Token<'a> {
    pub word: Word<'a>,
    pub place: usize,
}

/// Gives the words of a line, one after another.
#[derive(Drop)]
pub struct Words<'a> {
    line: Line<'a>,
    /// Where reading goes on.
    at: usize,
}

impl<'a> Words<'a> {
    /// Gives the words of `line` from its first one on. Refuses a line with a byte other than a tab and 32 to 126.
    pub fn of(line: Line<'a>) -> Result<Words<'a>, WordFault>
        ensures { Opens line.entry result }
    {
        if !line.bytes.iter().all(|b| is_allowed(*b)) {
            return Err(WordFault { line: line.number });
        }
        Ok(Words { line, at: 0 })
    }

    /// The next word; none where only blanks and a comment are left.
    /// Refuses a quote that holds a tab or does not close, and alters nothing then.
    // Kept beside the iterator: an iterator has to end, and one that altered nothing at a fault would give it again and again.
    #[tactic(auto, using(crate::proofs::Spelling::grammatical))]
    pub fn next_word(&mut self) -> Result<Option<Token<'a>>, WordFault>
        ensures words { words_from self.old.line.bytes.now self.old.at ≡ answered result (words_from self.new.line.bytes.now self.new.at) }
        ensures grammar { Grammatical }
        ensures part { IsPart self.old.line.bytes.now result }
        ensures moves { Moves self.old result self.new }
    {
        let line = self.line.bytes;
        let start = run_end(line, self.at, is_blank);
        match line.get(start) {
            // Blanks run to the line's end.
            None => Ok(None),
            // So does a comment.
            Some(b';') => Ok(None),
            Some(b'"') => {
                let place = start + 1;
                let end = run_end(line, place, is_quotable);
                let Some(b'"') = line.get(end) else {
                    return Err(WordFault {
                        line: self.line.number,
                    });
                };
                self.at = end + 1;
                let word = Word::Quoted(&line[place..end]);
                Ok(Some(Token { word, place }))
            }
            Some(_) => {
                let end = run_end(line, start, |b| !is_blank(b));
                self.at = end;
                let word = Word::plain(&line[start..end]);
                Ok(Some(Token { word, place: start }))
            }
        }
    }
}

impl<'a> Iterator for Words<'a> {
    type Item = Result<Token<'a>, WordFault>;

    ghost next_gives = { GivesWord };

    ghost remaining = { λ w. at_most (length w.line.bytes.now - w.at) };

    /// The next word, or the fault that `next_word` answers, after which no more come.
    fn next(&mut self) -> Option<Result<Token<'a>, WordFault>> {
        let word = self.next_word();
        if word.is_err() {
            self.at = self.line.bytes.len();
        }
        word.transpose()
    }
}
