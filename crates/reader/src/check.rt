ghost use Rattle.std.specs.Prelude.{◌≡◌, ◌<◌, ◌≤◌, length, None, MatchResult, ◌≢◌};
ghost use Rattle.reader.specs.Arises.{Readable, Refused};
ghost use Rattle.reader.specs.Words.{words};
ghost use Rattle.reader.specs.declared.fault.EntryFault.TheVariants.{TextTooLong};

use crate::fault::{EntryFault, Fault, WordFault};
use crate::line::Line;
use crate::lines::Lines;
use crate::words::Words;

/// The most bytes that a scene text may have.
const MOST: usize = 32_768;

/// Refuses a text that is too long, or has a line that cannot be read as words.
pub fn check_text(text: &[u8]) -> Result<(), Fault>
    ensures { MatchResult result (λ _. Readable text.now) (λ fault. Refused text.now fault) }
{
    check_length(text)?;
    for line in Lines::new(text) {
        check_words(line)?;
    }
    Ok(())
}

/// Refuses a text of more than 32,768 bytes.
pub fn check_length(text: &[u8]) -> Result<(), EntryFault>
    ensures { MatchResult result (λ _. length text.now ≤ 32768) (λ e. (e ≡ TextTooLong) × (32768 < length text.now)) }
{
    if text.len() > MOST {
        return Err(EntryFault::TextTooLong);
    }
    Ok(())
}

/// Refuses a line that cannot be read as words.
pub fn check_words(line: Line<'_>) -> Result<(), WordFault>
    ensures { MatchResult result (λ _. (words line.entry.bytes.now ≢ None)) (λ fault. (words line.entry.bytes.now ≡ None) × (fault.line ≡ line.entry.number)) }
{
    for token in Words::of(line)? {
        token?;
    }
    Ok(())
}
