ghost use Rattle.std.specs.Prelude.{◌≡◌, ℕ, [], ◌∷◌, Some, MatchOption};
ghost use Rattle.captions.specs.Captions.{quotes};
ghost use Rattle.captions.specs.Sheets.{ProofSheet, sheet_fault_text};
ghost use Rattle.captions.specs.declared.sheet.SheetFault.TheVariants.{Refused};
ghost use Rattle.reader.specs.Faults.{word_fault};
ghost use Rattle.reader.specs.Tokens.{at_place};

use devices::{NoRoom, Panel};
use reader::{Fault, Lines, Word, WordFault, Words, check_text};
use std::error::Error;
use std::fmt;

/// Why a proof sheet does not show all captions.
#[derive(Clone, Copy, Debug, PartialEq, Eq)]
pub enum SheetFault {
    /// The text is refused, and nothing was shown.
    Refused(Fault),
    /// So many captions were shown, and the next one found no room.
    NoRoom(usize),
}

impl From<Fault> for SheetFault {
    ghost from_gives = { λ x y. y ≡ Refused x };

    fn from(fault: Fault) -> SheetFault {
        SheetFault::Refused(fault)
    }
}

impl From<WordFault> for SheetFault {
    ghost from_gives = { λ x y. y ≡ Refused (word_fault x) };

    fn from(fault: WordFault) -> SheetFault {
        Fault::from(fault).into()
    }
}

impl fmt::Display for SheetFault {
    ghost output = { λ fault. Some (sheet_fault_text fault) };

    /// Writes what `cueplay` prints where the sheet is not whole.
    fn fmt<W: fmt::Write>(&self, f: &mut fmt::Formatter<W>) -> fmt::Result {
        match self {
            Self::Refused(fault) => write!(f, "refused {fault}"),
            Self::NoRoom(shown) => write!(f, "room {shown}"),
        }
    }
}

impl Error for SheetFault {}

/// Shows the captions of a scene text on a panel, in order, until one finds no room, and answers how many there are.
/// A text that is refused shows nothing.
pub fn proof_sheet<P: Panel>(text: &[u8], panel: &mut P) -> Result<usize, SheetFault>
    ensures { ProofSheet text.now (P.state panel.old) result (P.state panel.new) }
{
    check_text(text)?;
    let mut shown = 0;
    for line in Lines::new(text) {
        for token in Words::of(line)? {
            if let Some(caption) = caption(token?.word) {
                match panel.show(caption) {
                    Ok(()) => shown += 1,
                    Err(NoRoom) => return Err(SheetFault::NoRoom(shown)),
                }
            }
        }
    }
    Ok(shown)
}

/// The text of a word that is a caption.
fn caption(word: Word<'_>) -> Option<&[u8]>
    ensures { (p : ℕ) → MatchOption result (quotes (at_place p word.entry ∷ []) ≡ []) (λ text. quotes (at_place p word.entry ∷ []) ≡ text.now ∷ []) }
{
    match word {
        Word::Quoted(text) => Some(text),
        _ => None,
    }
}
