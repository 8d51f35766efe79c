ghost use Rattle.std.specs.Prelude.{◌≡◌, ℕ, List, [], length};
ghost use Rattle.devices.specs.Costs.{cost};
ghost use Rattle.devices.specs.Formats.{Adds, Writes};
ghost use Rattle.devices.specs.Panels.{Bounded};
ghost use Rattle.devices.specs.States.{starting};
ghost use Rattle.devices.specs.declared.rate.Rate.{Rate};

use crate::panel::NoRoom;
use crate::rate::Rate;

/// How a `BufferPanel` writes its texts, and what bytes a written part shows. It is named by a type, of which no value is needed.
pub trait Format: Drop {
    /// What a byte and a text cost.
    ghost rate: { Rate };

    /// What is written for a text.
    ghost line: { List ℕ → List ℕ };

    /// The bytes that a written part shows.
    ghost shown: { List ℕ → List ℕ };

    /// A written part, read back into texts and written again.
    ghost rewritten: { List ℕ → List ℕ };

    /// What a byte and a text cost.
    fn rate() -> Rate
        ensures { result ≡ rate };

    /// Writes `text` at the front of `space`, and answers how many bytes it took: as many as the text costs.
    /// Refuses exactly when the space is shorter than that, and then alters nothing.
    fn write(text: &[u8], space: &mut [u8]) -> Result<usize, NoRoom>
        ensures writes { Writes space.old (line text.now) result space.new }
        ensures charges { cost rate text.now ≡ length (line text.now) }
        ensures adds { Adds shown rewritten (line text.now) text.now };

    /// Law: P and Q are within their bounds.
    ghost bounded: { Bounded (starting rate []) };

    /// Law: where nothing is written, nothing is shown.
    ghost empty: { (shown [] ≡ []) × (rewritten [] ≡ []) };
}
