ghost use Rattle.devices.specs.States.{roll_rate};
ghost use Rattle.std.proofs.Common.{rules};

use crate::buffer_panel::BufferPanel;
use crate::format::Format;
use crate::panel::NoRoom;
use crate::rate::Rate;

/// A panel that writes the bytes of its texts into a lent buffer, one text after another.
pub type Roll<'a> = BufferPanel<'a, Plain>;

/// The bytes of a text as they are.
#[derive(Drop)]
pub struct Plain;

impl Format for Plain {
    ghost rate = { roll_rate };

    ghost line = { λ text. text };

    ghost shown = { λ w. w };

    ghost rewritten = { λ w. w };

    ghost bounded = { Prim.search rules };

    ghost empty = { Prim.search rules };

    fn rate() -> Rate {
        Rate { byte: 1, text: 0 }
    }

    fn write(text: &[u8], space: &mut [u8]) -> Result<usize, NoRoom> {
        let len = text.len();
        if Self::rate().cost(len) > space.len() as u128 {
            return Err(NoRoom);
        }
        prove!(len <= space.len());
        space[..len].copy_from_slice(text);
        Ok(len)
    }
}
