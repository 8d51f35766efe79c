ghost use Rattle.std.specs.Prelude.{◌≡◌, ◌<◌};
ghost use Rattle.devices.specs.Hex.{digit, joined_texts, line, page_again};
ghost use Rattle.devices.specs.States.{frames_rate};
ghost use Rattle.std.proofs.Common.{rules};

use crate::buffer_panel::BufferPanel;
use crate::format::Format;
use crate::panel::NoRoom;
use crate::rate::Rate;

/// A panel that writes its texts into a lent buffer as lines of upper-case hexadecimal digits, two for each byte.
/// It means the bytes of the texts, not the digits. An empty text has no line.
pub type Frames<'a> = BufferPanel<'a, HexLines>;

/// Two digits for each byte of a text, closed by byte 10; nothing for an empty text.
#[derive(Drop)]
pub struct HexLines;

impl Format for HexLines {
    ghost rate = { frames_rate };

    ghost line = { line };

    ghost shown = { joined_texts };

    ghost rewritten = { page_again };

    ghost bounded = { Prim.search rules };

    ghost empty = { Prim.search rules };

    fn rate() -> Rate {
        Rate { byte: 2, text: 1 }
    }

    fn write(text: &[u8], space: &mut [u8]) -> Result<usize, NoRoom> {
        if Self::rate().cost(text.len()) > space.len() as u128 {
            return Err(NoRoom);
        }
        if text.is_empty() {
            return Ok(0);
        }
        let end = 2 * text.len();
        prove!(end < space.len());
        // By index, since of what is written through the items of `chunks_exact_mut` no proof knows the bytes.
        for (i, b) in text.iter().enumerate() {
            space[2 * i] = hex_digit(*b / 16);
            space[2 * i + 1] = hex_digit(*b % 16);
        }
        space[end] = b'\n';
        Ok(end + 1)
    }
}

/// The upper-case hexadecimal digit of a number.
// By hand: the library writes upper-case digits only by a formatter or into memory of its own.
fn hex_digit(n: u8) -> u8
    requires { n < 16 }
    ensures { result ≡ digit n }
{
    if n < 10 { b'0' + n } else { b'A' + (n - 10) }
}
