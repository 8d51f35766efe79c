ghost use Rattle.std.specs.Prelude.{◌≡◌, ◌≤◌, take};
ghost use Rattle.devices.specs.Buffers.{Appends, capacity};
ghost use Rattle.devices.specs.Hex.{Inverse};
ghost use Rattle.devices.specs.Panels.{Shows};
ghost use Rattle.devices.specs.States.{buffer_bounded, buffer_state, starting};

use crate::format::Format;
use crate::panel::{NoRoom, Panel};
use crate::rate::Rate;
use std::marker::PhantomData;

/// The most bytes of a buffer that a panel uses.
const MOST: usize = 1_048_576;

/// A panel that writes its texts into a lent buffer, one after another, each as the format `F` says.
// A lent buffer and a number of bytes, and no `Vec`: a panel takes no memory of its own.
#[derive(Drop)]
pub struct BufferPanel<'a, F: Format> {
    buffer: &'a mut [u8],
    /// How many bytes are written.
    used: usize,
    format: PhantomData<F>,
    ghost within: { used ≤ capacity buffer.now },
    /// What is written comes back when it is read and written again.
    ghost whole: { F.rewritten (take used buffer.now) ≡ take used buffer.now },
}

impl<'a, F: Format> BufferPanel<'a, F> {
    /// A panel with nothing shown, and as many units as `buffer` has bytes, but at most 1,048,576.
    /// It holds this very reference, so that `buffer` is what the panel's buffer was when the panel goes.
    pub fn new(buffer: &'a mut [u8]) -> BufferPanel<'a, F>
        ensures starts { buffer_state F.shown F.rate result.buffer.now result.used ≡ starting F.rate buffer.old }
        ensures untouched { (result.used ≡ 0) × (result.buffer.now ≡ buffer.old) }
        ensures lender { result.buffer.ghost_name ≡ buffer.entry.ghost_name }
    {
        BufferPanel {
            buffer,
            used: 0,
            format: PhantomData,
        }
    }

    /// The part of the buffer that is written.
    pub fn written(&self) -> &[u8]
        ensures part { result.now ≡ take self.now.used self.now.buffer.now }
        ensures whole { F.rewritten result.now ≡ result.now }
        ensures inverse { Inverse }
    {
        &self.buffer[..self.used]
    }

    /// How many bytes of the buffer the panel uses.
    fn capacity(&self) -> usize
        ensures { result ≡ capacity self.now.buffer.now }
    {
        self.buffer.len().min(MOST)
    }
}

impl<'a, F: Format> Panel for BufferPanel<'a, F> {
    ghost state = { λ s. buffer_state F.shown F.rate s.buffer.now s.used };

    ghost bounded = { λ s. buffer_bounded F.shown F.rate F.bounded s.buffer.now s.used };

    fn units(&self) -> u32 {
        (self.capacity() - self.used) as u32
    }

    fn rate(&self) -> Rate {
        F::rate()
    }

    fn show(&mut self, text: &[u8]) -> Result<(), NoRoom>
        ensures shows { Shows (buffer_state F.shown F.rate self.old.buffer.now self.old.used) text.now result (buffer_state F.shown F.rate self.new.buffer.now self.new.used) }
        ensures writes { Appends self.old.buffer self.old.used (F.line text.now) result self.new.buffer self.new.used }
    {
        let end = self.capacity();
        let written = F::write(text, &mut self.buffer[self.used..end])?;
        self.used += written;
        Ok(())
    }
}
