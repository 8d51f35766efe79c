ghost use Rattle.std.specs.Prelude.{◌≡◌, Some, codes};
ghost use Rattle.devices.specs.Panels.{PanelState, Bounded, Shows};

use crate::rate::Rate;
use std::error::Error;
use std::fmt;

/// A text costs more than the units that are left.
#[derive(Clone, Copy, Debug, PartialEq, Eq)]
pub struct NoRoom;

impl fmt::Display for NoRoom {
    ghost output = { λ _. Some (codes "no room") };

    fn fmt<W: fmt::Write>(&self, f: &mut fmt::Formatter<W>) -> fmt::Result {
        f.write_str("no room")
    }
}

impl Error for NoRoom {}

/// What a show's titles go to. A panel means the bytes shown, the units left and its rate.
pub trait Panel {
    /// What has been shown, what is left and what a text costs.
    ghost state: { Self → PanelState };

    /// The units left. Alters nothing.
    fn units(&self) -> u32
        ensures { result ≡ (state self.now).units };

    /// What a byte and a text cost, which never changes. Alters nothing.
    fn rate(&self) -> Rate
        ensures { result ≡ (state self.now).rate };

    /// Shows `text` after the bytes shown and takes its cost from the units left.
    /// Refuses exactly when it costs more than that, and then alters nothing.
    fn show(&mut self, text: &[u8]) -> Result<(), NoRoom>
        ensures { Shows (state self.old) text.now result (state self.new) };

    /// Law: the numbers of each panel are within their bounds.
    ghost bounded: { (p : Self) → Bounded (state p) };
}
