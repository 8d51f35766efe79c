//! Key sources and panels: what a show reads from, and what it shows on.
#![tactic(auto)]

mod buffer_panel;
mod format;
mod frames;
mod keys;
mod panel;
mod presses;
mod rate;
mod roll;
mod tape;

pub use buffer_panel::BufferPanel;
pub use format::Format;
pub use frames::{Frames, HexLines};
pub use keys::KeySource;
pub use panel::{NoRoom, Panel};
pub use presses::Presses;
pub use rate::Rate;
pub use roll::{Plain, Roll};
pub use tape::Tape;
