//! The proof sheet of a scene: its captions, each shown on a panel.
#![tactic(auto)]

mod sheet;

pub use sheet::{SheetFault, proof_sheet};
