//! Reads a scene text. So far: its lines, the words of each, and the refusals that arise among them.
#![tactic(auto)]

mod bytes;
mod check;
mod fault;
mod line;
mod lines;
mod refusal;
mod word;
mod words;

pub use check::{check_length, check_text, check_words};
pub use fault::{EntryFault, Fault, WordFault};
pub use line::Line;
pub use lines::Lines;
pub use refusal::{Layer, Refusal};
pub use word::Word;
pub use words::{Token, Words};
