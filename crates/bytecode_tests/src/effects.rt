use bytecode::{Effect, Takes};
use std::fmt;

/// An effect, as the test prints it: what it takes and leaves, each after a blank.
#[derive(Clone, Copy)]
pub struct ShownEffect(pub Effect);

impl fmt::Display for ShownEffect {
    fn fmt<W: fmt::Write>(&self, f: &mut fmt::Formatter<W>) -> fmt::Result {
        match self.0 {
            Effect::Fixed(takes, leaves) => {
                match takes {
                    Takes::Nothing => {}
                    Takes::One(top) => write!(f, " takes {top}")?,
                    Takes::Two(below, top) => write!(f, " takes {below} {top}")?,
                }
                match leaves {
                    Some(kind) => write!(f, " leaves {kind}"),
                    None => Ok(()),
                }
            }
            Effect::Rearranges(_) => write!(f, " rearranges"),
            Effect::GetsField(field) => write!(f, " gets field {field}"),
            Effect::PutsField(field) => write!(f, " puts field {field}"),
            Effect::Calls(method) => write!(f, " calls method {method}"),
        }
    }
}
