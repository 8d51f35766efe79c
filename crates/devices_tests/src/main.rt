//! Drives the key sources, the panels and the rates on cases whose answers are known, and prints a line for each.
#![tactic(auto)]

mod keys;
mod panels;
mod quoted;
mod rates;

use std::io;

fn main(rt: HostRuntime) -> io::Result<()> {
    keys::tapes(&rt)?;
    keys::presses(&rt)?;
    panels::rolls(&rt)?;
    panels::frames(&rt)?;
    panels::long_buffers(&rt)?;
    panels::long_texts(&rt)?;
    rates::panel_rates(&rt)?;
    rates::costs(&rt)
}
