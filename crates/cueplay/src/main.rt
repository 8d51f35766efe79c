//! Reads the scene in `scene.txt` and prints the proof sheet of its captions, or why the scene is refused.
#![tactic(auto)]

use captions::proof_sheet;
use devices::{Frames, Panel};
use std::fs::File;
use std::io;
use std::io::{Read, Write};

/// One byte more than a scene text may have, so that a longer one is seen to be too long.
const READ_MOST: u64 = 32_769;

/// The units of the panel.
const UNITS: usize = 8_192;

fn main(rt: HostRuntime) -> io::Result<()> {
    match read_scene(&rt) {
        Ok(text) => print_sheet(&rt, &text),
        Err(error) => {
            eprintln!(rt; "cueplay: cannot read scene.txt: {error}")?;
            Err(error)
        }
    }
}

/// The bytes of the scene text, or as many as show that it is too long.
fn read_scene(rt: &HostRuntime) -> io::Result<Vec<u8>> {
    let mut text = Vec::new(rt.alloc());
    File::open(rt, "scene.txt")?
        .take(READ_MOST)
        .read_to_end(&mut text)?;
    Ok(text)
}

/// Prints what the panel wrote and how the sheet ended, or the refusal.
fn print_sheet(rt: &HostRuntime, text: &[u8]) -> io::Result<()> {
    let mut buffer = vec![in rt.alloc(); 0u8; UNITS]?;
    let mut frames = Frames::new(&mut buffer);
    let sheet = proof_sheet(text, &mut frames);
    rt.stdout().write_all(frames.written())?;
    match sheet {
        Ok(shown) => println!(rt; "captions {shown} units {}", frames.units()),
        Err(fault) => println!(rt; "{fault}"),
    }
}
