use crate::quoted::Quoted;
use devices::{KeySource, Presses, Tape};
use std::io;

/// Bytes of a tape, and how often a key is taken from it.
const TAPES: [(&[u8], u8); 3] = [(b"", 2), (b"A", 3), (b"b\xFF\n", 5)];

/// A number of presses, and how often a key is taken.
const COUNTS: [(u64, u8); 4] = [(0, 2), (1, 3), (2, 4), (u64::MAX, 2)];

/// A line for each tape.
pub fn tapes(rt: &HostRuntime) -> io::Result<()> {
    for (bytes, times) in TAPES {
        print!(rt; "tape {}", Quoted(bytes))?;
        take_keys(rt, &mut Tape::new(bytes), times)?;
    }
    Ok(())
}

/// A line for each number of presses.
pub fn presses(rt: &HostRuntime) -> io::Result<()> {
    for (count, times) in COUNTS {
        print!(rt; "presses {count}")?;
        take_keys(rt, &mut Presses::new(b'k', count), times)?;
    }
    Ok(())
}

/// How many keys wait; then each key that is taken, with how many wait after it.
fn take_keys<K: KeySource>(rt: &HostRuntime, keys: &mut K, times: u8) -> io::Result<()> {
    print!(rt; " waiting {}", keys.waiting())?;
    for _ in 0..times {
        match keys.take() {
            Some(key) => print!(rt; " take {}", Quoted(&[key]))?,
            None => print!(rt; " take none")?,
        }
        print!(rt; " waiting {}", keys.waiting())?;
    }
    println!(rt)
}
