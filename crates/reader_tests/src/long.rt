//! Texts of about 32,768 bytes.
use crate::report::print_fault;
use crate::texts::print_captions;
use reader::check_length;
use std::io;

/// What a text begins with, and its length; the rest is blanks.
type Case = (&'static [u8], usize);

const CASES: [Case; 5] = [
    (b"", 32_768),
    (b"", 32_769),
    (b"\"a\"\n", 32_768),
    (b"\"a\"\n\x00\n", 32_768),
    // a first line that is faulty too
    (b"\x00\n", 32_769),
];

pub(crate) fn print_all(rt: &HostRuntime) -> io::Result<()> {
    for (front, len) in CASES {
        print_long(rt, front, len)?;
    }
    Ok(())
}

fn print_long(rt: &HostRuntime, front: &[u8], len: usize) -> io::Result<()> {
    let mut text = front.to_vec(rt.alloc())?;
    text.resize(len, b' ')?;
    println!(rt; "long {} [{}]", text.len(), front.escape_ascii())?;
    match check_length(&text) {
        Ok(()) => println!(rt; "fits")?,
        Err(fault) => print_fault(rt, fault.into())?,
    }
    print_captions(rt, &text)
}
