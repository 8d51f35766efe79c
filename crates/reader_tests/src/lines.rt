//! The lines of a text: their numbers, places and lengths.
use reader::Lines;
use std::io;

pub(crate) const TEXTS: &[&[u8]] = &[
    // no line
    b"",
    // empty lines
    b"\n",
    b"\n\n",
    // with and without a last byte 10
    b"a",
    b"a\n",
    b"ab\ncde",
    b"ab\ncde\n",
    // empty lines first, between and last
    b"\na",
    b"a\n\nb",
    b"a\n\n",
];

pub(crate) fn print_lines(rt: &HostRuntime, text: &[u8]) -> io::Result<()> {
    println!(rt; "lines [{}]", text.escape_ascii())?;
    for line in Lines::new(text) {
        println!(rt;
            "line {} {} {} [{}]",
            line.number,
            line.place,
            line.bytes.len(),
            line.bytes.escape_ascii()
        )?;
    }
    Ok(())
}
