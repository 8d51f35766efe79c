use crate::quoted::Quoted;
use devices::{BufferPanel, Format, Frames, HexLines, NoRoom, Panel, Plain, Roll};
use std::io;

/// A buffer's length, and the texts that are to be shown one after another on a panel over it.
struct Case(usize, &'static [&'static [u8]]);

const ROLLS: [Case; 8] = [
    Case(0, &[b"", b"A"]),
    Case(1, &[b"A", b"", b"B"]),
    Case(1, &[b"AB", b""]),
    Case(4, &[b"Abcd", b"", b"e"]),
    Case(4, &[b"Abcde"]),
    Case(4, &[b"Hi", b"you", b"!"]),
    Case(4, &[b"Hi", b"yo"]),
    Case(4, &[b"\xAB\n"]),
];

const FRAMES: [Case; 13] = [
    Case(0, &[b"", b"A"]),
    Case(1, &[b"", b"A"]),
    Case(3, &[b"A", b"", b"B"]),
    Case(3, &[b"AB"]),
    Case(4, &[b"Hi"]),
    Case(4, &[b"A", b"", b"B"]),
    Case(5, &[b"Hi", b"", b"!"]),
    Case(5, &[b"Ah!"]),
    Case(12, &[b"Ah!", b"Hi"]),
    Case(12, &[b"Hello"]),
    Case(12, &[b"Hello!"]),
    Case(12, &[b"\xAB", b"\x0F", b"\x00\xFF"]),
    Case(12, &[b"\n", b"Ah!", b"Hi"]),
];

/// Lengths about the most bytes of a buffer that a panel uses.
const LONG: [usize; 4] = [1_048_575, 1_048_576, 1_048_577, 3_000_000];

/// A line for each case of a roll.
pub fn rolls(rt: &HostRuntime) -> io::Result<()> {
    show_cases::<Plain>(rt, "roll", &ROLLS)
}

/// A line for each case of frames.
pub fn frames(rt: &HostRuntime) -> io::Result<()> {
    show_cases::<HexLines>(rt, "frames", &FRAMES)
}

fn show_cases<F: Format>(rt: &HostRuntime, name: &str, cases: &[Case]) -> io::Result<()> {
    for case in cases {
        show_case::<F>(rt, name, case)?;
    }
    Ok(())
}

fn show_case<F: Format>(rt: &HostRuntime, name: &str, Case(len, texts): &Case) -> io::Result<()> {
    let mut buffer = vec![in rt.alloc(); b'.'; *len]?;
    let mut panel = BufferPanel::<F>::new(&mut buffer);
    print!(rt; "{name} {len}")?;
    show_texts(rt, &mut panel, texts)?;
    print_bytes(rt, "written", panel.written())?;
    print_bytes(rt, "buffer", &buffer)?;
    println!(rt)
}

/// The units of both panels over each long buffer.
pub fn long_buffers(rt: &HostRuntime) -> io::Result<()> {
    for len in LONG {
        let mut buffer = vec![in rt.alloc(); b'.'; len]?;
        println!(rt; "roll {len} units {}", Roll::new(&mut buffer).units())?;
        println!(rt; "frames {len} units {}", Frames::new(&mut buffer).units())?;
    }
    Ok(())
}

/// On each panel over a buffer longer than it uses, a text that is too long by a byte, and then the longest that it can show.
pub fn long_texts(rt: &HostRuntime) -> io::Result<()> {
    show_long_case::<Plain>(rt, "roll", &[1_048_577, 1_048_576])?;
    show_long_case::<HexLines>(rt, "frames", &[524_288, 524_287])
}

fn show_long_case<F: Format>(rt: &HostRuntime, name: &str, lengths: &[usize]) -> io::Result<()> {
    let mut buffer = vec![in rt.alloc(); b'.'; 1_048_577]?;
    let mut panel = BufferPanel::<F>::new(&mut buffer);
    print!(rt; "{name} 1048577")?;
    show_long(rt, &mut panel, lengths)?;
    print!(rt; " written {}", panel.written().len())?;
    print_bytes(rt, "ending", ending(&buffer))?;
    println!(rt)
}

/// The units; then each text that is to be shown, with the answer and the units after it.
fn show_texts<P: Panel>(rt: &HostRuntime, panel: &mut P, texts: &[&[u8]]) -> io::Result<()> {
    print!(rt; " units {}", panel.units())?;
    for text in texts {
        print!(rt; " show {}", Quoted(text))?;
        show_one(rt, panel, text)?;
    }
    Ok(())
}

/// The same for texts that are given by their lengths.
fn show_long<P: Panel>(rt: &HostRuntime, panel: &mut P, lengths: &[usize]) -> io::Result<()> {
    print!(rt; " units {}", panel.units())?;
    for len in lengths {
        let text = vec![in rt.alloc(); b'x'; *len]?;
        print!(rt; " length {len}")?;
        show_one(rt, panel, &text)?;
    }
    Ok(())
}

/// Shows a text; then the answer, and the units after it.
fn show_one<P: Panel>(rt: &HostRuntime, panel: &mut P, text: &[u8]) -> io::Result<()> {
    let answer = match panel.show(text) {
        Ok(()) => "shown",
        Err(NoRoom) => "refused",
    };
    print!(rt; " {answer} {}", panel.units())
}

fn print_bytes(rt: &HostRuntime, name: &str, bytes: &[u8]) -> io::Result<()> {
    print!(rt; " {name} {}", Quoted(bytes))
}

/// The last three bytes.
fn ending(bytes: &[u8]) -> &[u8] {
    &bytes[bytes.len().saturating_sub(3)..]
}
