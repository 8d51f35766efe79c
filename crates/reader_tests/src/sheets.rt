//! Proof sheets on panels with few units.
use crate::report::print_fault;
use captions::{SheetFault, proof_sheet};
use devices::{BufferPanel, Format, HexLines, Panel, Plain};
use std::io;

/// A scene text, and the units of the panel that it is shown on: a roll and then frames.
type Case = (&'static [u8], usize);

const CASES: [Case; 14] = [
    // from room for all down to room for none
    (b"\"ab\" x \"cde\"", 12),
    (b"\"ab\" x \"cde\"", 11),
    (b"\"ab\" x \"cde\"", 5),
    (b"\"ab\" x \"cde\"", 4),
    (b"\"ab\" x \"cde\"", 0),
    // an empty caption finds room where no units are left
    (b"\"ab\" \"\"", 2),
    (b"\"ab\" \"\"", 5),
    (b"\"\" \"\" \"a\"", 0),
    // a caption without room ends the sheet, though the next one would have room
    (b"\"abc\" \"d\"", 2),
    (b"\"abc\" \"d\"", 3),
    // no captions
    (b"x ; \"a\"", 3),
    (b"", 3),
    // captions of several lines
    (b"\"a\"\n; \"b\"\n\"c\"\n", 6),
    // a refused text shows nothing
    (b"\"ab\"\n\"c", 9),
];

pub(crate) fn print_all(rt: &HostRuntime) -> io::Result<()> {
    for (text, units) in CASES {
        print_sheet::<Plain>(rt, "roll", text, units)?;
        print_sheet::<HexLines>(rt, "frames", text, units)?;
    }
    Ok(())
}

/// Prints a sheet on a panel with so many units.
fn print_sheet<F: Format>(
    rt: &HostRuntime,
    panel_name: &str,
    text: &[u8],
    units: usize,
) -> io::Result<()> {
    println!(rt; "{panel_name} {units} [{}]", text.escape_ascii())?;
    let mut buffer = vec![in rt.alloc(); 0u8; units]?;
    let mut panel = BufferPanel::<F>::new(&mut buffer);
    print_end(rt, proof_sheet(text, &mut panel))?;
    print_panel(rt, panel.units(), panel.written())
}

/// Prints how a sheet ended, and how many captions it shows.
fn print_end(rt: &HostRuntime, sheet: Result<usize, SheetFault>) -> io::Result<()> {
    match sheet {
        Ok(shown) => println!(rt; "complete {shown}"),
        Err(SheetFault::Refused(fault)) => print_fault(rt, fault),
        Err(fault) => println!(rt; "{fault}"),
    }
}

/// Prints the units that are left, and what the panel wrote.
fn print_panel(rt: &HostRuntime, units: u32, written: &[u8]) -> io::Result<()> {
    println!(rt; "units {units} [{}]", written.escape_ascii())
}
