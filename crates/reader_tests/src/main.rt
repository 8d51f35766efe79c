//! Goes through tables of texts, and prints how each is read.
#![tactic(auto)]

mod lines;
mod long;
mod report;
mod sheets;
mod sorts;
mod texts;
mod words;

use std::io;

fn main(rt: HostRuntime) -> io::Result<()> {
    print_all(&rt, lines::TEXTS, lines::print_lines)?;
    print_all(&rt, words::TEXTS, words::print_words)?;
    print_all(&rt, sorts::TEXTS, words::print_words)?;
    print_all(&rt, texts::TEXTS, texts::print_text)?;
    long::print_all(&rt)?;
    sheets::print_all(&rt)
}

/// Prints of each text what `print` prints.
fn print_all<F: Fn(&HostRuntime, &[u8]) -> io::Result<()>>(
    rt: &HostRuntime,
    texts: &[&[u8]],
    print: F,
) -> io::Result<()>
    requires { F.IsAlwaysCallable print }
{
    for text in texts {
        print(rt, text)?;
    }
    Ok(())
}
