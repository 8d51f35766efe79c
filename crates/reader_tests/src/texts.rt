//! Whole texts: their captions, or the refusal of their first faulty line.
use crate::report::print_fault;
use reader::{Line, Lines, Word, Words, check_text};
use std::io;

pub(crate) const TEXTS: &[&[u8]] = &[
    // bytes that no line may have
    b"\x00",
    b"\x08",
    b"\x0b",
    b"\x1f",
    b"\x7f",
    b"\x80",
    b"\xff",
    b"a\r\nb\n",
    b"a ; \x7f",
    b"\"\x7f\"",
    // a tab in a quote, and quotes that do not close
    b"\"a\tb\"",
    b"\"\t\"",
    b"\"ab",
    b"\"",
    b"\"a\" \"",
    b"\"a\nb\"",
    // bytes that are fine
    b"a\tb",
    b"a ~ b",
    b"\" ~\"",
    // in a comment a quote is no quote
    b"; a \" b",
    b"; \"a\tb\"",
    // of several faulty lines the first counts
    b"\x00\n\"\n",
    b"\n\n\"",
    b"\"a\"\n\"b\n\x00\n",
    b"\"a\tb\" \"c",
    // captions in their order
    b"",
    b"x \"a\" \"\"\n; \"b\"\n\n\"c\"\"d\" ; \"e\"\n",
    b"a\"b c\"d \"e\"",
];

/// Prints a text, and what `print_captions` prints of it.
pub(crate) fn print_text(rt: &HostRuntime, text: &[u8]) -> io::Result<()> {
    println!(rt; "text [{}]", text.escape_ascii())?;
    print_captions(rt, text)
}

/// Prints a text's captions and their number, or its refusal.
pub(crate) fn print_captions(rt: &HostRuntime, text: &[u8]) -> io::Result<()> {
    if let Err(fault) = check_text(text) {
        return print_fault(rt, fault);
    }
    let mut count = 0usize;
    for line in Lines::new(text) {
        count = count.saturating_add(print_quotes(rt, line)?);
    }
    println!(rt; "captions {count}")
}

/// Prints the quoted texts of a line, and answers how many there are.
fn print_quotes(rt: &HostRuntime, line: Line<'_>) -> io::Result<usize> {
    let mut count = 0usize;
    if let Ok(words) = Words::of(line) {
        for token in words.filter_map(Result::ok) {
            if let Word::Quoted(caption) = token.word {
                println!(rt; "caption [{}]", caption.escape_ascii())?;
                count = count.saturating_add(1);
            }
        }
    }
    Ok(count)
}
