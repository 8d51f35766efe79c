//! The words of each line: their sorts, places and parts.
use crate::report::print_fault;
use reader::{Lines, Token, Word, Words};
use std::io;

pub(crate) const TEXTS: &[&[u8]] = &[
    // words at the front, at the end, and among blanks
    b"a",
    b"a b",
    b" \ta  b\t\t c \t",
    // no words
    b"",
    b" \t  ",
    // comments
    b"; only a comment",
    b";",
    b" ;\"a\"",
    b"a ;b",
    b"a ; b \" c",
    b"a ; \"b\t\" c",
    // a `;` that does not begin a word
    b"a;b",
    b"a; b",
    // quotes
    b"\"a\"",
    b"\"a b\" c",
    b"\t\"a\" \t",
    b"\"\"",
    b"\"\"\"\"",
    b"\"a\"\"b\"",
    b"\"a\"b",
    b"\"a\".end",
    b"\"a\";b",
    b"\"a ; b\"",
    // a quote that does not begin a word
    b"a\"b c\"",
    // no byte escapes a quote
    b"\"a\\\"b\"",
    // refused lines: at once by a byte, and otherwise once the fault is met
    b"a \x00",
    b"a \"b\" \"c",
    b"a \"b\tc\" d",
    b"\"a\"\"",
    // the fault of a line, and the words of the others
    b"a\n\"b\nc\n",
    b"\n\n\x7f\n\"a\"",
];

/// Prints the words of each line, and the fault of a line that is refused.
pub(crate) fn print_words(rt: &HostRuntime, text: &[u8]) -> io::Result<()> {
    println!(rt; "words [{}]", text.escape_ascii())?;
    for line in Lines::new(text) {
        match Words::of(line) {
            Ok(words) => print_each(rt, words)?,
            Err(fault) => print_fault(rt, fault.into())?,
        }
    }
    Ok(())
}

/// Prints the words that are left, up to the first fault.
fn print_each(rt: &HostRuntime, words: Words<'_>) -> io::Result<()> {
    for token in words {
        match token {
            Ok(token) => print_word(rt, token)?,
            Err(fault) => print_fault(rt, fault.into())?,
        }
    }
    Ok(())
}

fn print_word(rt: &HostRuntime, token: Token<'_>) -> io::Result<()> {
    println!(rt;
        "{} {} [{}]",
        sort(token.word),
        token.place,
        token.word.part().escape_ascii()
    )
}

// No `Display` of a type of its own: one line prints it.
fn sort(word: Word<'_>) -> &'static str {
    match word {
        Word::Directive(_) => "directive",
        Word::Label(_) => "label",
        Word::Name(_) => "name",
        Word::Number(_) => "number",
        Word::Quoted(_) => "quoted",
        Word::Other(_) => "other",
    }
}
