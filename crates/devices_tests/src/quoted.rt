use std::fmt;

/// Bytes between quotes. One that prints stands for itself; byte 10 is `\n`, and any other is as `\xAB`.
// Not `escape_ascii`, which leaves spaces as they are and writes a tab as `\t`.
#[derive(Drop)]
pub struct Quoted<'a>(pub &'a [u8]);

impl fmt::Display for Quoted<'_> {
    fn fmt<W: fmt::Write>(&self, f: &mut fmt::Formatter<W>) -> fmt::Result {
        f.write_str("\"")?;
        for b in self.0 {
            match *b {
                b'\n' => f.write_str("\\n")?,
                b'!' | b'#'..=b'[' | b']'..=b'~' => f.write_char(char::from(*b))?,
                other => write!(f, "\\x{other:02X}")?,
            }
        }
        f.write_str("\"")
    }
}
