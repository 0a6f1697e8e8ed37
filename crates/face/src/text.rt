// Bytes as text.
use std::fmt;

// In hex, a space before each.
#[derive(Clone, Copy)]
pub struct Bytes<'a>(pub &'a [u8]);

impl fmt::Display for Bytes<'_> {
    fn fmt<W: fmt::Write>(&self, f: &mut fmt::Formatter<W>) -> fmt::Result {
        for b in self.0 {
            write!(f, " {b:02X}")?;
        }
        Ok(())
    }
}

// Between quotes, so that it can be read: what a script brings may hold any byte.
#[derive(Clone, Copy)]
pub struct Quoted<'a>(pub &'a [u8]);

// Whether a byte shows as itself between quotes.
fn is_plain(b: u8) -> bool {
    (b == b' ' || b.is_ascii_graphic()) && b != b'"' && b != b'\\'
}

impl fmt::Display for Quoted<'_> {
    fn fmt<W: fmt::Write>(&self, f: &mut fmt::Formatter<W>) -> fmt::Result {
        f.write_str("\"")?;
        for b in self.0 {
            if is_plain(*b) {
                write!(f, "{}", char::from(*b))?;
            } else {
                write!(f, "\\x{b:02X}")?;
            }
        }
        f.write_str("\"")
    }
}
