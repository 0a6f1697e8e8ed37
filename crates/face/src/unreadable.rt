// A line that can't be read: which one, what was expected, and what was read instead.
use crate::text::Quoted;
use line::{Expected, Line};
use std::fmt;

#[derive(Clone, Copy)]
pub struct Unreadable<'a> {
    number: u64,
    expected: Expected,
    line: &'a Line,
}

impl<'a> Unreadable<'a> {
    pub(crate) fn new(expected: Expected, line: &'a Line, number: u64) -> Unreadable<'a> {
        Unreadable {
            number,
            expected,
            line,
        }
    }
}

impl fmt::Display for Unreadable<'_> {
    fn fmt<W: fmt::Write>(&self, f: &mut fmt::Formatter<W>) -> fmt::Result {
        let number = self.number;
        let wanted = Wanted(self.expected);
        let read = Read {
            expected: self.expected,
            line: self.line,
        };
        write!(f, "line {number}: expected {wanted}, read {read}")
    }
}

// So that a person knows what to write.
#[derive(Clone, Copy)]
struct Wanted(Expected);

impl fmt::Display for Wanted {
    fn fmt<W: fmt::Write>(&self, f: &mut fmt::Formatter<W>) -> fmt::Result {
        f.write_str(match self.0 {
            Expected::Request => {
                "spi, frame, hits, rxerr, txerr, dominant, begin, done, lost, recessive, quiet, activity, mr, ticks, txen, pins or numbers"
            }
            Expected::Byte => "a byte as two hex digits, as 0A",
            Expected::Lent => "a reply buffer of 0 to 16 bytes, as spi/14",
            Expected::Identifier => "an identifier in hex, as 123",
            Expected::StdOrExt => "std or ext",
            Expected::DataOrRemote => "data or remote",
            Expected::LengthCode => "a length code in decimal, as 8",
            Expected::AckOrNoack => "ack or noack",
            Expected::Error => "stuff, ack, crc, form or bit",
            Expected::CountedOrExempt => "counted or exempt",
            Expected::Count => "a number of ticks in decimal, as 70000",
            Expected::ZeroOrOne => "0 or 1",
            Expected::EndOfLine => "the end of the line",
            Expected::Shorter => "a line of at most 65536 bytes",
        })
    }
}

// The word that stands there, of which a line keeps sixteen bytes. Of a line that is too long it keeps none.
#[derive(Clone, Copy)]
struct Read<'a> {
    expected: Expected,
    line: &'a Line,
}

impl fmt::Display for Read<'_> {
    fn fmt<W: fmt::Write>(&self, f: &mut fmt::Formatter<W>) -> fmt::Result {
        match (self.expected, self.line.count) {
            (Expected::Shorter, _) => f.write_str("a longer one"),
            (_, 0) => f.write_str("the end of the line"),
            (_, n) if n <= 16 => write!(f, "{}", Quoted(&self.line.bytes[..n])),
            _ => write!(f, "{}...", Quoted(&self.line.bytes)),
        }
    }
}
