// A line of `face`'s script as a request: the words, the numbers and the requests of the protocol, for every line of
// bytes of any length.
#![tactic(auto)]

mod answers;
mod data;
mod errors;
mod frames;
mod numbers;
mod requests;
mod transfers;
mod words;

ghost use Rattle.std.specs.Prelude.{◌≡◌};
ghost use Rattle.line.specs.Request.{read_line};

use events::Event;
use frame::Header;

// What was expected at the place where a line can't be read.
#[derive(Clone, Copy, Debug, PartialEq, Eq)]
pub enum Expected {
    Request,
    Byte,
    Lent,
    Identifier,
    StdOrExt,
    DataOrRemote,
    LengthCode,
    AckOrNoack,
    Error,
    CountedOrExempt,
    Count,
    ZeroOrOne,
    EndOfLine,
    // A line that is longer than its reader takes; `read_line` takes any.
    Shorter,
}

#[derive(Clone, Copy)]
pub enum Asked {
    // A blank line, or a comment.
    Nothing,
    // A transfer, with this many bytes in the reply buffer.
    Transfer(u8),
    Happens(Event),
    Pins,
    // The arrival numbers.
    Numbers,
    // Which filters a frame hits: its header, and how many data bytes the line has.
    Hits(Header, usize),
    // In the line and no error beside it: the word that stood there has to outlive the buffer that it was read in, and
    // nothing here has a heap.
    Unreadable(Expected),
}

#[derive(Clone, Copy)]
pub struct Line {
    pub asked: Asked,
    // The bytes of the transfer or of the frame's data, then zeros. A frame's payload is the first eight. A line that
    // can't be read has here the word that stood where another was expected.
    pub bytes: [u8; 16],
    // How many there are, which `bytes` doesn't say: no more than sixteen bytes of data are kept or counted; of a word
    // sixteen are kept, since there is no heap, and all are counted, and it has none where the line ended early.
    pub count: usize,
}

// What a line asks for; s has no newline.
#[tactic(auto, unfolding(crate::specs::Request::read_line))]
pub fn read_line(s: &[u8]) -> Line
    ensures { result ≡ read_line s.now }
{
    match requests::request(words::uncommented(s)) {
        Ok(line) => line,
        Err(misread) => answers::unreadable(misread),
    }
}
