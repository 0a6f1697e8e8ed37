// A line that is being read. Its bytes stand at the front of a buffer, from the first that is no blank on; from `#`
// on they are passed over and never count.
use line::{Asked, Expected, Line};

const SIZE: usize = 65536;

#[derive(Drop)]
pub struct Held {
    bytes: [u8; SIZE],
    // How many there are, as long as they fit; nothing here has a heap.
    length: Option<usize>,
    // A state of the line, whatever of it is held.
    commented: bool,
}

// As `line` has it, which says no more of it than that its words are parted so.
fn is_blank(b: u8) -> bool {
    matches!(b, b' ' | b'\t' | b'\r')
}

fn past_blanks(bytes: &[u8]) -> &[u8] {
    let n = bytes.iter().take_while(|&&b| is_blank(b)).count();
    &bytes[n..]
}

impl Held {
    pub(crate) fn new() -> Held {
        Held {
            bytes: [0; SIZE],
            length: Some(0),
            commented: false,
        }
    }

    // Those of the line's bytes that come next.
    pub(crate) fn push(&mut self, bytes: &[u8]) {
        if self.commented {
            return;
        }
        let text = match bytes.iter().position(|&b| b == b'#') {
            Some(n) => {
                self.commented = true;
                &bytes[..n]
            }
            None => bytes,
        };
        self.length = match self.length {
            Some(0) => self.append(0, past_blanks(text)),
            Some(n) => self.append(n, text),
            None => None,
        };
    }

    // How many there are with these behind the first n.
    fn append(&mut self, n: usize, text: &[u8]) -> Option<usize> {
        let room = self.bytes.get_mut(n..)?.get_mut(..text.len())?;
        room.copy_from_slice(text);
        Some(n + text.len())
    }

    // The line is complete, and the next begins.
    pub(crate) fn take(&mut self) -> Line {
        let length = self.length.replace(0);
        self.commented = false;
        match length.and_then(|n| self.bytes.get(..n)) {
            Some(bytes) => line::read_line(bytes),
            None => too_long(),
        }
    }
}

fn too_long() -> Line {
    Line {
        asked: Asked::Unreadable(Expected::Shorter),
        bytes: [0; 16],
        count: 0,
    }
}
