// The answers that wait to be written.
ghost use Rattle.std.specs.Prelude.{◌≤◌};
ghost use Rattle.face.specs.declared.page.TheConstants.{SIZE};

use std::fmt::{self, Write};
use std::io::{self, Stdout, Write as _};

const SIZE: usize = 65536;

// An answer is shorter than what is left past here. What is told at a script's end is longer and finds room, since the
// page was written when the last chunk was done.
const NEARLY_FULL: usize = 65000;

#[derive(Drop)]
pub struct Page {
    bytes: [u8; SIZE],
    // How many of them wait.
    used: usize,
    ghost within: { used ≤ SIZE },
}

impl Page {
    pub(crate) fn new() -> Page {
        Page {
            bytes: [0; SIZE],
            used: 0,
        }
    }

    // One line more. A page never fails: what doesn't fit is left out.
    pub(crate) fn line<D: fmt::Display + Drop>(&mut self, line: D) {
        let _ = writeln!(self, "{line}");
    }

    pub(crate) fn is_nearly_full(&self) -> bool {
        NEARLY_FULL <= self.used
    }

    // Writes what waits.
    pub(crate) fn flush(&mut self, output: &mut Stdout) -> io::Result<()> {
        let used = self.used;
        self.used = 0;
        output.write_all(&self.bytes[..used])
    }
}

impl Write for Page {
    fn write_str(&mut self, s: &str) -> fmt::Result {
        let free = &mut self.bytes[self.used..];
        let n = s.len().min(free.len());
        free[..n].copy_from_slice(&s.as_bytes()[..n]);
        self.used += n;
        Ok(())
    }
}
