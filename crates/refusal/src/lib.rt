// Why a door refuses, by the number that 01 gives it.
#![tactic(auto)]

ghost use Rattle.std.specs.Prelude.{◌≡◌};

use std::fmt;

#[derive(Clone, Copy, Debug, PartialEq, Eq)]
pub enum Refusal {
    // The state handed in has a count, place or field outside its range.
    OutOfRange = 1,
    // The command byte is not in 000's Table 1, or is a factory command.
    NoCommand = 2,
    // The transfer is empty, or its length is not the command's.
    WrongLength = 3,
    // The lent reply buffer is shorter than the reply.
    ShortBuffer = 4,
    // A filter, mask or bit-timing write outside initialization mode.
    OutsideSetUp = 5,
    // A message is written and eight are in the transmit FIFO.
    FindsFull = 6,
    // A receive FIFO or history read finds none.
    FindsNone = 7,
    // A bus event with impossible fields, or at an impossible time.
    Impossible = 8,
    // A frame is to be numbered, and the last arrival number has been given.
    NoNumberLeft = 12,
}

impl Refusal {
    ghost use Rattle.refusal.specs.Refusal.{number};

    pub fn number(self) -> u8
        ensures { result ≡ number self }
    {
        self as u8
    }
}

// As its number.
impl fmt::Display for Refusal {
    ghost use Rattle.std.specs.Prelude.{Some};
    ghost use Rattle.refusal.specs.Refusal.{printed};

    ghost output = { λ refusal. Some (printed refusal) };

    fn fmt<W: fmt::Write>(&self, f: &mut fmt::Formatter<W>) -> fmt::Result {
        write!(f, "{}", self.number())
    }
}
