// What the vectors print, each word with a space before it, and how they print it.
use bus::types::{Answer, Numbers};
use receive::Arrival;
use refusal::Refusal;
use std::fmt::{self, InlineText, Write};
use std::io::{Stdout, Write as _};

// Standard output, each piece by a write of its own. One that can't be written is not told of, and the next is tried.
#[derive(Drop)]
pub struct Printer(pub Stdout);

impl Printer {
    // A line, or what is left of it.
    pub(crate) fn line<D: fmt::Display + Drop>(&mut self, line: D) {
        let _ = writeln!(self, "{line}");
    }

    // The front of a line.
    pub(crate) fn front(&mut self, front: &str) {
        let _ = self.write_str(front);
    }
}

impl Write for Printer {
    fn write_str(&mut self, piece: &str) -> fmt::Result {
        let _ = self.0.write_all(piece.as_bytes());
        Ok(())
    }
}

// Two digits and their space, put together first: they are one piece.
#[derive(Clone, Copy)]
struct Byte(u8);

impl fmt::Display for Byte {
    fn fmt<W: fmt::Write>(&self, f: &mut fmt::Formatter<W>) -> fmt::Result {
        let b = self.0;
        f.write_str(InlineText::<3>::of(format_args!(" {b:02X}")).as_str())
    }
}

// The number that a door gives: 0, or that of the refusal.
#[derive(Clone, Copy)]
pub struct Number<T>(pub Result<T, Refusal>);

impl<T> fmt::Display for Number<T> {
    fn fmt<W: fmt::Write>(&self, f: &mut fmt::Formatter<W>) -> fmt::Result {
        f.write_str(" ")?;
        match &self.0 {
            Ok(_) => f.write_str("0"),
            Err(refusal) => write!(f, "{refusal}"),
        }
    }
}

// The number and, where it is 0, the first bytes of the reply.
#[derive(Clone, Copy)]
pub struct Read<const N: usize>(pub Result<[u8; 16], Refusal>);

impl<const N: usize> fmt::Display for Read<N> {
    fn fmt<W: fmt::Write>(&self, f: &mut fmt::Formatter<W>) -> fmt::Result {
        write!(f, "{}", Number(self.0))?;
        if let Ok(reply) = &self.0 {
            for b in reply.iter().take(N) {
                write!(f, "{}", Byte(*b))?;
            }
        }
        Ok(())
    }
}

// A success by its name, so that it can't be taken for a refusal with 0.
#[derive(Clone, Copy)]
pub struct Said(pub Answer);

impl fmt::Display for Said {
    fn fmt<W: fmt::Write>(&self, f: &mut fmt::Formatter<W>) -> fmt::Result {
        match self.0 {
            Ok(Some(what)) => write!(f, "{}", Word(what)),
            Ok(None) => f.write_str(" Done"),
            Err(refusal) => write!(f, " {refusal}"),
        }
    }
}

// `face` has a word of its own: the message that is lost shows there as a script's line writes it, and here in bytes.
#[derive(Clone, Copy)]
struct Word(Arrival);

impl fmt::Display for Word {
    fn fmt<W: fmt::Write>(&self, f: &mut fmt::Formatter<W>) -> fmt::Result {
        match self.0 {
            Arrival::Queued => f.write_str(" Queued"),
            // The identifier that is lost, in four bytes, and its kind.
            Arrival::QueuedOver(id, extended) => {
                let [a, b, c, d] = id.to_be_bytes();
                let kind = if extended { " ext" } else { " std" };
                write!(
                    f,
                    " Queued-over{}{}{}{}{kind}",
                    Byte(a),
                    Byte(b),
                    Byte(c),
                    Byte(d)
                )
            }
            Arrival::A1 => f.write_str(" A1"),
            Arrival::A2 => f.write_str(" A2"),
            Arrival::A3 => f.write_str(" A3"),
            Arrival::A4 => f.write_str(" A4"),
        }
    }
}

#[derive(Clone, Copy)]
pub struct Each(pub [Said; 8]);

impl fmt::Display for Each {
    fn fmt<W: fmt::Write>(&self, f: &mut fmt::Formatter<W>) -> fmt::Result {
        for said in self.0.iter() {
            write!(f, "{said}")?;
        }
        Ok(())
    }
}

// The arrival numbers: the last, that of the temporary buffer, how many wait, and the first of them.
#[derive(Clone, Copy)]
pub struct Told(pub Result<Numbers, Refusal>);

impl fmt::Display for Told {
    fn fmt<W: fmt::Write>(&self, f: &mut fmt::Formatter<W>) -> fmt::Result {
        write!(f, "{}", Number(self.0))?;
        if let Ok(told) = self.0 {
            let first = told.waiting[0];
            write!(f, " {} {} {} {first}", told.last, told.temp, told.count)?;
        }
        Ok(())
    }
}
