// What is told of a frame that is explained: the answer, and where each filter differs. The command `why` adds to the
// answer what it means and what to do.
use crate::answers::Word;
use crate::page::Page;
use bus::types::Answer;
use chip::{Device, LOOPBACK, SLEEP};
use receive::Arrival;
use std::fmt;
use why::{Field, Place, Why};

pub(crate) fn tell(d: Device, why: &Why, page: &mut Page) {
    answer(d, why.answer, page);
    for (filter, place) in why.places.iter().enumerate() {
        if let Some(place) = place {
            page.line(format_args!("filter {filter}: {}", Difference(place)));
        }
    }
}

fn answer(d: Device, answer: Answer, page: &mut Page) {
    match answer {
        Ok(Some(Arrival::A1)) => page.line(format_args!("A1, {}", mode(d))),
        Ok(Some(what)) => page.line(Word(what)),
        Ok(None) => page.line("0"),
        Err(refusal) => page.line(refusal),
    }
}

// The modes that take no frames are told apart, since what helps differs.
fn mode(d: Device) -> &'static str {
    match d.acting {
        SLEEP if d.wakeup() => "sleep with WAKEUP",
        SLEEP => "sleep",
        LOOPBACK => "loopback",
        _ => "initialization",
    }
}

// As `byte 2 bit 4 (RTR: the filter asks for 0, the frame has 1)`.
#[derive(Clone, Copy)]
struct Difference<'a>(&'a Place);

impl fmt::Display for Difference<'_> {
    fn fmt<W: fmt::Write>(&self, f: &mut fmt::Formatter<W>) -> fmt::Result {
        let Place {
            byte,
            bit,
            wanted,
            came,
        } = *self.0;
        let field = Name(why::field_at(byte, bit));
        write!(
            f,
            "byte {byte} bit {bit} ({field}: the filter asks for {wanted}, the frame has {came})"
        )
    }
}

#[derive(Clone, Copy)]
struct Name(Field);

impl fmt::Display for Name {
    fn fmt<W: fmt::Write>(&self, f: &mut fmt::Formatter<W>) -> fmt::Result {
        match self.0 {
            Field::Id(i) => write!(f, "ID{i}"),
            Field::Rtr => f.write_str("RTR"),
            Field::Ide => f.write_str("IDE"),
            Field::Data(i) => write!(f, "data byte {i}"),
            Field::Unnamed => f.write_str("no field"),
        }
    }
}
