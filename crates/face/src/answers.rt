// Each request of a script is answered by one line; a blank line has no answer.
use crate::device;
use crate::page::Page;
use crate::script::Task;
use crate::text::Bytes;
use crate::unreadable::Unreadable;
use bus::types::{Numbers, Pins};
use chip::Device;
use line::{Asked, Line};
use receive::Arrival;
use refusal::Refusal;
use std::fmt;

#[derive(Clone, Copy)]
pub struct Answering {
    device: Device,
}

impl Answering {
    pub(crate) fn new() -> Answering {
        Answering {
            device: Device::fresh(),
        }
    }
}

impl Task for Answering {
    fn line(&mut self, line: Line, number: u64, page: &mut Page) {
        match line.asked {
            Asked::Nothing => {}
            Asked::Transfer(lent) => {
                let mut reply = [0; 16];
                let reply = device::transfer(&mut self.device, &line, lent, &mut reply);
                page.line(Answered(reply.map(Bytes)));
            }
            Asked::Happens(event) => {
                let answer = device::happens(&mut self.device, event, &line);
                page.line(Answered(answer.map(Happened)));
            }
            Asked::Pins => page.line(Levels(bus::pins(self.device))),
            // The device comes from a fresh one, so that this is never refused.
            Asked::Numbers => match bus::numbers(self.device) {
                Ok(numbers) => page.line(Given(numbers)),
                Err(refusal) => page.line(refusal),
            },
            Asked::Hits(h, given) => {
                let hits = bus::hits(self.device, h, given, device::payload(&line));
                page.line(Answered(hits.map(Set)));
            }
            Asked::Unreadable(expected) => {
                let unreadable = Unreadable::new(expected, &line, number);
                page.line(format_args!("? {unreadable}"));
            }
        }
    }

    fn end(&mut self, _lines: u64, _page: &mut Page) {}
}

// 0 and what there is to say, or the number of the refusal.
#[derive(Clone, Copy)]
struct Answered<T>(Result<T, Refusal>);

impl<T: fmt::Display> fmt::Display for Answered<T> {
    fn fmt<W: fmt::Write>(&self, f: &mut fmt::Formatter<W>) -> fmt::Result {
        match &self.0 {
            Ok(said) => write!(f, "0{said}"),
            Err(refusal) => write!(f, "{refusal}"),
        }
    }
}

// What became of a frame, where one came.
#[derive(Clone, Copy)]
struct Happened(Option<Arrival>);

impl fmt::Display for Happened {
    fn fmt<W: fmt::Write>(&self, f: &mut fmt::Formatter<W>) -> fmt::Result {
        match self.0 {
            Some(what) => write!(f, " {}", Word(what)),
            None => Ok(()),
        }
    }
}

// Behind the word the message that is lost, as a line writes it: `Queued-over 123 std`.
#[derive(Clone, Copy)]
pub struct Word(pub Arrival);

impl fmt::Display for Word {
    fn fmt<W: fmt::Write>(&self, f: &mut fmt::Formatter<W>) -> fmt::Result {
        match self.0 {
            Arrival::Queued => f.write_str("Queued"),
            Arrival::QueuedOver(id, true) => write!(f, "Queued-over {id:X} ext"),
            Arrival::QueuedOver(id, false) => write!(f, "Queued-over {id:X} std"),
            Arrival::A1 => f.write_str("A1"),
            Arrival::A2 => f.write_str("A2"),
            Arrival::A3 => f.write_str("A3"),
            Arrival::A4 => f.write_str("A4"),
        }
    }
}

// A set of filters as a byte, and how many it has.
#[derive(Clone, Copy)]
struct Set(u8);

impl fmt::Display for Set {
    fn fmt<W: fmt::Write>(&self, f: &mut fmt::Formatter<W>) -> fmt::Result {
        let set = self.0;
        let count = filter::how_many(set);
        write!(f, " {set:02X} {count}")
    }
}

#[derive(Clone, Copy)]
struct Levels(Pins);

impl fmt::Display for Levels {
    fn fmt<W: fmt::Write>(&self, f: &mut fmt::Formatter<W>) -> fmt::Result {
        let Pins {
            int,
            stat,
            gp1,
            gp2,
        } = self.0;
        write!(
            f,
            "int={} stat={} gp1={} gp2={}",
            u8::from(int),
            u8::from(stat),
            u8::from(gp1),
            u8::from(gp2)
        )
    }
}

// The arrival numbers.
#[derive(Clone, Copy)]
struct Given(Numbers);

impl fmt::Display for Given {
    fn fmt<W: fmt::Write>(&self, f: &mut fmt::Formatter<W>) -> fmt::Result {
        let told = self.0;
        let count = usize::from(told.count).min(8);
        let waiting = Waiting(&told.waiting[..count]);
        write!(f, "last={} temp={} waiting={waiting}", told.last, told.temp)
    }
}

// Those of the messages that wait, oldest first: `12,13,17`, or `-` where there are none.
#[derive(Clone, Copy)]
struct Waiting<'a>(&'a [u64]);

impl fmt::Display for Waiting<'_> {
    fn fmt<W: fmt::Write>(&self, f: &mut fmt::Formatter<W>) -> fmt::Result {
        let Some((first, others)) = self.0.split_first() else {
            return f.write_str("-");
        };
        write!(f, "{first}")?;
        for serial in others {
            write!(f, ",{serial}")?;
        }
        Ok(())
    }
}
