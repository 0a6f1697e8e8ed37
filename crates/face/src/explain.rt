// A script whose last frame is explained. Each request before it is done without a word; a line that can't be read, or
// that is refused, is told. The command `why` adds what a number means.
use crate::page::Page;
use crate::script::Task;
use crate::unreadable::Unreadable;
use crate::{device, reason};
use chip::Device;
use events::Event;
use line::{Asked, Line};
use refusal::Refusal;

// A request that waits, and the line that it stands on: only the next one tells that it isn't the last.
#[derive(Clone, Copy)]
struct Last {
    line: Line,
    number: u64,
}

#[derive(Clone, Copy)]
pub struct Explaining {
    device: Device,
    last: Option<Last>,
}

impl Explaining {
    pub(crate) fn new() -> Explaining {
        Explaining {
            device: Device::fresh(),
            last: None,
        }
    }

    // What a request does to the device.
    fn follow(&mut self, line: &Line) -> Result<(), Refusal> {
        match line.asked {
            Asked::Transfer(lent) => {
                device::transfer(&mut self.device, line, lent, &mut [0; 16])?;
            }
            Asked::Happens(event) => {
                device::happens(&mut self.device, event, line)?;
            }
            Asked::Hits(h, given) => {
                bus::hits(self.device, h, given, device::payload(line))?;
            }
            _ => {}
        }
        Ok(())
    }
}

impl Task for Explaining {
    // The request that waited is done, since another follows it.
    fn line(&mut self, line: Line, number: u64, page: &mut Page) {
        if matches!(line.asked, Asked::Nothing) {
            return;
        }
        let Some(waited) = self.last.replace(Last { line, number }) else {
            return;
        };
        let number = waited.number;
        if let Asked::Unreadable(expected) = waited.line.asked {
            page.line(Unreadable::new(expected, &waited.line, number));
        }
        if let Err(refusal) = self.follow(&waited.line) {
            page.line(format_args!("line {number}: {refusal}"));
        }
    }

    fn end(&mut self, lines: u64, page: &mut Page) {
        let Some(Last { line, number }) = self.last else {
            return no_frame(lines, "the end of the script", page);
        };
        match line.asked {
            Asked::Happens(Event::GoodFrame(h, acknowledged, given)) => {
                let why = why::explained(
                    self.device,
                    h,
                    acknowledged,
                    given,
                    device::payload(&line),
                );
                reason::tell(self.device, &why, page);
            }
            Asked::Unreadable(expected) => {
                page.line(Unreadable::new(expected, &line, number));
                no_frame(number, "a line that can't be read", page);
            }
            _ => no_frame(number, "another request", page),
        }
    }
}

fn no_frame(number: u64, read: &str, page: &mut Page) {
    page.line(format_args!(
        "line {number}: expected a frame as the last line, as frame 123 std data 2 ack AA 55, read {read}"
    ));
}
