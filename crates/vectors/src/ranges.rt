// Number 1: of each range that `Device::proper` asks for, a device just outside it and its neighbour at the bound, at
// both doors, asked why and asked for its numbers.
use crate::say::{Number, Printer, Said};
use crate::standard;
use chip::{Device, FIRST_IN_FIFO};
use events::Event;
use std::fmt;

// What a read of CTRL0, an event of no ticks, the question why a frame would not arrive and that of the arrival numbers
// are given.
#[derive(Clone, Copy)]
struct Asked(Device);

impl fmt::Display for Asked {
    fn fmt<W: fmt::Write>(&self, f: &mut fmt::Formatter<W>) -> fmt::Result {
        let d = self.0;
        let read = Number(host::transfer(d, &[0xD2], &mut [0; 1]).answer);
        let ticks = Said(bus::event(d, Event::Ticks(0), [0; 8]).answer);
        let why = Said(why::explained(d, standard(0x123, 0), true, 0, [0; 8]).answer);
        let numbers = Number(bus::numbers(d));
        write!(f, "{read}{ticks}{why}{numbers}")
    }
}

// A fresh device but for one change, with the first value outside a range and with its bound. The range comes with its
// colon, as one piece.
fn on_both_sides<F: Fn(&mut Device, u8)>(
    out: &mut Printer,
    range: &str,
    outside: u8,
    bound: u8,
    change: F,
)
    requires { F.IsAlwaysCallable change }
{
    let changed = |value| {
        let mut d = Device::fresh();
        change(&mut d, value);
        Asked(d)
    };
    out.line(format_args!("{range}{},{}", changed(outside), changed(bound)));
}

fn queues(out: &mut Printer) {
    on_both_sides(
        out,
        "receive FIFO, first 8 and 7:",
        8,
        7,
        |d, n| d.rx.first = n,
    );
    on_both_sides(
        out,
        "receive FIFO, 9 and 8 messages:",
        9,
        8,
        |d, n| d.rx.count = n,
    );
    on_both_sides(
        out,
        "transmit FIFO, first 8 and 7:",
        8,
        7,
        |d, n| d.tx.first = n,
    );
    on_both_sides(
        out,
        "transmit FIFO, 9 and 8 messages:",
        9,
        8,
        |d, n| d.tx.count = n,
    );
    on_both_sides(
        out,
        "history, first 8 and 7:",
        8,
        7,
        |d, n| d.history.first = n,
    );
    on_both_sides(
        out,
        "history, 9 and 8 entries:",
        9,
        8,
        |d, n| d.history.count = n,
    );
}

fn registers(out: &mut Printer) {
    on_both_sides(out, "ERR, 32 and 31:", 32, 31, |d, n| d.regs.errs = n);
    on_both_sides(out, "MTAG, 4 and 3:", 4, 3, |d, n| d.regs.mtag = n);
    on_both_sides(
        out,
        "groups, 129 and 128:",
        129,
        128,
        |d, n| d.counters.groups = n,
    );
}

fn running(out: &mut Printer) {
    on_both_sides(out, "one runs as the first of 0 and of 1:", 0, 1, |d, n| {
        d.tx.count = n;
        d.sending = FIRST_IN_FIFO;
    });
    on_both_sides(out, "what runs, 3 and 2:", 3, 2, |d, n| d.sending = n);
}

fn acting(out: &mut Printer, range: &str, ctrl0: u8, outside: u8, bound: u8) {
    on_both_sides(out, range, outside, bound, |d, mode| {
        d.regs.ctrl0 = ctrl0;
        d.acting = mode;
    });
}

fn modes(out: &mut Printer) {
    acting(out, "MODE 000, acting 1 and 0:", 0x00, 1, 0);
    acting(out, "MODE 001, acting 0 and 1:", 0x20, 0, 1);
    acting(out, "MODE 010, acting 3 and 2:", 0x40, 3, 2);
    acting(out, "MODE 100, acting 3 and 4:", 0x80, 3, 4);
    acting(out, "MODE 111, acting 5 and 4:", 0xE0, 5, 4);
    acting(out, "MODE 011, acting 5 and 4:", 0x60, 5, 4);
}

pub(crate) fn each(out: &mut Printer) {
    queues(out);
    registers(out);
    running(out);
    modes(out);
}
