// The last arrival numbers, which no script reaches: a device that has given 2^64 - 2, and what it then does.
use crate::say::{Printer, Said, Told};
use crate::{happens, normal, read, scan, standard, transfer};
use chip::Device;
use events::Event;

// Normal mode, and one number is left.
fn one_left() -> Device {
    let mut d = normal();
    d.serials.last = u64::MAX - 1;
    d
}

fn numbers(d: Device) -> Told {
    Told(bus::numbers(d))
}

fn last_and_none_behind_it(out: &mut Printer) {
    let mut d = one_left();
    let last = scan(&mut d, 0x123);
    let after = numbers(d);
    let none = scan(&mut d, 0x123);
    let still = numbers(d);
    out.front("one arrival number left: a frame, the numbers, another frame, the numbers:");
    out.line(format_args!("{last}{after}{none}{still}"));
}

// 8 comes first, and a frame that gets no number is answered as ever.
fn what_12_leaves(out: &mut Printer) {
    let mut d = one_left();
    let last = scan(&mut d, 0x123);
    let impossible = scan(&mut d, 0x800);
    let mut off = d;
    off.counters.busoff = true;
    let bus_off = scan(&mut off, 0x123);
    transfer(&mut d, &[0x56]);
    let reset = scan(&mut d, 0x123);
    transfer(&mut d, &[0x14, 0x00]);
    let none = scan(&mut d, 0x123);
    let told = numbers(d);
    out.front(
        "the last number given: an impossible frame, one in bus off, one after a reset, one in normal mode, the numbers:",
    );
    out.line(format_args!("{last}{impossible}{bus_off}{reset}{none}{told}"));
}

fn why_not(d: Device) -> Said {
    Said(why::explained(d, standard(0x123, 0), true, 0, [0; 8]).answer)
}

fn asked_why(out: &mut Printer) {
    let mut d = one_left();
    let last = scan(&mut d, 0x123);
    let normal = why_not(d);
    transfer(&mut d, &[0x14, 0x80]);
    let initialization = why_not(d);
    out.front("the last number given: asked why, in normal mode and in initialization:");
    out.line(format_args!("{last}{normal}{initialization}"));
}

// TSTAT shows that the message still runs; outside loopback its completion gets no number, and is done.
fn completion_in_loopback(out: &mut Printer) {
    let mut d = Device::fresh();
    transfer(&mut d, &[0x14, 0x20]);
    transfer(&mut d, &[0x12, 0x01, 0x24, 0x60, 0x00]);
    transfer(&mut d, &[0x16, 0x80]);
    let begun = happens(&mut d, Event::Begun);
    d.serials.last = u64::MAX;
    let refused = happens(&mut d, Event::Completed);
    let messtat = read::<1>(&mut d, 0xDA);
    transfer(&mut d, &[0x14, 0x00]);
    let again = happens(&mut d, Event::Begun);
    let done = happens(&mut d, Event::Completed);
    let told = numbers(d);
    out.front(
        "the last number given: a completion in loopback, MESSTAT, one in normal mode, the numbers:",
    );
    out.line(format_args!("{begun}{refused}{messtat}{again}{done}{told}"));
}

pub(crate) fn each(out: &mut Printer) {
    last_and_none_behind_it(out);
    what_12_leaves(out);
    asked_why(out);
    completion_in_loopback(out);
}
