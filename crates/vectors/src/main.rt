// The worked numbers of document 01 that are run, its five errors of a hurried builder as scenarios, and the inputs
// that no script of `face` can bring: a line for each, held against the crate's file `stdout`.
#![tactic(auto)]

mod last_numbers;
mod ranges;
mod say;

use chip::Device;
use events::Event;
use frame::Header;
use refusal::Refusal;
use say::{Each, Number, Printer, Read, Said};

// A transfer with so many bytes lent, and what they then are.
fn lending<const LENT: usize>(d: &mut Device, bytes: &[u8]) -> Result<[u8; LENT], Refusal> {
    let mut reply = [0; LENT];
    let o = host::transfer(*d, bytes, &mut reply);
    *d = o.device;
    o.answer?;
    Ok(reply)
}

// A transfer with sixteen bytes lent.
fn transfer(d: &mut Device, bytes: &[u8]) -> Number<[u8; 16]> {
    Number(lending(d, bytes))
}

// A read with sixteen, of which the first N are shown.
fn read<const N: usize>(d: &mut Device, command: u8) -> Read<N> {
    Read(lending(d, &[command]))
}

fn happens(d: &mut Device, e: Event) -> Said {
    brings(d, e, [0; 8])
}

fn brings(d: &mut Device, e: Event, payload: [u8; 8]) -> Said {
    let o = bus::event(*d, e, payload);
    *d = o.device;
    Said(o.answer)
}

// A standard data frame.
fn standard(id: u32, code: u8) -> Header {
    Header {
        id,
        extended: false,
        remote: false,
        code,
    }
}

// One that another node acknowledged.
fn frame_with(d: &mut Device, id: u32, code: u8, given: usize, payload: [u8; 8]) -> Said {
    brings(
        d,
        Event::GoodFrame(standard(id, code), true, given),
        payload,
    )
}

fn scan(d: &mut Device, id: u32) -> Said {
    frame_with(d, id, 0, 0, [0; 8])
}

fn normal() -> Device {
    let mut d = Device::fresh();
    transfer(&mut d, &[0x14, 0x00]);
    d
}

// Normal mode with filtering on: every filter asks for identifier 0x123 and, in the bits that `counts` has, for this
// first data byte.
fn filtering(first: u8, counts: u8) -> Device {
    let mut d = Device::fresh();
    let filters = [0x62, 0x64, 0x66, 0x68, 0x6A, 0x6C, 0x6E, 0x72];
    let masks = [0x74, 0x76, 0x78, 0x7A, 0x7C, 0x7E, 0x82, 0x84];
    for (filter, mask) in filters.iter().zip(&masks) {
        transfer(&mut d, &[*filter, 0x24, 0x60, 0, 0, first, 0]);
        transfer(&mut d, &[*mask, 0xFF, 0xE0, 0, 0, counts, 0]);
    }
    transfer(&mut d, &[0x16, 0x10]);
    transfer(&mut d, &[0x14, 0x00]);
    d
}

fn full_queue(d: &mut Device) -> Each {
    Each([0x123; 8].map(|id| scan(d, id)))
}

fn eight_and_a_ninth(out: &mut Printer) {
    let mut d = normal();
    let eight = full_queue(&mut d);
    let ninth = scan(&mut d, 0x124);
    let read = read::<0>(&mut d, 0x48);
    let next = scan(&mut d, 0x125);
    out.line(format_args!("eight frames, a ninth, one read, the next:{eight}{ninth}{read}{next}"));
}

fn message_to_send(out: &mut Printer) {
    let mut d = normal();
    let whole = transfer(&mut d, &[0x12, 0x07, 0x24, 0x60, 0x02, 0xAA, 0x55]);
    let short = transfer(&mut d, &[0x12, 0x07, 0x24, 0x60, 0x02, 0xAA]);
    out.line(format_args!("12 07 24 60 02 AA 55, and without the 55:{whole}{short}"));
}

fn empty_fifo(out: &mut Printer) {
    let read = Number(lending::<14>(&mut normal(), &[0x48]));
    out.line(format_args!("0x48 on an empty FIFO, 14 bytes lent:{read}"));
}

fn mask_in_normal_mode(out: &mut Printer) {
    let write = transfer(&mut normal(), &[0x74, 0xFF, 0xE0, 0, 0, 0, 0]);
    out.line(format_args!("a mask write in normal mode:{write}"));
}

// After 0x54 the new message stays, and only its own completion takes it.
fn cleared_while_running(out: &mut Printer) {
    let mut d = normal();
    transfer(&mut d, &[0x12, 0x01, 0x24, 0x60, 0x00]);
    transfer(&mut d, &[0x16, 0x80]);
    let begun = happens(&mut d, Event::Begun);
    let cleared = transfer(&mut d, &[0x54]);
    let new = transfer(&mut d, &[0x12, 0x02, 0x24, 0x60, 0x00]);
    let old = happens(&mut d, Event::Completed);
    let statf = read::<1>(&mut d, 0xE2);
    transfer(&mut d, &[0x16, 0x80]);
    let again = happens(&mut d, Event::Begun);
    let own = happens(&mut d, Event::Completed);
    let first = read::<1>(&mut d, 0xEE);
    let second = read::<1>(&mut d, 0xEE);
    out.front(
        "0x54 while one runs, a new message, the old completion, STATF, then the new one's history:",
    );
    out.line(format_args!("{begun}{cleared}{new}{old}{statf}{again}{own}{first}{second}"));
}

fn length_code_nine(out: &mut Printer) {
    let mut d = normal();
    let eight = frame_with(&mut d, 0x123, 9, 8, [1, 2, 3, 4, 5, 6, 7, 8]);
    let nine = frame_with(&mut d, 0x123, 9, 9, [1, 2, 3, 4, 5, 6, 7, 8]);
    let read = read::<14>(&mut d, 0x48);
    out.line(format_args!(
        "length code 9 with eight bytes, with nine, and as read:{eight}{nine}{read}"
    ));
}

fn filtered_off(out: &mut Printer) {
    let mut d = filtering(0, 0);
    let missed = scan(&mut d, 0x124);
    let read = read::<5>(&mut d, 0x44);
    out.line(format_args!(
        "a frame that no filter matches, in the temporary buffer:{missed}{read}"
    ));
}

// Thirteen bytes lent are one too few for 0x48.
fn short_buffer(out: &mut Printer) {
    let mut d = normal();
    let queued = scan(&mut d, 0x123);
    let short = Number(lending::<13>(&mut d, &[0x48]));
    let read = read::<4>(&mut d, 0x48);
    out.line(format_args!(
        "a read with too short a buffer, then one long enough:{queued}{short}{read}"
    ));
}

fn stranger_at_a_full_queue(out: &mut Printer) {
    let mut d = filtering(0, 0);
    let eight = full_queue(&mut d);
    let stranger = scan(&mut d, 0x124);
    let ours = scan(&mut d, 0x123);
    out.line(format_args!("a full queue, a stranger's frame, one of ours:{eight}{stranger}{ours}"));
}

// What stands in the payload behind the frame's own bytes is nothing to filters and reads.
fn payload_behind_the_count(out: &mut Printer) {
    let mut d = filtering(0xAA, 0xFF);
    let without = frame_with(&mut d, 0x123, 0, 0, [0xAA; 8]);
    let mut payload = [0x55; 8];
    payload[0] = 0xAA;
    let with = frame_with(&mut d, 0x123, 1, 1, payload);
    let read = read::<14>(&mut d, 0x48);
    out.front(
        "filters that ask for AA: a frame without data, AA behind it; one with AA, 55 behind it, and as read:",
    );
    out.line(format_args!("{without}{with}{read}"));
}

fn unknown_kind(out: &mut Printer) {
    let unknown = happens(&mut normal(), Event::Unknown);
    out.line(format_args!("an event of no kind that there is:{unknown}"));
}

fn each(out: &mut Printer) {
    eight_and_a_ninth(out);
    message_to_send(out);
    empty_fifo(out);
    mask_in_normal_mode(out);
    cleared_while_running(out);
    length_code_nine(out);
    filtered_off(out);
    short_buffer(out);
    stranger_at_a_full_queue(out);
    payload_behind_the_count(out);
    unknown_kind(out);
    last_numbers::each(out);
    ranges::each(out);
}

fn main(rt: HostRuntime) {
    each(&mut Printer(rt.stdout()));
}
