// A frame that the mode takes: the filters, the room, and what an arrival changes.
#![tactic(auto)]

ghost use Rattle.std.specs.Prelude.{◌≡◌};
ghost use Rattle.receive.specs.Receive.{matching, hits, over_latest, filters_and_room, is_queued, reaches_temporary};
ghost use Rattle.receive.specs.Receive.{queued_flag, filter_flag, queue_after, next_serial, serials_after, own_frame};
ghost use Rattle.receive.specs.Receive.{arrived};

use chip::{Device, LOOPBACK, Serials};
use fifo::{Fifo, Message};
use frame::Header;

// What becomes of a good frame.
#[derive(Clone, Copy, Debug, PartialEq, Eq)]
pub enum Arrival {
    Queued,
    // Queued in the place of the latest of eight that waited. That one is lost: its identifier, and whether it is an
    // extended one.
    QueuedOver(u32, bool),
    // The mode doesn't take bus frames.
    A1,
    // Bus off.
    A2,
    // Monitor mode, and no other node acknowledged it.
    A3,
    // Filtering is on and no filter matches.
    A4,
}

// The frame that an event brings.
#[derive(Clone, Copy, Debug, PartialEq, Eq)]
pub struct Brought {
    // Our own message, or a frame from the bus.
    pub own: bool,
    // Whether another node acknowledged it. Of our own message nothing asks, and it is true: a flag of its own, since
    // `judged::reason` answers for every pair.
    pub acknowledged: bool,
    pub header: Header,
    pub payload: [u8; 8],
}

// Which filters match a frame, whether FILTON is on or not.
#[tactic(auto, unfolding(crate::specs::Receive::matching))]
pub fn matching(d: Device, h: Header, payload: [u8; 8]) -> u8
    ensures { result ≡ matching d h payload }
{
    filter::hits(
        chip::bank(d.filters),
        chip::bank(d.masks),
        h.compared(payload),
    )
}

// The filters that a frame hits: where none comes, or FILTON is off, none is asked.
#[tactic(auto, using(base::specs::Pick::picks, base::specs::Pick::judges), unfolding(crate::specs::Receive::hits))]
pub fn hits(d: Device, b: Option<Brought>) -> u8
    ensures { result ≡ hits d b }
{
    match b {
        Some(b) if d.filton() => matching(d, b.header, b.payload),
        _ => 0,
    }
}

// A frame takes the place of the latest message, which is named.
#[tactic(auto, unfolding(crate::specs::Receive::over_latest))]
fn over_latest(q: Fifo) -> Arrival
    ensures { result ≡ over_latest q }
{
    let lost = frame::header_in(q.latest().bytes);
    Arrival::QueuedOver(lost.id, lost.extended)
}

// What becomes of a frame that the mode takes, by the filters that it hits. The room is asked for last: a stranger's
// frame takes nobody's place.
#[tactic(auto, using(base::specs::Pick::picks, base::specs::Pick::judges), unfolding(crate::specs::Receive::filters_and_room))]
pub fn filters_and_room(d: Device, hits: u8) -> Arrival
    ensures { result ≡ filters_and_room d hits }
{
    if d.filton() & (hits == 0) {
        Arrival::A4
    } else if d.rx.full() {
        over_latest(d.rx)
    } else {
        Arrival::Queued
    }
}

#[tactic(auto, using(base::specs::Pick::picks, base::specs::Pick::judges), unfolding(crate::specs::Receive::is_queued))]
fn is_queued(a: Arrival) -> bool
    ensures { result ≡ is_queued a }
{
    matches!(a, Arrival::Queued | Arrival::QueuedOver(_, _))
}

// Whether a good frame reaches the temporary buffer, and so gets an arrival number.
#[tactic(auto, using(base::specs::Pick::picks, base::specs::Pick::judges), unfolding(crate::specs::Receive::reaches_temporary))]
pub fn reaches_temporary(what: Arrival) -> bool
    ensures { result ≡ reaches_temporary what }
{
    !matches!(what, Arrival::A1 | Arrival::A2 | Arrival::A3)
}

#[tactic(auto, using(base::specs::Pick::picks, base::specs::Pick::judges), unfolding(crate::specs::Receive::queued_flag))]
fn queued_flag(queued: bool) -> u8
    ensures { result ≡ queued_flag queued }
{
    if queued { flags::RXFIFO } else { 0 }
}

// F0MESS and F1MESS follow the lowest alone.
#[tactic(auto, using(base::specs::Pick::picks, base::specs::Pick::judges), unfolding(crate::specs::Receive::filter_flag))]
fn filter_flag(hits: u8) -> u8
    ensures { result ≡ filter_flag hits }
{
    if base::is_set(0, hits) {
        flags::F0MESS
    } else if base::is_set(1, hits) {
        flags::F1MESS
    } else {
        0
    }
}

#[tactic(auto, using(base::specs::Pick::picks, base::specs::Pick::judges), unfolding(crate::specs::Receive::queue_after))]
fn queue_after(q: Fifo, m: Message, queued: bool) -> Fifo
    ensures { result ≡ queue_after q m queued }
{
    if queued { q.put_over(m) } else { q }
}

// The next number; the last stays the last.
#[tactic(auto, using(base::specs::Pick::picks), unfolding(crate::specs::Receive::next_serial))]
fn next_serial(last: u64) -> u64
    ensures { result ≡ next_serial last }
{
    last.saturating_add(1)
}

// The arrival numbers with one more: the frame's own, in the temporary buffer and, if it is queued, at its place in the
// FIFO.
#[tactic(auto, using(base::specs::Pick::picks, fifo::proofs::Waiting::over_below), unfolding(crate::specs::Receive::serials_after))]
fn serials_after(s: Serials, q: Fifo, queued: bool) -> Serials
    ensures { result ≡ serials_after s q queued }
{
    let serial = next_serial(s.last);
    let mut places = s.places;
    if queued {
        places[q.place_over()] = serial;
    }
    Serials {
        last: serial,
        temp: serial,
        places,
    }
}

// The message in the transmit buffer, which comes back in loopback alone.
#[tactic(auto, unfolding(crate::specs::Receive::own_frame))]
pub fn own_frame(d: Device) -> Option<Brought>
    ensures { result ≡ own_frame d }
{
    if d.acting == LOOPBACK {
        Some(Brought {
            own: true,
            acknowledged: true,
            header: frame::header_in(d.buffer.bytes),
            payload: frame::data_in(d.buffer.bytes),
        })
    } else {
        None
    }
}

// The device with the frame arrived: in the temporary buffer in any case, in the FIFO if it is queued.
#[tactic(auto, unfolding(crate::specs::Receive::arrived))]
pub fn arrived(d: Device, b: Brought, hits: u8, what: Arrival) -> Device
    ensures { result ≡ arrived d b hits what }
{
    let queued = is_queued(what);
    let m = Message {
        bytes: b.header.received(b.payload, d.time, filter::filhit(hits)),
    };
    let mut e = d;
    e.regs.hits = hits;
    e.temp = m;
    e.rx = queue_after(d.rx, m, queued);
    e.serials = serials_after(d.serials, d.rx, queued);
    let f = flags::raised(e, flags::RXTMP);
    let g = flags::raised(f, queued_flag(queued));
    flags::raised(g, filter_flag(hits))
}
