// What an event that isn't refused changes.
#![tactic(auto)]

ghost use Rattle.std.specs.Prelude.{◌≡◌, ◌+◌, ◌%◌};
ghost use Rattle.chip.specs.State.{unless_monitor};
ghost use Rattle.changed.specs.Changed.{err_bit, counted_frame, heard, taken, counted_receive_error, receive_error_met};
ghost use Rattle.changed.specs.Changed.{dominant_met, counted_transmit_error, transmit_error_met, recessive_met, ticked};
ghost use Rattle.changed.specs.Changed.{pin_set, arrival, after};

use chip::{Device, MONITOR, NORMAL};
use counters::Counters;
use events::{ErrorKind, Event};
use receive::{Arrival, Brought};

#[tactic(auto, unfolding(crate::specs::Changed::err_bit))]
fn err_bit(kind: ErrorKind) -> u8
    ensures { result ≡ err_bit kind }
{
    kind as u8
}

// A monitor's counters stay. `transmit::counted_completion` says so of the one rule there: a function for both would be
// public, for one `if`.
#[tactic(auto, using(base::specs::Pick::picks))]
fn unless_monitor(acting: u8, before: Counters, after: Counters) -> Counters
    ensures { result ≡ unless_monitor acting before after }
{
    if acting == MONITOR { before } else { after }
}

// A good frame lowers REC in normal mode.
#[tactic(auto, using(base::specs::Pick::picks), unfolding(crate::specs::Changed::counted_frame))]
fn counted_frame(c: Counters, acting: u8) -> Counters
    ensures { result ≡ counted_frame c acting }
{
    if acting == NORMAL { c.good_frame() } else { c }
}

#[tactic(auto, unfolding(crate::specs::Changed::counted_receive_error))]
fn counted_receive_error(c: Counters, acting: u8) -> Counters
    ensures { result ≡ counted_receive_error c acting }
{
    unless_monitor(acting, c, c.receive_error())
}

#[tactic(auto, unfolding(crate::specs::Changed::receive_error_met))]
fn receive_error_met(d: Device, kind: ErrorKind) -> Device
    ensures { result ≡ receive_error_met d kind }
{
    let mut e = flags::bus_error(d, err_bit(kind));
    e.counters = counted_receive_error(d.counters, d.acting);
    e
}

#[tactic(auto, unfolding(crate::specs::Changed::dominant_met))]
fn dominant_met(d: Device) -> Device
    ensures { result ≡ dominant_met d }
{
    let mut e = d;
    e.counters = unless_monitor(d.acting, d.counters, d.counters.dominant_bit());
    e
}

#[tactic(auto, using(base::specs::Pick::picks), unfolding(crate::specs::Changed::counted_transmit_error))]
fn counted_transmit_error(c: Counters, acting: u8, counted: bool) -> Counters
    ensures { result ≡ counted_transmit_error c acting counted }
{
    if counted {
        unless_monitor(acting, c, c.transmit_error())
    } else {
        c
    }
}

#[tactic(auto, unfolding(crate::specs::Changed::transmit_error_met))]
fn transmit_error_met(d: Device, kind: ErrorKind, counted: bool) -> Device
    ensures { result ≡ transmit_error_met d kind counted }
{
    let mut e = flags::bus_error(d, err_bit(kind));
    e.counters = counted_transmit_error(d.counters, d.acting, counted);
    transmit::stopped(e)
}

#[tactic(auto, unfolding(crate::specs::Changed::recessive_met))]
fn recessive_met(d: Device) -> Device
    ensures { result ≡ recessive_met d }
{
    let mut e = d;
    e.counters = d.counters.eleven_recessive(d.bor());
    e
}

fn later(time: u16, count: u64) -> u16
    ensures { result ≡ (time + count) % 65536 }
{
    time.wrapping_add((count % 65536) as u16)
}

#[tactic(auto, unfolding(crate::specs::Changed::ticked))]
fn ticked(d: Device, count: u64) -> Device
    ensures { result ≡ ticked d count }
{
    let mut e = d;
    e.time = later(d.time, count);
    e
}

#[tactic(auto, unfolding(crate::specs::Changed::pin_set))]
fn pin_set(d: Device, level: bool) -> Device
    ensures { result ≡ pin_set d level }
{
    let mut e = d;
    e.txenpin = level;
    e
}

// A frame that was taken, from the bus.
#[tactic(auto, unfolding(crate::specs::Changed::heard))]
fn heard(d: Device) -> Device
    ensures { result ≡ heard d }
{
    let mut e = d;
    e.counters = counted_frame(d.counters, d.acting);
    e
}

// A frame that was taken: our own message arrives first, then it is sent.
#[tactic(auto, using(base::specs::Pick::picks), unfolding(crate::specs::Changed::taken))]
fn taken(d: Device, own: bool) -> Device
    ensures { result ≡ taken d own }
{
    if own {
        transmit::transmitted(d)
    } else {
        heard(d)
    }
}

// An event that brought a frame, by the filters that it hits and what became of it. One that isn't taken is still
// activity on the bus, and wakes a sleeping device if WAKEUP is set.
#[tactic(auto, using(base::specs::Pick::picks), unfolding(crate::specs::Changed::arrival))]
pub fn arrival(d: Device, b: Brought, hits: u8, what: Arrival) -> Device
    ensures { result ≡ arrival d b hits what }
{
    if receive::reaches_temporary(what) {
        taken(receive::arrived(d, b, hits, what), b.own)
    } else {
        modes::bus_activity(d)
    }
}

// An event that brought none.
#[tactic(auto, unfolding(crate::specs::Changed::after))]
pub fn after(d: Device, e: Event) -> Device
    ensures { result ≡ after d e }
{
    match e {
        Event::ReceiveError(kind) => receive_error_met(d, kind),
        Event::DominantBit => dominant_met(d),
        Event::TransmitError(kind, counted) => transmit_error_met(d, kind, counted),
        Event::Begun => transmit::begun(d),
        Event::Completed => transmit::transmitted(d),
        Event::ArbitrationLost => transmit::stopped(d),
        Event::ElevenRecessive => recessive_met(d),
        Event::BusQuiet => modes::bus_quiet(d),
        Event::BusActivity => modes::bus_activity(d),
        Event::Ticks(count) => ticked(d, count),
        Event::TxenPin(level) => pin_set(d, level),
        Event::MrPin => flags::reset(d),
        Event::GoodFrame(_, _, _) | Event::Unknown => d,
    }
}
