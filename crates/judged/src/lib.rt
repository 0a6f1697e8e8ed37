// Which events can't be, and what the others are answered.
#![tactic(auto)]

ghost use Rattle.std.specs.Prelude.{◌≡◌};
ghost use Rattle.judged.specs.Judged.{quiet_mode, no_errors, runs, impossible_frame, impossible};
ghost use Rattle.judged.specs.Judged.{takes_no_frames, unacknowledged, reason, said, gives_number, no_number_left};
ghost use Rattle.judged.specs.Judged.{bus_frame, brings};

use chip::{Device, IDLE, INITIALIZATION, LOOPBACK, MONITOR, SLEEP};
use events::Event;
use frame::Header;
use receive::{Arrival, Brought};

#[tactic(auto, using(base::specs::Pick::picks, base::specs::Pick::judges), unfolding(crate::specs::Judged::quiet_mode))]
fn quiet_mode(acting: u8) -> bool
    ensures { result ≡ quiet_mode acting }
{
    matches!(acting, INITIALIZATION | SLEEP)
}

// Where no error can be met.
#[tactic(auto, unfolding(crate::specs::Judged::no_errors))]
fn no_errors(d: Device) -> bool
    ensures { result ≡ no_errors d }
{
    quiet_mode(d.acting) | d.counters.busoff
}

#[tactic(auto, unfolding(crate::specs::Judged::runs))]
fn runs(d: Device) -> bool
    ensures { result ≡ runs d }
{
    d.sending != IDLE
}

// 8, of a good frame: impossible fields.
#[tactic(auto, unfolding(crate::specs::Judged::impossible_frame))]
pub fn impossible_frame(h: Header, given: usize) -> bool
    ensures { result ≡ impossible_frame h given }
{
    !(h.possible() & h.data_fits(given))
}

// 8: impossible fields, or an impossible time.
#[tactic(auto, unfolding(crate::specs::Judged::impossible))]
pub fn impossible(d: Device, e: Event) -> bool
    ensures { result ≡ impossible d e }
{
    match e {
        Event::GoodFrame(h, _, given) => impossible_frame(h, given),
        Event::ReceiveError(_) | Event::DominantBit => no_errors(d),
        Event::TransmitError(_, _) => !runs(d) | no_errors(d),
        Event::Begun => !transmit::can_begin(d),
        Event::Completed | Event::ArbitrationLost => !runs(d),
        Event::ElevenRecessive
        | Event::BusQuiet
        | Event::BusActivity
        | Event::Ticks(_)
        | Event::TxenPin(_)
        | Event::MrPin => false,
        Event::Unknown => true,
    }
}

#[tactic(auto, unfolding(crate::specs::Judged::takes_no_frames))]
fn takes_no_frames(acting: u8) -> bool
    ensures { result ≡ takes_no_frames acting }
{
    quiet_mode(acting) | (acting == LOOPBACK)
}

// A monitor acknowledges nothing, so it takes only what another node acknowledged.
#[tactic(auto, unfolding(crate::specs::Judged::unacknowledged))]
fn unacknowledged(acting: u8, acknowledged: bool) -> bool
    ensures { result ≡ unacknowledged acting acknowledged }
{
    (acting == MONITOR) & !acknowledged
}

// What becomes of a frame, by the filters that it hits: the first reason that holds. A1 to A3 speak of frames from the
// bus alone.
#[tactic(auto, using(base::specs::Pick::picks), unfolding(crate::specs::Judged::reason))]
pub fn reason(d: Device, b: Brought, hits: u8) -> Arrival
    ensures { result ≡ reason d b hits }
{
    if b.own {
        receive::filters_and_room(d, hits)
    } else if takes_no_frames(d.acting) {
        Arrival::A1
    } else if d.counters.busoff {
        Arrival::A2
    } else if unacknowledged(d.acting, b.acknowledged) {
        Arrival::A3
    } else {
        receive::filters_and_room(d, hits)
    }
}

// What an event that isn't refused says of the frame that it brings.
#[tactic(auto, unfolding(crate::specs::Judged::said))]
pub fn said(d: Device, b: Option<Brought>, hits: u8) -> Option<Arrival>
    ensures { result ≡ said d b hits }
{
    b.map(|b| reason(d, b, hits))
}

// Whether what is said gives a frame its arrival number.
#[tactic(auto, unfolding(crate::specs::Judged::gives_number))]
fn gives_number(told: Option<Arrival>) -> bool
    ensures { result ≡ gives_number told }
{
    told.is_some_and(receive::reaches_temporary)
}

// 12: the frame is to be numbered, and the last number has been given.
#[tactic(auto, unfolding(crate::specs::Judged::no_number_left))]
pub fn no_number_left(d: Device, told: Option<Arrival>) -> bool
    ensures { result ≡ no_number_left d told }
{
    gives_number(told) & d.spent()
}

#[tactic(auto, unfolding(crate::specs::Judged::bus_frame))]
fn bus_frame(header: Header, acknowledged: bool, payload: [u8; 8]) -> Brought
    ensures { result ≡ bus_frame header acknowledged payload }
{
    Brought {
        own: false,
        acknowledged,
        header,
        payload,
    }
}

// What an event brings: a good frame; a completion our own message, which comes back in loopback alone; else nothing.
#[tactic(auto, unfolding(crate::specs::Judged::brings))]
pub fn brings(d: Device, e: Event, payload: [u8; 8]) -> Option<Brought>
    ensures { result ≡ brings d e payload }
{
    match e {
        Event::GoodFrame(h, acknowledged, _) => Some(bus_frame(h, acknowledged, payload)),
        Event::Completed => receive::own_frame(d),
        _ => None,
    }
}
