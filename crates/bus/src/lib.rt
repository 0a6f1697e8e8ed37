// The bus's door: an event in, an answer out. First the filters are asked and the answer is found, from the state and
// the event, changing nothing; then the change is made.
#![tactic(auto)]

ghost use Rattle.std.specs.Prelude.{◌≡◌};
ghost use Rattle.bus.specs.Event.{answered, answer, event};
ghost use Rattle.bus.specs.Hits.{hits};
ghost use Rattle.bus.specs.Numbers.{waiting_number, waiting_numbers, numbers};
ghost use Rattle.bus.specs.Pins.{pins};

use chip::Device;
use events::Event;
use frame::Header;
use receive::Brought;
use refusal::Refusal;
use std::array;
use types::{Answer, Numbers, Outcome, Pins};

pub mod types;

// The set goes beside the frame: `judged::said` and `changed::arrival` promise an answer for every set, and not for the
// one alone that `receive::hits` gives.
#[tactic(auto, using(base::specs::Pick::picks), unfolding(crate::specs::Event::answered))]
fn answered(d: Device, e: Event, b: Option<Brought>, hits: u8) -> Answer
    ensures { result ≡ answered d e b hits }
{
    if !d.proper() {
        return Err(Refusal::OutOfRange);
    }
    if judged::impossible(d, e) {
        return Err(Refusal::Impossible);
    }
    let told = judged::said(d, b, hits);
    if judged::no_number_left(d, told) {
        return Err(Refusal::NoNumberLeft);
    }
    Ok(told)
}

// The answer that an event gets; the device stays.
#[tactic(auto, unfolding(crate::specs::Event::answer))]
pub fn answer(d: Device, e: Event, payload: [u8; 8]) -> Answer
    ensures { result ≡ answer d e payload }
{
    let b = judged::brings(d, e, payload);
    let hits = receive::hits(d, b);
    answered(d, e, b, hits)
}

#[tactic(auto, unfolding(crate::specs::Event::answer, crate::specs::Event::event))]
pub fn event(d: Device, e: Event, payload: [u8; 8]) -> Outcome
    ensures { result ≡ event d e payload }
{
    let b = judged::brings(d, e, payload);
    let hits = receive::hits(d, b);
    let answer = answered(d, e, b, hits);
    let device = match (answer, b) {
        (Err(_), _) => d,
        (Ok(Some(what)), Some(b)) => changed::arrival(d, b, hits, what),
        (Ok(_), _) => changed::after(d, e),
    };
    Outcome { device, answer }
}

// Which filters match a frame, whether FILTON is on or not: people tune filters before they turn them on.
#[tactic(auto, using(base::specs::Pick::picks), unfolding(crate::specs::Hits::hits))]
pub fn hits(d: Device, h: Header, given: usize, payload: [u8; 8]) -> Result<u8, Refusal>
    ensures { result ≡ hits d h given payload }
{
    if !d.proper() {
        return Err(Refusal::OutOfRange);
    }
    if judged::impossible_frame(h, given) {
        return Err(Refusal::Impossible);
    }
    Ok(receive::matching(d, h, payload))
}

// The arrival number of the message so many behind the oldest, where one waits.
#[tactic(auto, using(base::specs::Pick::picks), unfolding(crate::specs::Numbers::waiting_number))]
fn waiting_number(d: Device, k: u8) -> u64
    ensures { result ≡ waiting_number d k }
{
    if k < d.rx.count {
        d.serials.places[d.rx.place(k as u16)]
    } else {
        0
    }
}

#[tactic(auto, unfolding(crate::specs::Numbers::waiting_numbers))]
fn waiting_numbers(d: Device) -> [u64; 8]
    ensures { result ≡ waiting_numbers d }
{
    array::from_fn(|k| waiting_number(d, k as u8))
}

// The arrival numbers, for the layer above: which of two like messages the next read takes.
#[tactic(auto, using(base::specs::Pick::picks), unfolding(crate::specs::Numbers::numbers))]
pub fn numbers(d: Device) -> Result<Numbers, Refusal>
    ensures { result ≡ numbers d }
{
    if d.proper() {
        Ok(Numbers {
            last: d.serials.last,
            temp: d.serials.temp,
            count: d.rx.count,
            waiting: waiting_numbers(d),
        })
    } else {
        Err(Refusal::OutOfRange)
    }
}

// The four output pins.
#[tactic(auto, unfolding(crate::specs::Pins::pins))]
pub fn pins(d: Device) -> Pins
    ensures { result ≡ pins d }
{
    Pins {
        int: drawn::int(d),
        stat: drawn::stat(d),
        gp1: drawn::gp(d, d.regs.gpine % 16),
        gp2: drawn::gp(d, d.regs.gpine / 16),
    }
}
