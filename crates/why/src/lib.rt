// Why a frame would not arrive: what the device would answer and, where no filter matches, the first place at which
// each differs from the frame. Nothing is changed.
#![tactic(auto)]

ghost use Rattle.std.specs.Prelude.{◌≡◌};
ghost use Rattle.why.specs.Why.{first_place, places, no_filter, explained};
ghost use Rattle.why.specs.Fields.{field_of, field_at};

use bus::types::Answer;
use chip::Device;
use events::Event;
use frame::Header;
use receive::Arrival;
use std::array;

// A bit of a filter's six bytes: byte from 1 on, bit from 7 down to 0, as Table 4a counts them.
#[derive(Clone, Copy, Debug, PartialEq, Eq)]
pub struct Place {
    pub byte: u8,
    pub bit: u8,
    // The filter's bit there.
    pub wanted: u8,
    // The frame's.
    pub came: u8,
}

#[derive(Clone, Copy, Debug, PartialEq, Eq)]
pub struct Why {
    // What `bus::event` would answer.
    pub answer: Answer,
    // For A4 the first counted bit that differs, by rising filter.
    pub places: [Option<Place>; 8],
}

// What stands at a place of Table 4a.
#[derive(Clone, Copy, Debug, PartialEq, Eq)]
pub enum Field {
    // ID28 to ID0, by its number.
    Id(u8),
    Rtr,
    Ide,
    // Data byte 1 or 2.
    Data(u8),
    Unnamed,
}

// The first counted bit at which a filter differs.
#[tactic(auto, using(base::specs::Pick::picks), unfolding(crate::specs::Why::first_place))]
fn first_place(vector: [u8; 6], filter: [u8; 6], mask: [u8; 6]) -> Option<Place>
    ensures { result ≡ first_place vector filter mask }
{
    let place = filter::first_difference(vector, filter, mask)?;
    Some(Place {
        byte: (place / 8 + 1) as u8,
        bit: (7 - place % 8) as u8,
        wanted: filter::bit_at(filter, place),
        came: filter::bit_at(vector, place),
    })
}

#[tactic(auto, unfolding(crate::specs::Why::places))]
fn places(d: Device, h: Header, payload: [u8; 8]) -> [Option<Place>; 8]
    ensures { result ≡ places d h payload }
{
    let filters = chip::bank(d.filters);
    let masks = chip::bank(d.masks);
    let vector = h.compared(payload);
    array::from_fn(|k| first_place(vector, filters[k], masks[k]))
}

// Whether the filters are the reason.
#[tactic(auto, unfolding(crate::specs::Why::no_filter, crate::specs::Why::is_a4))]
fn no_filter(answer: Answer) -> bool
    ensures { result ≡ no_filter answer }
{
    matches!(answer, Ok(Some(Arrival::A4)))
}

// What a good frame would be answered, and why no filter lets it pass.
#[tactic(auto, unfolding(crate::specs::Why::explained))]
pub fn explained(d: Device, h: Header, acknowledged: bool, given: usize, payload: [u8; 8]) -> Why
    ensures { result ≡ explained d h acknowledged given payload }
{
    let answer = bus::answer(d, Event::GoodFrame(h, acknowledged, given), payload);
    let places = if no_filter(answer) {
        places(d, h, payload)
    } else {
        [None; 8]
    };
    Why { answer, places }
}

// Table 4a, by the number of a place from bit 7 of byte 1 on.
#[tactic(auto, using(base::specs::Pick::picks), unfolding(crate::specs::Fields::field_of))]
fn field_of(place: u8) -> Field
    ensures { result ≡ field_of place }
{
    match place {
        0..=10 => Field::Id(28 - place),
        11 => Field::Rtr,
        12 => Field::Ide,
        13..=30 => Field::Id(30 - place),
        31 => Field::Unnamed,
        32..=39 => Field::Data(1),
        _ => Field::Data(2),
    }
}

// The field of a frame that stands at a place.
#[tactic(auto, using(base::specs::Pick::picks), unfolding(crate::specs::Fields::field_at))]
pub fn field_at(byte: u8, bit: u8) -> Field
    ensures { result ≡ field_at byte bit }
{
    match (byte, bit) {
        (1..=6, 0..=7) => field_of(byte * 8 - 1 - bit),
        _ => Field::Unnamed,
    }
}
