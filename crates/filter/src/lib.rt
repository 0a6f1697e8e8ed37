// The acceptance filters: eight filters and eight masks of six bytes each, against the six bytes that a frame is
// compared by. It knows nothing of frames or of the device.
#![tactic(auto)]

ghost use Rattle.std.specs.Prelude.{◌≡◌};
ghost use Rattle.filter.specs.Match.{agree, bit_from_top, bit_at_place, counted_of, counted, matches};
ghost use Rattle.filter.specs.Hits.{hits, filhit, how_many};
ghost use Rattle.filter.specs.First.{differs_at, first_difference};

// The bits of six bytes, numbered from bit 7 of the first to bit 0 of the sixth.
const PLACES: usize = 48;

// No bit differs that the mask has.
fn byte_agrees(frame: u8, filter: u8, mask: u8) -> bool
    ensures { result ≡ agree 8 (bit_from_top frame) (bit_from_top filter) (bit_from_top mask) }
{
    (frame ^ filter) & mask == 0
}

// A mask without bit 0 of byte 4, which Table 4b doesn't name.
fn counted(mut mask: [u8; 6]) -> [u8; 6]
    ensures { result ≡ counted mask }
{
    mask[3] &= !1;
    mask
}

// The frame's bytes, a filter and its mask stand by themselves, as the banks do.
#[tactic(auto, unfolding(crate::specs::Match::matches))]
pub fn matches(vector: [u8; 6], filter: [u8; 6], mask: [u8; 6]) -> bool
    ensures { result ≡ matches vector filter mask }
{
    let counted = counted(mask);
    vector
        .iter()
        .zip(&filter)
        .zip(&counted)
        .all(|((v, f), m)| byte_agrees(*v, *f, *m))
}

// Which filters match, as one byte: bit k is set exactly if filter k does, so that k is a place and a bit. 01 names the
// banks' form: by value, eight arrays of six bytes.
#[tactic(auto, unfolding(crate::specs::Hits::hits))]
pub fn hits(bank: [[u8; 6]; 8], masks: [[u8; 6]; 8], vector: [u8; 6]) -> u8
    ensures { result ≡ hits bank masks vector }
{
    let mut set = 0;
    for k in 0..8 {
        set |= base::flag(matches(vector, bank[k], masks[k])) << k;
    }
    set
}

// FILHIT3..0 of MESSTAT: the lowest filter of a set.
#[tactic(auto, using(base::specs::Pick::picks), unfolding(crate::specs::Hits::filhit))]
pub fn filhit(hits: u8) -> u8
    ensures { result ≡ filhit hits }
{
    if hits == 0 {
        0
    } else {
        8 + hits.trailing_zeros() as u8
    }
}

// How many filters are in a set.
#[tactic(auto, unfolding(crate::specs::Hits::how_many))]
pub fn how_many(hits: u8) -> u8
    ensures { result ≡ how_many hits }
{
    hits.count_ones() as u8
}

// The bit at a place.
pub fn bit_at(bytes: [u8; 6], place: usize) -> u8
    ensures { result ≡ bit_at_place bytes place }
{
    (base::at(&bytes, place / 8) >> (7 - place % 8)) % 2
}

// A mask's bit at a place, without the bit that doesn't count.
#[tactic(auto, using(crate::proofs::Bytes::counted_place))]
fn counted_at(mask: [u8; 6], place: usize) -> u8
    ensures { result ≡ counted_of mask place }
{
    bit_at(counted(mask), place)
}

fn differs_at(vector: [u8; 6], filter: [u8; 6], mask: [u8; 6], place: usize) -> bool
    ensures { result ≡ differs_at (bit_at_place vector) (bit_at_place filter) (counted_of mask) place }
{
    (counted_at(mask, place) != 0) & (bit_at(vector, place) != bit_at(filter, place))
}

// The first place that counts and differs. In a filter that matches there is none.
#[tactic(auto, unfolding(crate::specs::First::first_difference))]
pub fn first_difference(vector: [u8; 6], filter: [u8; 6], mask: [u8; 6]) -> Option<usize>
    ensures { result ≡ first_difference vector filter mask }
{
    (0..PLACES).find(|&place| differs_at(vector, filter, mask, place))
}
