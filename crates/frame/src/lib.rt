// A CAN frame as the HI-3110 lays it out in bytes: the length rule, the identifier's bytes to send, as read and as
// compared, and the sixteen bytes of a message.
#![tactic(auto)]

mod identifier;

ghost use Rattle.std.specs.Prelude.{◌≡◌, get_or};
ghost use Rattle.frame.specs.Length.{data_length};
ghost use Rattle.frame.specs.Tables.{id_from};
ghost use Rattle.frame.specs.Received.{header_in, data_in};

// What a frame says before its data.
#[derive(Clone, Copy, Debug, Default, PartialEq, Eq)]
pub struct Header {
    pub id: u32,
    pub extended: bool,
    pub remote: bool,
    // The length code, kept as it came: 9 to 15 mean eight bytes too.
    pub code: u8,
}

// An identifier's bytes in 0x12: the first two, or all four. An array and its count, since that is what the rule of
// `id_to_send` gives, from which 01's worked numbers are computed: zeros behind the count.
#[derive(Clone, Copy, Debug, PartialEq, Eq)]
pub struct IdBytes {
    pub bytes: [u8; 4],
    pub count: usize,
}

// How many identifiers there are of each kind.
const STANDARD: u32 = 1 << 11;

const EXTENDED: u32 = 1 << 29;

// What the lowest bit of each part of an identifier weighs.
const ID21: u32 = 1 << 21;

const ID18: u32 = 1 << 18;

const ID15: u32 = 1 << 15;

const ID7: u32 = 1 << 7;

// How many data bytes a length code means. No frame has a code above 15; the rule's eight is said of those too. 02, i)
// asks for the comparison as it is, and so it is no `min`.
#[tactic(auto, unfolding(crate::specs::Length::data_length))]
pub fn data_length(code: u8) -> usize
    ensures { result ≡ data_length code }
{
    if code <= 8 { usize::from(code) } else { 8 }
}

impl Header {
    ghost use Rattle.frame.specs.Length.{data_bytes, possible, data_fits, data_of};
    ghost use Rattle.frame.specs.Tables.{id_to_send, id_as_read, compared};
    ghost use Rattle.frame.specs.Received.{received};

    // How many data bytes a frame with this header has.
    #[tactic(auto, unfolding(crate::specs::Length::data_bytes))]
    pub fn data_bytes(self) -> usize
        ensures { result ≡ data_bytes self }
    {
        if self.remote {
            0
        } else {
            data_length(self.code)
        }
    }

    // Whether a frame can have this header at all.
    #[tactic(auto, unfolding(crate::specs::Length::possible))]
    pub fn possible(self) -> bool
        ensures { result ≡ possible self }
    {
        let ids = if self.extended { EXTENDED } else { STANDARD };
        (self.id < ids) & (self.code <= 15)
    }

    // Whether as many data bytes were given as the header asks for.
    #[tactic(auto, unfolding(crate::specs::Length::data_fits))]
    pub fn data_fits(self, given: usize) -> bool
        ensures { result ≡ data_fits self given }
    {
        given == self.data_bytes()
    }

    // A frame's data in eight bytes; those that it lacks are zero.
    #[tactic(auto, using(crate::proofs::Data::copies))]
    fn data_of(self, payload: [u8; 8]) -> [u8; 8]
        ensures { result ≡ data_of self payload }
    {
        let mut data = [0; 8];
        base::put(&payload[..self.data_bytes()], &mut data);
        data
    }

    // Byte k of a frame's data, from 0: filters ask for two, and no copy of all eight.
    fn data_byte(self, payload: [u8; 8], k: usize) -> u8
        ensures { result ≡ get_or (data_of self payload) k 0 }
    {
        if k < self.data_bytes() { payload[k] } else { 0 }
    }

    // The identifier in 0x12: Table 2. For whoever writes a message, a driver or another caller: no crate here calls
    // it, and 01's worked numbers are computed from its definition.
    #[tactic(auto, unfolding(crate::specs::Tables::id_to_send))]
    pub fn id_to_send(self) -> IdBytes
        ensures { result ≡ id_to_send self }
    {
        if self.extended {
            IdBytes {
                bytes: self.laid_out(true, true, self.remote),
                count: 4,
            }
        } else {
            IdBytes {
                bytes: self.laid_out(self.remote, false, false),
                count: 2,
            }
        }
    }

    // The identifier as 0x42 to 0x48 read it: Table 5, bytes 4 to 7.
    #[tactic(auto, unfolding(crate::specs::Tables::id_as_read))]
    pub fn id_as_read(self) -> [u8; 4]
        ensures { result ≡ id_as_read self }
    {
        self.laid_out(self.extended, self.extended, self.remote)
    }

    // What the filters are held against: Table 4a.
    #[tactic(auto, unfolding(crate::specs::Tables::compared))]
    pub fn compared(self, payload: [u8; 8]) -> [u8; 6]
        ensures { result ≡ compared self payload }
    {
        let [a, b, c, d] = self.laid_out(self.remote, self.extended, false);
        let first = self.data_byte(payload, 0);
        let second = self.data_byte(payload, 1);
        [a, b, c, d, first, second]
    }

    // A received message: Table 5, all sixteen bytes.
    pub fn received(self, payload: [u8; 8], time: u16, filhit: u8) -> [u8; 16]
        ensures { result ≡ received self payload time filhit }
    {
        let mut m = [0; 16];
        m[0] = base::flag(self.extended) * 128 + filhit % 8;
        m[1..3].copy_from_slice(&time.to_be_bytes());
        m[3..7].copy_from_slice(&self.id_as_read());
        m[7] = self.code % 16;
        m[8..].copy_from_slice(&self.data_of(payload));
        m
    }
}

// ID28 to ID0 from their four bytes.
pub fn id_from(a: u8, b: u8, c: u8, d: u8) -> u32
    ensures { result ≡ id_from a b c d }
{
    u32::from(a) * ID21
        + u32::from(b >> 5) * ID18
        + u32::from(b % 8) * ID15
        + u32::from(c) * ID7
        + u32::from(d >> 1)
}

// The header read back from a message's bytes.
#[tactic(auto, unfolding(crate::specs::Received::header_in))]
pub fn header_in(m: [u8; 16]) -> Header
    ensures { result ≡ header_in m }
{
    let id = id_from(m[3], m[4], m[5], m[6]);
    let extended = base::is_set(3, m[4]);
    Header {
        id: if extended { id } else { id / ID18 },
        extended,
        remote: base::is_set(0, m[6]),
        code: m[7],
    }
}

// The eight data bytes read back from a message's bytes.
pub fn data_in(m: [u8; 16]) -> [u8; 8]
    ensures { result ≡ data_in m }
{
    let mut eight = [0; 8];
    eight.copy_from_slice(&m[8..]);
    eight
}
