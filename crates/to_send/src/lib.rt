// The message that 0x12 brings after its command byte: Table 2.
#![tactic(auto)]

ghost use Rattle.std.specs.Prelude.{◌≡◌};
ghost use Rattle.base.specs.Bit.{byte};
ghost use Rattle.to_send.specs.ToSend.{is_extended, data_from, code_in, standard_header, extended_header};
ghost use Rattle.to_send.specs.ToSend.{header_to_send, right_length, message_of};

use frame::Header;

// The default is the empty message.
#[derive(Clone, Copy, Debug, Default, PartialEq, Eq)]
pub struct ToSend {
    // Told again in the transmit history.
    pub tag: u8,
    pub header: Header,
    pub bytes: [u8; 8],
}

fn is_extended(s: &[u8]) -> bool
    ensures { result ≡ is_extended s.now }
{
    base::is_set(3, base::at(s, 2))
}

fn data_from(s: &[u8]) -> usize
    ensures { result ≡ data_from s.now }
{
    if is_extended(s) { 6 } else { 4 }
}

// The upper half of the length byte is ignored.
fn code_in(length: u8) -> u8
    ensures { result ≡ code_in length }
{
    length % 16
}

// In these three a byte that isn't there reads as zero: too few have a header as well, so that the length can be asked
// for afterwards.
fn standard_header(s: &[u8]) -> Header
    ensures { result ≡ standard_header (byte s.now 2) (byte s.now 3) (byte s.now 4) }
{
    let b = base::at(s, 2);
    Header {
        id: u32::from(base::at(s, 1)) * 8 + u32::from(b >> 5),
        extended: false,
        remote: base::is_set(4, b),
        code: code_in(base::at(s, 3)),
    }
}

fn extended_header(s: &[u8]) -> Header
    ensures { result ≡ extended_header (byte s.now 2) (byte s.now 3) (byte s.now 4) (byte s.now 5) (byte s.now 6) }
{
    let d = base::at(s, 4);
    Header {
        id: frame::id_from(base::at(s, 1), base::at(s, 2), base::at(s, 3), d),
        extended: true,
        remote: base::is_set(0, d),
        code: code_in(base::at(s, 5)),
    }
}

#[tactic(auto, unfolding(crate::specs::ToSend::header_to_send))]
fn header_to_send(s: &[u8]) -> Header
    ensures { result ≡ header_to_send s.now }
{
    if is_extended(s) {
        extended_header(s)
    } else {
        standard_header(s)
    }
}

// The length has to be the command's for this message, whatever bytes follow its data.
#[tactic(auto, using(crate::proofs::Enough::data_from_le, frame::proofs::Data::data_bytes_le), unfolding(crate::specs::ToSend::right_length))]
pub fn right_length(s: &[u8]) -> bool
    ensures { result ≡ right_length s.now }
{
    let from = data_from(s);
    let least = from + header_to_send(s).data_bytes();
    (least..=from + 8).contains(&s.len())
}

// None where the length is wrong.
#[tactic(auto, unfolding(crate::specs::ToSend::message_of))]
pub fn message_of(s: &[u8]) -> Option<ToSend>
    ensures { result ≡ message_of s.now }
{
    if !right_length(s) {
        return None;
    }
    let tag = base::at(s, 0);
    let header = header_to_send(s);
    let from = data_from(s);
    let mut bytes = [0; 8];
    base::put(&s[from..from + header.data_bytes()], &mut bytes);
    Some(ToSend { tag, header, bytes })
}

impl ToSend {
    ghost use Rattle.to_send.specs.ToSend.{stored};

    // A message to send as the transmit FIFO keeps it: Table 5's layout, with the tag for byte 1 and no time yet.
    #[tactic(auto, unfolding(crate::specs::ToSend::stored, frame::specs::Received::received))]
    pub fn stored(self) -> [u8; 16]
        ensures { result ≡ stored self }
    {
        let mut bytes = self.header.received(self.bytes, 0, 0);
        bytes[0] = self.tag;
        bytes
    }
}
