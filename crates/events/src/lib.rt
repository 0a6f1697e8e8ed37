// The events of the bus, each kind with its own particulars. A good frame's payload goes beside it.
#![tactic(auto)]

use frame::Header;

// What went wrong on the bus, by its bit in ERR: 0 to 4.
#[derive(Clone, Copy, Debug, PartialEq, Eq)]
pub enum ErrorKind {
    Stuff = 1,
    Ack = 2,
    Crc = 4,
    Form = 8,
    Bit = 16,
}

#[derive(Clone, Copy, Debug, PartialEq, Eq)]
pub enum Event {
    // The header, whether another node acknowledged it, and how many of the payload's bytes were given.
    GoodFrame(Header, bool, usize),
    ReceiveError(ErrorKind),
    // After our error flag.
    DominantBit,
    // The kind, and whether CAN 2.0B counts it.
    TransmitError(ErrorKind, bool),
    Begun,
    Completed,
    ArbitrationLost,
    ElevenRecessive,
    BusQuiet,
    BusActivity,
    Ticks(u64),
    TxenPin(bool),
    // The MR pin: one reset.
    MrPin,
    // An event that came in as numbers, of no kind that there is.
    Unknown,
}
