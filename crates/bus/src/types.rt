// What the door gives back: for an event, for the questions of the filters and of the arrival numbers, and the output
// pins.
use chip::Device;
use receive::Arrival;
use refusal::Refusal;

// A refusal, or that the event is done: of a good frame, or of an own message that came back in loopback, with what
// became of it.
pub type Answer = Result<Option<Arrival>, Refusal>;

#[derive(Clone, Copy)]
pub struct Outcome {
    pub device: Device,
    pub answer: Answer,
}

// The arrival numbers.
#[derive(Clone, Copy, Debug, PartialEq, Eq)]
pub struct Numbers {
    // The last that was given.
    pub last: u64,
    // That of the frame in the temporary receive buffer.
    pub temp: u64,
    // How many messages wait, and theirs, oldest first: a read takes the first. Zeros behind them, as the rule has it;
    // nothing here has a heap.
    pub count: u8,
    pub waiting: [u64; 8],
}

#[derive(Clone, Copy, Debug, PartialEq, Eq)]
pub struct Pins {
    pub int: bool,
    pub stat: bool,
    pub gp1: bool,
    pub gp2: bool,
}
