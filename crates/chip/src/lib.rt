// The HI-3110's state, by value: what both doors read and change.
#![tactic(auto)]

ghost use Rattle.std.specs.Prelude.{◌≡◌};
ghost use Rattle.chip.specs.State.{mode_of, reset_bit, osm, bank};

use counters::Counters;
use fifo::{Fifo, Message};

// The modes that can act. A device holds the number of one and no enum, here and of `sending` below: a state may come
// with any byte there, and `proper` refuses those that no chip has.
pub const NORMAL: u8 = 0;

pub const LOOPBACK: u8 = 1;

pub const MONITOR: u8 = 2;

pub const SLEEP: u8 = 3;

pub const INITIALIZATION: u8 = 4;

// Whether a message runs, and where it stands.
pub const IDLE: u8 = 0;

// The running message is the first in the transmit FIFO.
pub const FIRST_IN_FIFO: u8 = 1;

// 0x54 took the running message out of the FIFO.
pub const ALONE: u8 = 2;

// A filter's or a mask's six bytes.
#[derive(Clone, Copy, Default)]
pub struct Pattern {
    pub bytes: [u8; 6],
}

#[derive(Clone, Copy, Default)]
pub struct Registers {
    pub ctrl0: u8,
    pub ctrl1: u8,
    pub btr0: u8,
    pub btr1: u8,
    pub inte: u8,
    pub statfe: u8,
    pub gpine: u8,
    pub intf: u8,
    // ERR's bits 4 to 0; the upper three are drawn from the counters.
    pub errs: u8,
    // The filters that the latest frame hit, a bit for each: MESSTAT shows the lowest as FILHIT3..0.
    pub hits: u8,
    // MESSTAT's MTAG1..0.
    pub mtag: u8,
}

// The arrival numbers: of the frames that reach the temporary buffer, counted from 1.
#[derive(Clone, Copy)]
pub struct Serials {
    // The last that was given. No reset touches it.
    pub last: u64,
    // That of the frame in the temporary receive buffer; 0 where there is none, which is what 02, g) has it read as.
    pub temp: u64,
    // Those of the messages in the receive FIFO, each at its message's place. Beside the messages and not in them: the
    // two other queues have no numbers, and 0x5A leaves these.
    pub places: [u64; 8],
}

#[derive(Clone, Copy)]
pub struct Device {
    pub regs: Registers,
    pub counters: Counters,
    pub serials: Serials,
    pub filters: [Pattern; 8],
    pub masks: [Pattern; 8],
    pub rx: Fifo,
    // The temporary receive buffer.
    pub temp: Message,
    pub tx: Fifo,
    // The transmit buffer: a copy of the message that runs.
    pub buffer: Message,
    // IDLE, FIRST_IN_FIFO or ALONE.
    pub sending: u8,
    pub history: Fifo,
    pub time: u16,
    pub txenpin: bool,
    // The mode that acts; CTRL0 differs from it while a sleep waits.
    pub acting: u8,
}

// The mode that CTRL0's MODE bits name.
#[tactic(auto, using(base::specs::Pick::picks, base::specs::Pick::judges), unfolding(crate::specs::State::mode_of))]
pub fn mode_of(ctrl0: u8) -> u8
    ensures { result ≡ mode_of ctrl0 }
{
    if ctrl0 < 0x80 {
        ctrl0 / 32
    } else {
        INITIALIZATION
    }
}

// RESET, in a byte that is written to CTRL0.
pub fn reset_bit(ctrl0: u8) -> bool
    ensures { result ≡ reset_bit ctrl0 }
{
    base::is_set(3, ctrl0)
}

// CTRL1's OSM: one-shot mode.
pub fn osm(ctrl1: u8) -> bool
    ensures { result ≡ osm ctrl1 }
{
    base::is_set(5, ctrl1)
}

// Filters or masks as the match takes them.
#[tactic(auto, unfolding(crate::specs::State::bank))]
pub fn bank(patterns: [Pattern; 8]) -> [[u8; 6]; 8]
    ensures { result ≡ bank patterns }
{
    patterns.map(
        |p|
            ensures { result ≡ p.bytes }
        { p.bytes },
    )
}

impl Registers {
    ghost use Rattle.chip.specs.Proper.{registers_in_range};

    #[tactic(auto, unfolding(crate::specs::Proper::registers_in_range))]
    fn in_range(self) -> bool
        ensures { result ≡ registers_in_range self }
    {
        (self.errs <= 31) & (self.mtag <= 3)
    }
}

impl Device {
    ghost use Rattle.chip.specs.State.{fresh, bor, wakeup, txen, tx1m, filton, enabled, spent};
    ghost use Rattle.chip.specs.Proper.{sending_in_range, acting_in_range, proper};

    // The device after power-up.
    #[tactic(auto, unfolding(crate::specs::State::fresh))]
    pub fn fresh() -> Self
        ensures { result ≡ fresh }
    {
        let zeros = Pattern::default();
        let none = Message::default();
        Self {
            regs: Registers {
                ctrl0: 0x80,
                ..Registers::default()
            },
            counters: Counters::default(),
            // In full: with a derive for these too, the proof of the whole is not found.
            serials: Serials {
                last: 0,
                temp: 0,
                places: [0; 8],
            },
            filters: [zeros; 8],
            masks: [zeros; 8],
            rx: Fifo::empty(),
            temp: none,
            tx: Fifo::empty(),
            buffer: none,
            sending: IDLE,
            history: Fifo::empty(),
            time: 0,
            txenpin: false,
            acting: INITIALIZATION,
        }
    }

    // CTRL0's BOR: bus off ends by itself.
    pub fn bor(self) -> bool
        ensures { result ≡ bor self }
    {
        base::is_set(2, self.regs.ctrl0)
    }

    // CTRL0's WAKEUP: activity on the bus ends sleep.
    pub fn wakeup(self) -> bool
        ensures { result ≡ wakeup self }
    {
        base::is_set(4, self.regs.ctrl0)
    }

    fn txen(self) -> bool
        ensures { result ≡ txen self }
    {
        base::is_set(7, self.regs.ctrl1)
    }

    fn tx1m(self) -> bool
        ensures { result ≡ tx1m self }
    {
        base::is_set(6, self.regs.ctrl1)
    }

    // CTRL1's FILTON: frames go through the filters.
    pub fn filton(self) -> bool
        ensures { result ≡ filton self }
    {
        base::is_set(4, self.regs.ctrl1)
    }

    // Whether transmission is enabled: by TXEN, TX1M or the TXEN pin.
    #[tactic(auto, unfolding(crate::specs::State::enabled))]
    pub fn enabled(self) -> bool
        ensures { result ≡ enabled self }
    {
        self.txen() | self.tx1m() | self.txenpin
    }

    // Whether the last arrival number of 64 bits has been given.
    pub fn spent(self) -> bool
        ensures { result ≡ spent self }
    {
        self.serials.last == u64::MAX
    }

    #[tactic(auto, using(base::specs::Pick::picks, base::specs::Pick::judges), unfolding(crate::specs::Proper::sending_in_range))]
    fn sending_in_range(self) -> bool
        ensures { result ≡ sending_in_range self }
    {
        if self.sending == FIRST_IN_FIFO {
            1 <= self.tx.count
        } else {
            self.sending <= ALONE
        }
    }

    #[tactic(auto, using(base::specs::Pick::picks, base::specs::Pick::judges), unfolding(crate::specs::Proper::acting_in_range))]
    fn acting_in_range(self) -> bool
        ensures { result ≡ acting_in_range self }
    {
        let named = mode_of(self.regs.ctrl0);
        if named == SLEEP {
            self.acting <= INITIALIZATION
        } else {
            self.acting == named
        }
    }

    // Whether every count, place and field is one that the chip can have: any other device is refused with 1.
    #[tactic(auto, unfolding(crate::specs::Proper::proper))]
    pub fn proper(self) -> bool
        ensures { result ≡ proper self }
    {
        self.rx.in_range()
            & self.tx.in_range()
            & self.history.in_range()
            & self.regs.in_range()
            & (self.counters.groups <= 128)
            & self.sending_in_range()
            & self.acting_in_range()
    }
}
