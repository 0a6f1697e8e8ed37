// What several steps of the device share: the interrupt flags that rise, an error noted, and the master reset.
#![tactic(auto)]

ghost use Rattle.std.specs.Prelude.{◌≡◌};
ghost use Rattle.flags.specs.Flags.{raised, bus_error};
ghost use Rattle.flags.specs.Reset.{reset};

use chip::{Device, Registers, Serials};

// The interrupt flags that a step raises: bits of a register, so that several rise at once. `raised` and `bus_error`
// take any byte.
pub const RXTMP: u8 = 128;

pub const RXFIFO: u8 = 64;

pub const TXCPLT: u8 = 32;

pub const BUSERR: u8 = 16;

pub const MCHG: u8 = 8;

pub const WAKEUP: u8 = 4;

pub const F1MESS: u8 = 2;

pub const F0MESS: u8 = 1;

// The flags rise; those that are up stay up.
#[tactic(auto, using(base::specs::Pick::picks, base::specs::Pick::judges), unfolding(crate::specs::Flags::raised))]
pub fn raised(d: Device, flags: u8) -> Device
    ensures { result ≡ raised d flags }
{
    let mut e = d;
    e.regs.intf |= flags;
    e
}

// An error on the bus, by its bit in ERR.
#[tactic(auto, using(base::specs::Pick::picks, base::specs::Pick::judges), unfolding(crate::specs::Flags::bus_error))]
pub fn bus_error(d: Device, bit: u8) -> Device
    ensures { result ≡ bus_error d bit }
{
    let mut e = d;
    e.regs.errs |= bit;
    raised(e, BUSERR)
}

// A master reset.
#[tactic(auto, unfolding(crate::specs::Reset::reset))]
pub fn reset(d: Device) -> Device
    ensures { result ≡ reset d }
{
    let fresh = Device::fresh();
    let filters = d.filters;
    let masks = d.masks;
    Device {
        regs: Registers {
            errs: d.regs.errs,
            ..fresh.regs
        },
        counters: d.counters,
        serials: Serials {
            last: d.serials.last,
            ..fresh.serials
        },
        filters,
        masks,
        txenpin: d.txenpin,
        ..fresh
    }
}
