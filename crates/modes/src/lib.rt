// The modes: how one comes to act.
#![tactic(auto)]

ghost use Rattle.std.specs.Prelude.{◌≡◌};
ghost use Rattle.modes.specs.Modes.{mode_changed, ctrl0_written, can_sleep, bus_quiet, bus_activity};

use chip::{Device, IDLE, MONITOR, SLEEP};

// Another mode acts.
#[tactic(auto, using(base::specs::Pick::picks, base::specs::Pick::judges), unfolding(crate::specs::Modes::mode_changed))]
fn mode_changed(d: Device, mode: u8) -> Device
    ensures { result ≡ mode_changed d mode }
{
    let mut e = d;
    e.acting = mode;
    flags::raised(e, flags::MCHG)
}

// The write of CTRL0, 0x14.
#[tactic(auto, using(base::specs::Pick::picks, base::specs::Pick::judges), unfolding(crate::specs::Modes::ctrl0_written))]
pub fn ctrl0_written(d: Device, value: u8) -> Device
    ensures { result ≡ ctrl0_written d value }
{
    if chip::reset_bit(value) {
        let mut e = flags::reset(d);
        // Initialization mode, and RESET, which stays until the host clears it.
        e.regs.ctrl0 = 0x88;
        return e;
    }
    let named = chip::mode_of(value);
    let mut e = d;
    e.regs.ctrl0 = value;
    if named == SLEEP || named == e.acting {
        e
    } else {
        mode_changed(transmit::stopped(e), named)
    }
}

#[tactic(auto, unfolding(crate::specs::Modes::can_sleep))]
fn can_sleep(d: Device) -> bool
    ensures { result ≡ can_sleep d }
{
    (chip::mode_of(d.regs.ctrl0) == SLEEP)
        & (d.acting != SLEEP)
        & d.tx.is_empty()
        & (d.sending == IDLE)
}

// The bus is quiet: a sleep that waits may begin.
#[tactic(auto, using(base::specs::Pick::picks, base::specs::Pick::judges), unfolding(crate::specs::Modes::bus_quiet))]
pub fn bus_quiet(d: Device) -> Device
    ensures { result ≡ bus_quiet d }
{
    if can_sleep(d) {
        mode_changed(d, SLEEP)
    } else {
        d
    }
}

// Something moves on the bus: with WAKEUP set, a sleeping device wakes into monitor mode.
#[tactic(auto, unfolding(crate::specs::Modes::bus_activity))]
pub fn bus_activity(d: Device) -> Device
    ensures { result ≡ bus_activity d }
{
    if (d.acting == SLEEP) & d.wakeup() {
        let mut e = d;
        // MODE is 010 and the lower bits stay.
        e.regs.ctrl0 = e.regs.ctrl0 % 32 + 64;
        flags::raised(mode_changed(e, MONITOR), flags::WAKEUP)
    } else {
        d
    }
}
