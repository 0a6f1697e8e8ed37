// What the registers and pins show of the device, drawn anew at each look.
#![tactic(auto)]

ghost use Rattle.std.specs.Prelude.{◌≡◌};
ghost use Rattle.drawn.specs.Drawn.{statf, err, tstat, messtat, share, int, stat, gp};

use chip::{Device, IDLE};

// The status flag register.
#[tactic(auto, unfolding(crate::specs::Drawn::statf))]
pub fn statf(d: Device) -> u8
    ensures { result ≡ statf d }
{
    let c = d.counters;
    base::flag(d.tx.is_empty()) * 128
        + base::flag(d.tx.full()) * 64
        + base::flag(d.history.full()) * 32
        + base::flag(levels::errw(c)) * 16
        + base::flag(levels::errp(c)) * 8
        + base::flag(c.busoff) * 4
        + base::flag(d.rx.is_empty()) * 2
        + base::flag(d.rx.full())
}

// The error register.
#[tactic(auto, unfolding(crate::specs::Drawn::err))]
pub fn err(d: Device) -> u8
    ensures { result ≡ err d }
{
    levels::level_bits(d.counters) + d.regs.errs % 32
}

#[tactic(auto, using(base::specs::Pick::picks, base::specs::Pick::judges), unfolding(crate::specs::Drawn::tstat))]
fn tstat(d: Device) -> u8
    ensures { result ≡ tstat d }
{
    if d.sending != IDLE {
        3
    } else if !d.enabled() {
        0
    } else if d.tx.is_empty() {
        1
    } else {
        2
    }
}

// The message status register.
#[tactic(auto, unfolding(crate::specs::Drawn::messtat))]
pub fn messtat(d: Device) -> u8
    ensures { result ≡ messtat d }
{
    filter::filhit(d.regs.hits) * 16 + d.regs.mtag % 4 * 4 + tstat(d)
}

// Whether two bytes share a set bit.
fn share(a: u8, b: u8) -> bool
    ensures { result ≡ share a b }
{
    a & b != 0
}

// The INT pin.
#[tactic(auto, using(base::specs::Pick::picks, base::specs::Pick::judges), unfolding(crate::specs::Drawn::int))]
pub fn int(d: Device) -> bool
    ensures { result ≡ int d }
{
    share(d.regs.intf, d.regs.inte)
}

// The STAT pin.
#[tactic(auto, unfolding(crate::specs::Drawn::stat))]
pub fn stat(d: Device) -> bool
    ensures { result ≡ stat d }
{
    share(statf(d), d.regs.statfe)
}

// A general purpose pin, for the half of GPINE that picks its flag.
#[tactic(auto, using(base::specs::Pick::picks, base::specs::Pick::judges), unfolding(crate::specs::Drawn::gp))]
pub fn gp(d: Device, half: u8) -> bool
    ensures { result ≡ gp d half }
{
    let flag = half % 16;
    if flag < 8 {
        base::is_set(flag, d.regs.intf)
    } else {
        base::is_set(flag - 8, statf(d))
    }
}
