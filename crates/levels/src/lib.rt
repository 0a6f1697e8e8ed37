// What the registers show of the error counters: the levels they have reached, and the counts in bus off.
#![tactic(auto)]

ghost use Rattle.std.specs.Prelude.{◌≡◌};
ghost use Rattle.levels.specs.Levels.{warns, rxerrp, txerrp, errw, errp, level_bits, tec_shown, groups_shown};

use counters::Counters;

fn warns(n: u8) -> bool
    ensures { result ≡ warns n }
{
    (96 <= n) & (n <= 127)
}

#[tactic(auto, unfolding(crate::specs::Levels::rxerrp))]
fn rxerrp(c: Counters) -> bool
    ensures { result ≡ rxerrp c }
{
    128 <= c.rec
}

#[tactic(auto, unfolding(crate::specs::Levels::txerrp))]
fn txerrp(c: Counters) -> bool
    ensures { result ≡ txerrp c }
{
    !c.busoff & (128 <= c.tec)
}

#[tactic(auto, unfolding(crate::specs::Levels::errw))]
pub fn errw(c: Counters) -> bool
    ensures { result ≡ errw c }
{
    warns(c.rec) | (!c.busoff & warns(c.tec))
}

#[tactic(auto, unfolding(crate::specs::Levels::errp))]
pub fn errp(c: Counters) -> bool
    ensures { result ≡ errp c }
{
    rxerrp(c) | txerrp(c)
}

// Bits 7 to 5 of ERR.
#[tactic(auto, unfolding(crate::specs::Levels::level_bits))]
pub fn level_bits(c: Counters) -> u8
    ensures { result ≡ level_bits c }
{
    base::flag(c.busoff) * 128 + base::flag(txerrp(c)) * 64 + base::flag(rxerrp(c)) * 32
}

// What 0xEC reads.
#[tactic(auto, using(base::specs::Pick::picks), unfolding(crate::specs::Levels::tec_shown))]
pub fn tec_shown(c: Counters) -> u8
    ensures { result ≡ tec_shown c }
{
    if c.busoff { 255 } else { c.tec }
}

// What 0xF8 reads.
#[tactic(auto, using(base::specs::Pick::picks), unfolding(crate::specs::Levels::groups_shown))]
pub fn groups_shown(c: Counters) -> u8
    ensures { result ≡ groups_shown c }
{
    if c.busoff { c.groups.min(128) } else { 0 }
}
