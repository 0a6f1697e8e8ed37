// What a command shows: sixteen bytes, of which the reply is the first few.
#![tactic(auto)]

ghost use Rattle.std.specs.Prelude.{◌≡◌, ◌≤◌};
ghost use Rattle.shown.specs.Shown.{padded, cut, register, shows};

use chip::Device;
use commands::verb;
use fifo::Message;

// Sixteen bytes that begin with these.
fn padded(bytes: &[u8]) -> [u8; 16]
    ensures { result ≡ padded bytes.now }
{
    let mut s = [0; 16];
    base::put(bytes, &mut s);
    s
}

// A message's first bytes, then those that follow a place. These begin early at first, by the bytes that are then
// written over their start.
#[tactic(auto, unfolding(crate::specs::Shown::cut))]
fn cut(m: Message, first: usize, from: usize) -> [u8; 16]
    requires { (first ≤ from) × (from ≤ 16) }
    ensures { result ≡ cut m first from }
{
    let mut s = padded(&m.bytes[from - first..]);
    s[..first].copy_from_slice(&m.bytes[..first]);
    s
}

// A register that a single byte shows.
#[tactic(auto, using(base::specs::Pick::picks, base::specs::Pick::judges), unfolding(crate::specs::Shown::register))]
fn register(d: Device, v: u8) -> u8
    ensures { result ≡ register d v }
{
    let c = d.counters;
    match v {
        verb::READ_CTRL0 => d.regs.ctrl0,
        verb::READ_CTRL1 => d.regs.ctrl1,
        verb::READ_BTR0 => d.regs.btr0,
        verb::READ_BTR1 => d.regs.btr1,
        verb::READ_MESSTAT => drawn::messtat(d),
        verb::READ_ERR => drawn::err(d),
        verb::READ_INTF => d.regs.intf,
        verb::READ_STATF => drawn::statf(d),
        verb::READ_INTE => d.regs.inte,
        verb::READ_STATFE => d.regs.statfe,
        verb::READ_GPINE => d.regs.gpine,
        verb::READ_REC => c.rec,
        verb::READ_TEC => levels::tec_shown(c),
        verb::READ_RECESSIVE_COUNT => levels::groups_shown(c),
        _ => 0,
    }
}

#[tactic(auto, using(base::specs::Pick::picks, base::specs::Pick::judges), unfolding(crate::specs::Shown::shows))]
pub fn shows(d: Device, v: u8, k: u8) -> [u8; 16]
    ensures { result ≡ shows d v k }
{
    // By the verb that stands in the command's row: the dispatch that 01 names. The banks are indexed as copies, so
    // that the whole device is none.
    let filters = d.filters;
    let masks = d.masks;
    let place = usize::from(k % 8);
    match v {
        verb::READ_TEMPORARY_WITH_TIME => cut(d.temp, 0, 1),
        verb::READ_TEMPORARY => cut(d.temp, 0, 3),
        verb::READ_MESSAGE_WITH_TIME => cut(d.rx.next(), 0, 0),
        verb::READ_MESSAGE => cut(d.rx.next(), 1, 3),
        verb::READ_DATA_WITH_TIME => cut(d.rx.next(), 3, 8),
        verb::READ_DATA => cut(d.rx.next(), 1, 8),
        verb::READ_FILTER => padded(&filters[place].bytes),
        verb::READ_MASK => padded(&masks[place].bytes),
        verb::READ_HISTORY => cut(d.history.next(), 3, 16),
        verb::READ_TIME => padded(&d.time.to_be_bytes()),
        _ => padded(&[register(d, v)]),
    }
}
