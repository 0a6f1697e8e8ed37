// A transmission: when it may begin, its start, and each of its ends.
#![tactic(auto)]

ghost use Rattle.std.specs.Prelude.{◌≡◌};
ghost use Rattle.transmit.specs.Transmit.{sends, can_begin, without_tx1m, ctrl1_begun, begun, stopped, disabled};
ghost use Rattle.transmit.specs.Transmit.{aborted, left_alone, cleared, stamped, fifo_after, counted_completion};
ghost use Rattle.transmit.specs.Transmit.{transmitted};

use chip::{ALONE, Device, FIRST_IN_FIFO, IDLE, LOOPBACK, MONITOR, NORMAL, Registers};
use counters::Counters;
use fifo::{Fifo, Message};

#[tactic(auto, using(base::specs::Pick::picks, base::specs::Pick::judges), unfolding(crate::specs::Transmit::sends))]
fn sends(acting: u8) -> bool
    ensures { result ≡ sends acting }
{
    matches!(acting, NORMAL | LOOPBACK)
}

// Whether a message may begin now.
#[tactic(auto, unfolding(crate::specs::Transmit::can_begin))]
pub fn can_begin(d: Device) -> bool
    ensures { result ≡ can_begin d }
{
    (d.sending == IDLE) & !d.tx.is_empty() & d.enabled() & sends(d.acting) & !d.counters.busoff
}

#[tactic(auto, using(base::specs::Pick::picks, base::specs::Pick::judges), unfolding(crate::specs::Transmit::without_tx1m))]
fn without_tx1m(ctrl1: u8) -> u8
    ensures { result ≡ without_tx1m ctrl1 }
{
    ctrl1 / 128 * 128 + ctrl1 % 64
}

#[tactic(auto, using(base::specs::Pick::picks), unfolding(crate::specs::Transmit::ctrl1_begun))]
fn ctrl1_begun(ctrl1: u8) -> u8
    ensures { result ≡ ctrl1_begun ctrl1 }
{
    if chip::osm(ctrl1) {
        without_tx1m(ctrl1)
    } else {
        ctrl1
    }
}

// The first message of the FIFO is copied to the transmit buffer and runs.
#[tactic(auto, unfolding(crate::specs::Transmit::begun))]
pub fn begun(d: Device) -> Device
    ensures { result ≡ begun d }
{
    let mut e = d;
    e.regs.ctrl1 = ctrl1_begun(e.regs.ctrl1);
    e.buffer = e.tx.next();
    e.sending = FIRST_IN_FIFO;
    e
}

// The running message ends unsent: it stays first in the FIFO, and is gone if 0x54 took it out.
#[tactic(auto, using(base::specs::Pick::picks, base::specs::Pick::judges), unfolding(crate::specs::Transmit::stopped))]
pub fn stopped(d: Device) -> Device
    ensures { result ≡ stopped d }
{
    Device { sending: IDLE, ..d }
}

// TXEN and TX1M are CTRL1's two highest bits.
fn disabled(regs: Registers) -> Registers
    ensures { result ≡ disabled regs }
{
    Registers {
        ctrl1: regs.ctrl1 % 64,
        ..regs
    }
}

// 0x52.
#[tactic(auto, unfolding(crate::specs::Transmit::aborted))]
pub fn aborted(d: Device) -> Device
    ensures { result ≡ aborted d }
{
    let mut e = d;
    e.regs = disabled(e.regs);
    stopped(e)
}

#[tactic(auto, using(base::specs::Pick::picks, base::specs::Pick::judges), unfolding(crate::specs::Transmit::left_alone))]
fn left_alone(sending: u8) -> u8
    ensures { result ≡ left_alone sending }
{
    if sending == IDLE { IDLE } else { ALONE }
}

// 0x54.
#[tactic(auto, unfolding(crate::specs::Transmit::cleared))]
pub fn cleared(d: Device) -> Device
    ensures { result ≡ cleared d }
{
    let mut e = d;
    e.regs = disabled(e.regs);
    e.tx = Fifo::empty();
    e.sending = left_alone(e.sending);
    e
}

// A sent message with the time of its completion.
#[tactic(auto, unfolding(crate::specs::Transmit::stamped))]
fn stamped(m: Message, time: u16) -> Message
    ensures { result ≡ stamped m time }
{
    let mut bytes = m.bytes;
    bytes[1..3].copy_from_slice(&time.to_be_bytes());
    Message { bytes }
}

#[tactic(auto, using(base::specs::Pick::picks, base::specs::Pick::judges), unfolding(crate::specs::Transmit::fifo_after))]
fn fifo_after(tx: Fifo, sending: u8) -> Fifo
    ensures { result ≡ fifo_after tx sending }
{
    if sending == FIRST_IN_FIFO {
        tx.take()
    } else {
        tx
    }
}

#[tactic(auto, using(base::specs::Pick::picks, base::specs::Pick::judges), unfolding(crate::specs::Transmit::counted_completion))]
fn counted_completion(c: Counters, acting: u8) -> Counters
    ensures { result ≡ counted_completion c acting }
{
    if acting == MONITOR { c } else { c.completed() }
}

// The running message is sent.
#[tactic(auto, unfolding(crate::specs::Transmit::transmitted))]
pub fn transmitted(d: Device) -> Device
    ensures { result ≡ transmitted d }
{
    let mut e = d;
    e.regs.ctrl1 = without_tx1m(e.regs.ctrl1);
    e.regs.mtag = e.buffer.bytes[0] % 4;
    e.counters = counted_completion(e.counters, e.acting);
    e.tx = fifo_after(e.tx, e.sending);
    e.sending = IDLE;
    e.history = e.history.put(stamped(e.buffer, e.time));
    flags::raised(e, flags::TXCPLT)
}
