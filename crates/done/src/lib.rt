// What a command does to the device.
#![tactic(auto)]

ghost use Rattle.std.specs.Prelude.{◌≡◌, ◌%◌, set};
ghost use Rattle.done.specs.Done.{pattern, registers_after, message_written, does};

use chip::{Device, Pattern, Registers};
use commands::verb;
use fifo::{Fifo, Message};

// The six bytes that a filter or mask write brings.
#[tactic(auto, using(base::specs::Pick::picks, base::specs::Pick::judges), unfolding(crate::specs::Done::pattern))]
fn pattern(bytes: &[u8]) -> Pattern
    ensures { result ≡ pattern bytes.now }
{
    Pattern {
        bytes: std::array::from_fn(|k| base::at(bytes, k + 1)),
    }
}

// The commands that change a register and nothing else.
#[tactic(auto, using(base::specs::Pick::picks, base::specs::Pick::judges), unfolding(crate::specs::Done::registers_after))]
fn registers_after(r: Registers, v: u8, value: u8) -> Registers
    ensures { result ≡ registers_after r v value }
{
    match v {
        verb::READ_ERR => Registers { errs: 0, ..r },
        verb::READ_INTF => Registers { intf: 0, ..r },
        verb::WRITE_CTRL1 => Registers { ctrl1: value, ..r },
        verb::WRITE_BTR0 => Registers { btr0: value, ..r },
        verb::WRITE_BTR1 => Registers { btr1: value, ..r },
        verb::WRITE_INTE => Registers { inte: value, ..r },
        verb::WRITE_STATFE => Registers { statfe: value, ..r },
        verb::WRITE_GPINE => Registers { gpine: value, ..r },
        _ => r,
    }
}

// 0x12: the message comes last in the transmit FIFO.
#[tactic(auto, using(base::specs::Pick::picks, base::specs::Pick::judges), unfolding(crate::specs::Done::message_written))]
fn message_written(d: Device, bytes: &[u8]) -> Device
    ensures { result ≡ message_written d bytes.now }
{
    if bytes.is_empty() {
        return d;
    }
    let message = to_send::message_of(&bytes[1..]).unwrap_or_default();
    let bytes = message.stored();
    Device {
        tx: d.tx.put(Message { bytes }),
        ..d
    }
}

// A bank of filters or masks with a pattern at its place.
fn with_pattern(bank: [Pattern; 8], k: u8, p: Pattern) -> [Pattern; 8]
    ensures { result ≡ set bank (k % 8) p }
{
    let mut patterns = bank;
    patterns[usize::from(k % 8)] = p;
    patterns
}

// The device after a command, whose bytes are these with the command byte, by the verb that stands in the command's
// row: the dispatch that 01 names.
#[tactic(auto, using(base::specs::Pick::picks, base::specs::Pick::judges), unfolding(crate::specs::Done::does, crate::specs::Done::message_taken, crate::specs::Done::entry_taken, crate::specs::Done::receive_cleared, crate::specs::Done::time_reset, crate::specs::Done::filter_written, crate::specs::Done::mask_written, crate::specs::Done::rec_written, crate::specs::Done::tec_written, crate::specs::Done::register_changed))]
pub fn does(d: Device, v: u8, k: u8, bytes: &[u8]) -> Device
    ensures { result ≡ does d v k bytes.now }
{
    let value = base::at(bytes, 1);
    match v {
        verb::READ_MESSAGE_WITH_TIME
        | verb::READ_MESSAGE
        | verb::READ_DATA_WITH_TIME
        | verb::READ_DATA => Device {
            rx: d.rx.take(),
            ..d
        },
        verb::READ_HISTORY => Device {
            history: d.history.take(),
            ..d
        },
        verb::ABORT_TRANSMISSION => transmit::aborted(d),
        verb::CLEAR_TRANSMIT => transmit::cleared(d),
        verb::MASTER_RESET => flags::reset(d),
        verb::RESET_TIME => Device { time: 0, ..d },
        verb::CLEAR_RECEIVE => Device {
            rx: Fifo::empty(),
            ..d
        },
        verb::WRITE_MESSAGE => message_written(d, bytes),
        verb::WRITE_CTRL0 => modes::ctrl0_written(d, value),
        verb::WRITE_REC => Device {
            counters: d.counters.test_rec(value),
            ..d
        },
        verb::WRITE_TEC => Device {
            counters: d.counters.test_tec(value),
            ..d
        },
        verb::WRITE_FILTER => Device {
            filters: with_pattern(d.filters, k, pattern(bytes)),
            ..d
        },
        verb::WRITE_MASK => Device {
            masks: with_pattern(d.masks, k, pattern(bytes)),
            ..d
        },
        _ => Device {
            regs: registers_after(d.regs, v, value),
            ..d
        },
    }
}
