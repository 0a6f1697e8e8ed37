// Whether a transfer is refused, and by which number: the checks in rising order, each a question of its own.
#![tactic(auto)]

ghost use Rattle.std.specs.Prelude.{◌≡◌};
ghost use Rattle.refused.specs.Refused.{length_fits, sets_up, outside_set_up, finds_full, reads_message, finds_none};
ghost use Rattle.refused.specs.Refused.{row_judged, verdict};

use chip::{Device, INITIALIZATION};
use commands::{Row, verb};
use refusal::Refusal;

// 3: the transfer's length, with its command byte, is the command's.
#[tactic(auto, using(base::specs::Pick::picks, base::specs::Pick::judges), unfolding(crate::specs::Refused::length_fits))]
fn length_fits(r: Row, bytes: &[u8]) -> bool
    ensures { result ≡ length_fits r bytes.now }
{
    let given = bytes.len();
    if given < r.least as usize + 1 {
        return false;
    }
    if r.most as usize + 1 < given {
        return false;
    }
    if r.verb == verb::WRITE_MESSAGE {
        return to_send::right_length(&bytes[1..]);
    }
    true
}

#[tactic(auto, using(base::specs::Pick::picks, base::specs::Pick::judges), unfolding(crate::specs::Refused::sets_up))]
fn sets_up(v: u8) -> bool
    ensures { result ≡ sets_up v }
{
    matches!(
        v,
        verb::WRITE_BTR0 | verb::WRITE_BTR1 | verb::WRITE_FILTER | verb::WRITE_MASK
    )
}

// 5: a filter, mask or bit-timing write outside initialization mode.
#[tactic(auto, unfolding(crate::specs::Refused::outside_set_up))]
fn outside_set_up(acting: u8, v: u8) -> bool
    ensures { result ≡ outside_set_up acting v }
{
    (acting != INITIALIZATION) & sets_up(v)
}

// 6: a message is written and eight are in the transmit FIFO.
#[tactic(auto, unfolding(crate::specs::Refused::finds_full))]
fn finds_full(waiting: u8, v: u8) -> bool
    ensures { result ≡ finds_full waiting v }
{
    (v == verb::WRITE_MESSAGE) & fifo::eight_wait(waiting)
}

#[tactic(auto, using(base::specs::Pick::picks, base::specs::Pick::judges), unfolding(crate::specs::Refused::reads_message))]
fn reads_message(v: u8) -> bool
    ensures { result ≡ reads_message v }
{
    matches!(
        v,
        verb::READ_MESSAGE_WITH_TIME
            | verb::READ_MESSAGE
            | verb::READ_DATA_WITH_TIME
            | verb::READ_DATA
    )
}

// 7: a receive FIFO or history read finds none.
#[tactic(auto, using(base::specs::Pick::picks, base::specs::Pick::judges), unfolding(crate::specs::Refused::finds_none))]
fn finds_none(waiting: u8, entries: u8, v: u8) -> bool
    ensures { result ≡ finds_none waiting entries v }
{
    if reads_message(v) {
        fifo::none_waits(waiting)
    } else if v == verb::READ_HISTORY {
        fifo::none_waits(entries)
    } else {
        false
    }
}

// The first number that applies to a command in the table.
#[tactic(auto, using(base::specs::Pick::picks, base::specs::Pick::judges), unfolding(crate::specs::Refused::row_judged))]
fn row_judged(d: Device, r: Row, bytes: &[u8], lent: usize) -> Result<Row, Refusal>
    ensures { result ≡ row_judged d r bytes.now lent }
{
    if !length_fits(r, bytes) {
        return Err(Refusal::WrongLength);
    }
    if lent < r.out as usize {
        return Err(Refusal::ShortBuffer);
    }
    if outside_set_up(d.acting, r.verb) {
        return Err(Refusal::OutsideSetUp);
    }
    if finds_full(d.tx.count, r.verb) {
        return Err(Refusal::FindsFull);
    }
    if finds_none(d.rx.count, d.history.count, r.verb) {
        return Err(Refusal::FindsNone);
    }
    Ok(r)
}

// The command's row, or the first number that applies.
#[tactic(auto, using(base::specs::Pick::picks, base::specs::Pick::judges), unfolding(crate::specs::Refused::verdict))]
pub fn judge(d: Device, bytes: &[u8], lent: usize) -> Result<Row, Refusal>
    ensures { result ≡ verdict d bytes.now lent }
{
    if !d.proper() {
        return Err(Refusal::OutOfRange);
    }
    let &command = bytes.first().ok_or(Refusal::WrongLength)?;
    let row = commands::find(command).ok_or(Refusal::NoCommand)?;
    row_judged(d, row, bytes, lent)
}
