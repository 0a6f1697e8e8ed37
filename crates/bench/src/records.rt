// One record of the list, of which the first byte is its kind, and its results.
use bus::types::Answer;
use events::{ErrorKind, Event};
use frame::Header;
use host::Outcome;
use receive::Arrival;

pub(crate) type Record = [u8; 20];

pub(crate) type Results = [u8; 17];

// The reply buffer that is lent stands in the results, after the number.
pub(crate) fn transfer(o: Outcome, r: &Record, results: &mut Results) -> Outcome {
    let past = 4 + usize::from(r[2]).min(16);
    let lent = 1 + usize::from(r[1]).min(16);
    let p = host::transfer(o.device, &r[4..past], &mut results[1..lent]);
    results[0] = match p.answer {
        Ok(()) => 0,
        Err(refusal) => refusal.number(),
    };
    p
}

fn error_kind(n: u8) -> ErrorKind {
    match n {
        0 => ErrorKind::Stuff,
        1 => ErrorKind::Ack,
        2 => ErrorKind::Crc,
        3 => ErrorKind::Form,
        _ => ErrorKind::Bit,
    }
}

// An identifier, or how many ticks.
fn number(r: &Record) -> u32 {
    u32::from_le_bytes([r[4], r[5], r[6], r[7]])
}

fn good_frame(r: &Record) -> Event {
    let told = r[1];
    let header = Header {
        id: number(r),
        extended: told & 1 != 0,
        remote: told & 2 != 0,
        code: r[2],
    };
    Event::GoodFrame(header, told & 4 != 0, usize::from(r[3]))
}

fn event_of(r: &Record) -> Event {
    match r[0] {
        1 => good_frame(r),
        2 => Event::ReceiveError(error_kind(r[1])),
        3 => Event::DominantBit,
        4 => Event::TransmitError(error_kind(r[1]), r[2] == 1),
        5 => Event::Begun,
        6 => Event::Completed,
        7 => Event::ArbitrationLost,
        8 => Event::ElevenRecessive,
        9 => Event::BusQuiet,
        10 => Event::BusActivity,
        11 => Event::Ticks(u64::from(number(r))),
        12 => Event::TxenPin(r[1] == 1),
        13 => Event::MrPin,
        _ => Event::Unknown,
    }
}

fn said(answer: Answer) -> u8 {
    match answer {
        Ok(None) => 0,
        Ok(Some(Arrival::Queued)) => 16,
        Ok(Some(Arrival::A1)) => 17,
        Ok(Some(Arrival::A2)) => 18,
        Ok(Some(Arrival::A3)) => 19,
        Ok(Some(Arrival::A4)) => 20,
        Ok(Some(Arrival::QueuedOver(_, _))) => 22,
        Err(refusal) => refusal.number(),
    }
}

// The identifier that was overwritten, with the highest bit for an extended one, or 0.
fn lost(answer: Answer) -> u32 {
    match answer {
        Ok(Some(Arrival::QueuedOver(id, true))) => id | 0x8000_0000,
        Ok(Some(Arrival::QueuedOver(id, false))) => id & 0x7FFF_FFFF,
        _ => 0,
    }
}

pub(crate) fn happens(o: Outcome, r: &Record, results: &mut Results) -> Outcome {
    let mut payload = [0; 8];
    payload.copy_from_slice(&r[8..16]);
    let p = bus::event(o.device, event_of(r), payload);
    results[0] = said(p.answer);
    results[1..5].copy_from_slice(&lost(p.answer).to_le_bytes());
    Outcome {
        device: p.device,
        answer: Ok(()),
    }
}
