// The device's two doors, for a request of the script: the device is put in its place.
use bus::types::Answer;
use chip::Device;
use events::Event;
use line::Line;
use refusal::Refusal;

// How many bytes a command replies.
fn reply_length(command: u8) -> usize {
    commands::find(command).map_or(0, |row| usize::from(row.out))
}

// Of the buffer so much is lent, and what the command replies comes back.
pub(crate) fn transfer<'a>(
    d: &mut Device,
    line: &Line,
    lent: u8,
    reply: &'a mut [u8; 16],
) -> Result<&'a [u8], Refusal> {
    let given = line.count.min(16);
    let lent = usize::from(lent).min(16);
    let o = host::transfer(*d, &line.bytes[..given], &mut reply[..lent]);
    *d = o.device;
    o.answer?;
    let count = reply_length(line.bytes[0]).min(16);
    Ok(&reply[..count])
}

// A frame's payload is the first eight bytes.
pub(crate) fn payload(line: &Line) -> [u8; 8] {
    let mut payload = [0u8; 8];
    payload.copy_from_slice(&line.bytes[..8]);
    payload
}

pub(crate) fn happens(d: &mut Device, event: Event, line: &Line) -> Answer {
    let o = bus::event(*d, event, payload(line));
    *d = o.device;
    o.answer
}
