// An example of a caller: a terminal on a forklift. The bus brings scans; INT wakes the terminal, which reads
// messages until RXFMTY and prints each scan. Of `shift` it is proved that what it prints is what arrived.
#![tactic(auto)]

ghost use Rattle.std.specs.Prelude.{◌≡◌, ◌+◌, ◌*◌, ◌/◌, ◌≤◌, length, take};
ghost use Rattle.terminal.specs.Terminal.{scanner, written, asked, switched_on, brought, status_of, scan_read, Reached, Listens, Wakes, Served};

use chip::Device;
use events::Event;
use frame::Header;

// The numbers of standard input and output, which are what `io` reads from and writes to.
const STDIN: i32 = 0;

const STDOUT: i32 = 1;

// Commands of 000's Table 1.
const WRITE_CTRL0: u8 = 0x14;

const WRITE_INTE: u8 = 0x1C;

const READ_MESSAGE: u8 = 0x48;

const READ_INTF: u8 = 0xDE;

const READ_STATF: u8 = 0xE2;

// CTRL0 with MODE 000.
const NORMAL_MODE: u8 = 0x00;

// INTE's bit that lets RXFIFO raise INT.
const RXFIFOIE: u8 = 0x40;

// The scanner's frames: standard, with eight bytes of data.
fn scanner() -> Header
    ensures { result ≡ scanner }
{
    Header {
        id: 0x123,
        extended: false,
        remote: false,
        code: 8,
    }
}

#[derive(Clone, Copy)]
struct Status {
    device: Device,
    // RXFMTY is low: what the register says, of no value beside it.
    waits: bool,
}

// The device after the terminal looked at it, and how much is used of its page, which is lent: nothing here has a heap.
#[derive(Clone, Copy)]
struct Turn {
    device: Device,
    used: usize,
}

fn write(d: Device, command: u8, value: u8) -> Device
    ensures { result ≡ written d command value }
{
    host::transfer(d, &[command, value], &mut []).device
}

// INTF, which reading clears: INT falls. What it says is not asked, and so this is no `read_status`.
fn read_flags(d: Device) -> Device
    ensures { result ≡ asked d 0xDE 1 }
{
    let mut flags = [0u8; 1];
    host::transfer(d, &[READ_INTF], &mut flags).device
}

// INT at each message that is queued, normal mode, and no flag up from before.
fn switched_on() -> Device
    ensures { result ≡ switched_on }
{
    let d = write(Device::fresh(), WRITE_INTE, RXFIFOIE);
    let d = write(d, WRITE_CTRL0, NORMAL_MODE);
    read_flags(d)
}

// The bus brings a scan.
fn bring(d: Device, scan: &[u8]) -> Device
    requires { length scan.now ≡ 8 }
    ensures { result ≡ brought d scan.now }
{
    let mut payload = [0u8; 8];
    payload.copy_from_slice(scan);
    bus::event(d, Event::GoodFrame(scanner(), true, 8), payload).device
}

fn read_status(d: Device) -> Status
    ensures { result ≡ status_of d }
{
    let mut statf = [0u8; 1];
    let device = host::transfer(d, &[READ_STATF], &mut statf).device;
    // RXFMTY is bit 1.
    let waits = !base::is_set(1, statf[0]);
    Status { device, waits }
}

// A message is read, and its scan printed.
fn read(d: Device, line: &mut [u8]) -> Device
    requires { length line.old ≡ 8 }
    ensures device { result ≡ asked d 0x48 14 }
    ensures line { line.new ≡ scan_read d }
{
    let mut message = [0u8; 14];
    let device = host::transfer(d, &[READ_MESSAGE], &mut message).device;
    line.copy_from_slice(&message[6..]);
    device
}

// Everything that waits is read. INTF first, so that a message that comes meanwhile raises INT again.
fn serve(d: Device, page: &mut [u8]) -> Turn
    requires reached { Reached d }
    requires listens { Listens d }
    requires count_in_bounds { 8 * d.rx.count ≤ length page.old }
    ensures { Served d page.old result page.new }
{
    let d = read_flags(d);
    let mut s = read_status(d);
    let mut used = 0;
    // The status says when to stop, and no chunk of the page.
    while s.waits {
        let past = used + 8;
        let e = read(s.device, &mut page[used..past]);
        used = past;
        s = read_status(e);
    }
    Turn {
        device: s.device,
        used,
    }
}

// The terminal sleeps while INT is low.
fn look(d: Device, page: &mut [u8]) -> Turn
    requires reached { Reached d }
    requires listens { Listens d }
    requires wakes { Wakes d }
    requires count_in_bounds { 8 * d.rx.count ≤ length page.old }
    ensures { Served d page.old result page.new }
{
    let pins = bus::pins(d);
    if pins.int {
        serve(d, page)
    } else {
        Turn { device: d, used: 0 }
    }
}

// A shift: scans of eight bytes each. The picker is busy, and the terminal looks up after every third only.
fn shift(scans: &[u8], page: &mut [u8]) -> usize
    requires { length scans.now ≤ length page.old }
    ensures count { result ≡ length scans.now / 8 * 8 }
    ensures printed { take result page.new ≡ take result scans.now }
{
    let mut d = switched_on();
    let mut used: usize = 0;
    for (i, scan) in scans.chunks_exact(8).enumerate() {
        d = bring(d, scan);
        if (i + 1) % 3 == 0 {
            let t = look(d, &mut page[used..]);
            d = t.device;
            used += t.used;
        }
    }
    used + look(d, &mut page[used..]).used
}

fn main() {
    let mut scans = io::buffer();
    let mut page = io::buffer();
    let got = io::read_full(STDIN, &mut scans);
    let used = shift(&scans[..got], &mut page);
    io::write_all(STDOUT, &page[..used]);
}
