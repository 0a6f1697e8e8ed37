// The benchmark's program: a list of records in, run through the device as often as it says, the last results out. At
// most 3000 are run; what they and their results mean, bench/work.h tells.
#![tactic(auto)]

mod records;

use chip::Device;
use host::Outcome;
use records::{Record, Results};
use std::io::{Stdout, Write};

// Standard input's number, which is what `io` reads from, all of it in one call; std's `read` gives a part at a time.
const STDIN: i32 = 0;

const MOST: usize = 3000;

// The list once. What a door gave is kept as it came, so that the device is copied nowhere but in the doors.
fn round(d: Device, work: &[Record], results: &mut [Results]) -> Device {
    let mut o = Outcome {
        device: d,
        answer: Ok(()),
    };
    for (record, results) in work.iter().zip(results.iter_mut()) {
        if record[0] == 0 {
            o = records::transfer(o, record, results);
        } else {
            o = records::happens(o, record, results);
        }
    }
    o.device
}

fn run(input: &[u8], output: &mut Stdout) -> std::io::Result<()> {
    let Some((rounds, work)) = input.split_first_chunk::<4>() else {
        return Ok(());
    };
    let (work, _) = work.as_chunks::<20>();
    let work = &work[..work.len().min(MOST)];
    let mut results = [[0; 17]; MOST];
    let mut d = Device::fresh();
    for _ in 0..u32::from_le_bytes(*rounds) {
        d = round(d, work, &mut results);
    }
    output.write_all(results[..work.len()].as_flattened())
}

fn main(rt: HostRuntime) -> std::io::Result<()> {
    let mut input = io::large_buffer();
    let got = io::read_full(STDIN, &mut input);
    run(&input[..got], &mut rt.stdout())
}
