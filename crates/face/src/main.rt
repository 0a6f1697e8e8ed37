// A script of transfers and bus events in, one line of answer for each request out, in constant memory. It reads a
// chunk, answers the lines that end in it, writes the answers and reads on. With an argument, as the command `why` has
// it, it explains the script's last frame instead.
#![tactic(auto)]

mod answers;
mod device;
mod explain;
mod held;
mod page;
mod reason;
mod script;
mod text;
mod unreadable;

use answers::Answering;
use explain::Explaining;
use script::Script;
use std::env::{Env, FillError};

// Whether the command has an argument, of any length: the first of them is the program's name.
fn has_argument(rt: &HostRuntime) -> bool {
    !matches!(rt.arg(1, &mut []), Err(FillError::NotPresent))
}

fn main(rt: HostRuntime) -> std::io::Result<()> {
    let mut input = rt.stdin();
    if has_argument(&rt) {
        Script::new(Explaining::new(), rt.stdout()).run(&mut input)
    } else {
        Script::new(Answering::new(), rt.stdout()).run(&mut input)
    }
}
