// Reads a program from standard input and writes its trace to standard output. It is loaded for the first edition, and for the second where
// --second is handed in; memory ends at 4,096, and at 1,696, as the 2K profile has it, where --2k is.
#![tactic(auto)]

mod steps;

use rules::{Edition, Machine};
use std::env::Env;
use std::io;

fn edition(rt: &impl Env) -> Edition {
    if options::has_option(rt, b"--second") {
        return Edition::Second;
    }
    Edition::First
}

fn main(rt: HostRuntime) -> io::Result<()> {
    let mut input = [0u8; Machine::TOO_LONG];
    let size = reading::read_full(&mut rt.stdin(), &mut input)?;
    let trace = steps::trace_of(edition(&rt), options::end_of_memory(&rt), &input[..size]);
    // In one write: `print` would cut a long trace in two.
    rt.write_all(trace.as_bytes())
}
