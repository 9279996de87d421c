// Reads a program from standard input, runs it for 64 steps with no ticks, no keys and random byte 00, as the trace does, and shows what
// the card's glass then shows, in block characters: the game's own picture, and beside it, where --variables is handed in, the page of its
// variables. It is loaded for the second edition, which runs what the first runs and four operations more, or where --first is handed in for
// the first; where --2k is, memory ends at 1,696. The last two lines say how many spots are lit, why it stopped, and where.
#![tactic(auto)]

mod blocks;

use rules::{Edition, Machine, Refusal};
use std::env::Env;
use std::io;
use stepper::Switch;

fn edition(rt: &impl Env) -> Edition {
    if options::has_option(rt, b"--first") {
        return Edition::First;
    }
    Edition::Second
}

// What came of a program that is loaded and run, and the machine after it. A refused load is a run of no step.
fn run(
    edition: Edition,
    end: u16,
    program: &[u8],
    rows: &mut [u64],
) -> (Result<(), Refusal>, Machine) {
    let mut memory = [0u8; Machine::MEMORY];
    let mut history = [0u8; history::PLACE];
    let mut start = chip8::load(edition, end, program, &mut memory, rows, &mut history);
    if start.outcome.is_err() {
        return (start.outcome, start.machine);
    }
    let ran = chip8::run(
        &mut start.machine,
        &mut start.trail,
        &mut memory,
        rows,
        &mut history,
        &[0u8; 64],
        &[0u16; 64],
        &[0u8; 64],
    );
    (ran.outcome, start.machine)
}

// The dots of the glass, of whichever the switch names.
fn glass_of<'a>(switch: Switch, picture: &'a [u8], page: &'a [u8]) -> [u8; 1024] {
    let mut glass = [0u8; 1024];
    // Both lengths fit, so it is filled.
    let _ = panel::panel(stepper::show(switch, picture, page), &mut glass);
    glass
}

fn main(rt: HostRuntime) -> io::Result<()> {
    let mut input = [0u8; Machine::TOO_LONG];
    let size = reading::read_full(&mut rt.stdin(), &mut input)?;
    let mut rows = [0u64; Machine::ROWS];
    let (outcome, machine) = run(
        edition(&rt),
        options::end_of_memory(&rt),
        &input[..size],
        &mut rows,
    );
    let mut picture = [0u8; Machine::PICTURE];
    // Both lengths fit, so they are turned.
    let _ = chip8::to_bytes(&rows, &mut picture);
    let mut page = [0u8; Machine::PICTURE];
    // The length fits, and a state that the library hands back is sound, so the page is drawn.
    let _ = stepper::draw(machine, &mut page);
    let game = glass_of(Switch::Game, &picture, &page);
    let variables = glass_of(Switch::Variables, &picture, &page);
    let beside = options::has_option(&rt, b"--variables").then_some(&variables);
    blocks::write(&rt, &game, beside)?;
    blocks::write_lit(&rt, machine.lit)?;
    blocks::write_stop(&rt, outcome, machine.pc)
}
