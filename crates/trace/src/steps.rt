// The trace of a program, as text.
ghost use Rattle.std.specs.Prelude.{◌≡◌, ◌++◌, ◌+◌, ◌*◌, ◌≤◌, length, get_or};
ghost use Rattle.arrayvec.specs.ArrayString.{array_string_len};
ghost use Rattle.rules.specs.World.{world};
ghost use Rattle.rules.specs.Rows.{bytes_of};
ghost use Rattle.trace.specs.Trace as rule;

use arrayvec::ArrayString;
use rules::{Edition, Machine, Trail};

// The header has 16 bytes, each of 64 steps at most 25, and the last line at most 17.
pub const ROOM: usize = 16 + 64 * 25 + 17;

// The byte at an address, and 0 past the end.
fn byte_at(memory: &[u8], at: usize) -> u8
    ensures { result ≡ get_or memory.now at 0 }
{
    memory.get(at).copied().unwrap_or(0)
}

fn word_at(memory: &[u8], pc: u16) -> u16
    ensures { result ≡ rule.word_at memory.now pc }
{
    let at = usize::from(pc);
    u16::from_be_bytes([byte_at(memory, at), byte_at(memory, at + 1)])
}

// The lines of up to 64 steps, and the last line.
fn put_steps(
    out: &mut ArrayString<{ ROOM }>,
    machine: &mut Machine,
    trail: &mut Trail,
    memory: &mut [u8],
    rows: &mut [u64],
    history: &mut [u8],
)
    requires { array_string_len out.old ≤ 16 }
    ensures { out.new.bytes ≡ out.old.bytes ++ rule.steps_from 64 1 (world machine.old trail.old memory.old (bytes_of rows.old) history.old) }
{
    for n in 1..=64 {
        let pc = machine.pc;
        let op = word_at(memory, pc);
        match chip8::step(machine, trail, memory, rows, history, 0, 0) {
            Ok(_) => line::push_step(out, n, pc, op, machine.i, machine.v[0], machine.v[15]),
            Err(why) => {
                line::push_stop(out, u8::from(why), pc);
                return;
            }
        }
    }
    line::push_stop(out, 0, machine.pc);
}

pub fn trace_of(edition: Edition, end: u16, program: &[u8]) -> ArrayString<{ ROOM }>
    ensures { result.bytes ≡ rule.trace_of edition end program.now }
{
    let mut memory = [0u8; Machine::MEMORY];
    let mut rows = [0u64; Machine::ROWS];
    let mut history = [0u8; history::PLACE];
    let mut out = ArrayString::new();
    line::push_header(&mut out);
    let mut start = chip8::load(edition, end, program, &mut memory, &mut rows, &mut history);
    match start.outcome {
        Ok(()) => {
            put_steps(
                &mut out,
                &mut start.machine,
                &mut start.trail,
                &mut memory,
                &mut rows,
                &mut history,
            );
            out
        }
        Err(why) => {
            line::push_stop(&mut out, u8::from(why), start.machine.pc);
            out
        }
    }
}
