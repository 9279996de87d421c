// A load: what it tests, what it leaves in memory, and the call.
#![tactic(auto)]

ghost use Rattle.std.specs.Prelude.{◌≡◌, ◌≤◌, length};
ghost use Rattle.rules.specs.Refusal.{number};
ghost use Rattle.rules.specs.declared.Edition.{Edition};
ghost use Rattle.rules.specs.State.{fresh};
ghost use Rattle.rules.specs.Load.{load_refusal, loaded_memory, end_of, fresh_trail};
ghost use Rattle.rules.specs.Load as rule;
ghost use Rattle.rules.specs.Promise.{Gives};
ghost use Rattle.rules.specs.Rows.{bytes_of};

use digits::lay_digits;
use parts::Answer;
use rules::{Edition, Machine, Refusal, Trail};

// 9, 10, then 8.
#[tactic(auto, unfolding(rules::specs::Load::load_refusal))]
fn judged(
    end: u16,
    program: &[u8],
    memory: &[u8],
    rows: &[u64],
    history: &[u8],
) -> Result<(), Refusal>
    ensures { number result ≡ load_refusal end program.now memory.now (bytes_of rows.now) history.now }
{
    if !fitting::sizes_fit(memory, rows, history) {
        return Err(Refusal::BufferLength);
    }
    if !soundness::end_sound(end) {
        return Err(Refusal::Unsound);
    }
    let size = program.len();
    if (1 <= size) & (size <= end as usize - Machine::START) {
        return Ok(());
    }
    Err(Refusal::ProgramLength)
}

// The digits, the program at its address, and zeros everywhere else, also above the end.
fn lay_out(program: &[u8], memory: &mut [u8; Machine::MEMORY])
    requires { length program.now ≤ 3584 }
    ensures { memory.new ≡ loaded_memory program.now }
{
    lay_digits(memory);
    memory::clear(memory, digits::SIZE);
    memory::lay(memory, Machine::START, program);
}

// Lays out an accepted program, and clears the picture and the history.
fn lay_all(
    end: u16,
    program: &[u8],
    memory: &mut [u8],
    rows: &mut [u64],
    history: &mut [u8],
) -> Result<(), Refusal>
    ensures { (edition : Edition) → Gives
        (rule.load edition end program.now memory.old (bytes_of rows.old) history.old) result
        (fresh edition (end_of end)) fresh_trail memory.new (bytes_of rows.new) history.new }
{
    judged(end, program, memory, rows, history)?;
    let memory = memory.as_mut_array().unwrap();
    let rows = rows.as_mut_array().unwrap();
    lay_out(program, memory);
    picture::clear(rows);
    memory::clear(history, 0);
    Ok(())
}

// Loads a program for an edition, with an end of memory: digits, program and zeros to memory, zeros to the picture and the history.
pub fn load(
    edition: Edition,
    end: u16,
    program: &[u8],
    memory: &mut [u8],
    rows: &mut [u64],
    history: &mut [u8],
) -> Answer
    ensures { Gives
        (rule.load edition end program.now memory.old (bytes_of rows.old) history.old) result.outcome
        result.machine result.trail memory.new (bytes_of rows.new) history.new }
{
    let outcome = lay_all(end, program, memory, rows, history);
    Answer {
        outcome,
        machine: Machine::fresh(edition, soundness::end_of(end)),
        trail: Trail {
            next: 0,
            kept: 0,
            ahead: 0,
        },
    }
}
