// A step back: the last record is read, and what it holds is put back. Nothing is written before the record is known to be whole, and the
// number of lit spots to stay in its range.
#![tactic(auto)]

ghost use Rattle.rules.specs.World.{world, places};
ghost use Rattle.rules.specs.Call as rule;
ghost use Rattle.rules.specs.Promise.{Gives};
ghost use Rattle.rules.specs.Rows.{bytes_of};
ghost use Rattle.rules.proofs.Ready.{Ready};

use rules::{Machine, Refusal, Trail};

// A step back in a world that passed the tests 9 and 10.
fn undo(
    machine: &mut Machine,
    trail: &mut Trail,
    memory: &mut [u8; Machine::MEMORY],
    rows: &mut [u64; Machine::ROWS],
    history: &[u8],
) -> Result<(), Refusal>
    requires { Ready (world machine.old trail.old memory.old (bytes_of rows.old) history.now) }
    ensures { Gives
        (rule.back (world machine.old trail.old memory.old (bytes_of rows.old) history.now)) result
        machine.new trail.new memory.new (bytes_of rows.new) history.now }
{
    if trail.kept == 0 {
        return Err(Refusal::NothingKept);
    }
    let last = trail::place_before(trail.next, fitting::places(history));
    let place = history::place(history, last);
    let Some(old) = history::read(place, *machine) else {
        return Err(Refusal::Damaged);
    };
    let spots = putting_back::would_put_back(old.change, place, rows);
    lit::late(machine.lit, spots)?;
    putting_back::put_back(old.change, place, memory, rows);
    *machine = Machine {
        lit: lit::counted(machine.lit, spots),
        ..old.machine
    };
    *trail = Trail {
        next: last,
        kept: trail.kept - 1,
        ahead: trail.ahead + 1,
    };
    Ok(())
}

// Goes one action back.
pub fn back(
    machine: &mut Machine,
    trail: &mut Trail,
    memory: &mut [u8],
    rows: &mut [u64],
    history: &[u8],
) -> Result<(), Refusal>
    ensures { Gives
        (rule.back (world machine.old trail.old memory.old (bytes_of rows.old) history.now)) result
        machine.new trail.new memory.new (bytes_of rows.new) history.now }
{
    judge::admitted(*machine, *trail, memory, rows, history, true)?;
    let memory = memory.as_mut_array().unwrap();
    let rows = rows.as_mut_array().unwrap();
    undo(machine, trail, memory, rows, history)
}
