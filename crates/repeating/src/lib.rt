// A step forward: the action of the record at next is made again with its kept inputs.
#![tactic(auto)]

ghost use Rattle.rules.specs.World.{world};
ghost use Rattle.rules.specs.Call as rule;
ghost use Rattle.rules.specs.Promise.{Gives};
ghost use Rattle.rules.specs.Rows.{bytes_of};
ghost use Rattle.rules.proofs.Ready.{Ready};

use rules::{Machine, Refusal, Trail};

// A step forward in a world that passed the tests 9 and 10. It is the action as a new one, which leaves nothing ahead; only ahead is another
// number then.
fn redo(
    machine: &mut Machine,
    trail: &mut Trail,
    memory: &mut [u8],
    rows: &mut [u64],
    history: &mut [u8],
) -> Result<(), Refusal>
    requires { Ready (world machine.old trail.old memory.old (bytes_of rows.old) history.old) }
    ensures { Gives
        (rule.forward (world machine.old trail.old memory.old (bytes_of rows.old) history.old)) result
        machine.new trail.new memory.new (bytes_of rows.new) history.new }
{
    if trail.ahead == 0 {
        return Err(Refusal::NothingAhead);
    }
    let place = history::place(history, trail.next);
    if !damage::kind_sound(place) {
        return Err(Refusal::Damaged);
    }
    let action = history::action_at(place);
    let fewer = trail.ahead - 1;
    stepping::take(action, machine, trail, memory, rows, history)?;
    trail.ahead = fewer;
    Ok(())
}

// Goes one action forward again, after a step back.
pub fn forward(
    machine: &mut Machine,
    trail: &mut Trail,
    memory: &mut [u8],
    rows: &mut [u64],
    history: &mut [u8],
) -> Result<(), Refusal>
    ensures { Gives
        (rule.forward (world machine.old trail.old memory.old (bytes_of rows.old) history.old)) result
        machine.new trail.new memory.new (bytes_of rows.new) history.new }
{
    judge::admitted(*machine, *trail, memory, rows, history, true)?;
    redo(machine, trail, memory, rows, history)
}
