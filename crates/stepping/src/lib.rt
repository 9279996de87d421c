// One action: a step, a tick, and whichever of them is named.
#![tactic(auto)]

ghost use Rattle.std.specs.Prelude.{◌≡◌, List, ℕ, ◌≤◌};
ghost use Rattle.rules.specs.World.{world};
ghost use Rattle.rules.specs.Call as rule;
ghost use Rattle.rules.specs.Dark.{step_dark, went_dark};
ghost use Rattle.rules.specs.Promise.{Gives};
ghost use Rattle.rules.specs.Rows.{bytes_of};
ghost use Rattle.stepping.specs.Taken.{taken};

use parts::Core;
use rules::{Action, Machine, Refusal, Trail};

// Executes one instruction, and answers how many lit spots its drawing darkened. A step is a run of one entry without a tick: so its code
// stands in one place, and the compiler puts it into the loop of a run.
pub fn step(
    machine: &mut Machine,
    trail: &mut Trail,
    memory: &mut [u8],
    rows: &mut [u64],
    history: &mut [u8],
    keys: u16,
    random: u8,
) -> Result<usize, Refusal>
    ensures gives { Gives
        (rule.step keys random (world machine.old trail.old memory.old (bytes_of rows.old) history.old))
        result machine.new trail.new memory.new (bytes_of rows.new) history.new }
    ensures dark_value { (went_dark result ≡ step_dark
        (world machine.old trail.old memory.old (bytes_of rows.old) history.old)) × (went_dark result ≤ 120) }
{
    let ran = running::run(
        machine,
        trail,
        memory,
        rows,
        history,
        &[0],
        &[keys],
        &[random],
    );
    ran.outcome?;
    Ok(ran.dark)
}

// Takes one clock tick. It is lent only the history: the promise holds beside any memory and picture.
pub fn tick(machine: &mut Machine, trail: &mut Trail, history: &mut [u8]) -> Result<(), Refusal>
    ensures { (memory picture : List ℕ) → Gives (rule.tick (world machine.old trail.old memory picture history.old))
        result machine.new trail.new memory picture history.new }
{
    let fits = fitting::history_fits(history);
    judge::tested(fits, judge::soundly(*machine, *trail, history))?;
    let mut core = Core::from(*machine);
    let v = machine.v;
    let stack = machine.stack;
    ticking::tick(&mut core, &v, &stack, trail, history);
    *machine = parts::whole(core, v, stack);
    Ok(())
}

// Takes the action that is named, with its inputs.
pub fn take(
    action: Action,
    machine: &mut Machine,
    trail: &mut Trail,
    memory: &mut [u8],
    rows: &mut [u64],
    history: &mut [u8],
) -> Result<(), Refusal>
    ensures { Gives
        (taken action (world machine.old trail.old memory.old (bytes_of rows.old) history.old)) result
        machine.new trail.new memory.new (bytes_of rows.new) history.new }
{
    match action {
        Action::Step(keys, random) => {
            step(machine, trail, memory, rows, history, keys, random)?;
            Ok(())
        }
        Action::Tick => tick(machine, trail, history),
    }
}
