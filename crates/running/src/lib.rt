// A run, entry by entry. The variables, the stack, the rest of the state and the numbers are locals of the run, lent to each entry, so a step
// copies neither the variables nor the stack.
#![tactic(auto)]

ghost use Rattle.std.specs.Prelude.{◌≡◌, true, ◌+◌, ◌*◌, ◌^◌, ◌≤◌, ◌<◌};
ghost use Rattle.rules.specs.World.{world};
ghost use Rattle.rules.specs.Run.{run_from, total_from, lists_fit};
ghost use Rattle.rules.specs.Run as runs;
ghost use Rattle.rules.specs.Dark.{step_dark, run_dark};
ghost use Rattle.rules.specs.Copied.{step_copied, run_copied};
ghost use Rattle.rules.specs.Promise.{GivesRun};
ghost use Rattle.rules.specs.Rows.{bytes_of};
ghost use Rattle.rules.proofs.Ready.{Ready};
ghost use Rattle.parts.specs.Whole.{whole};

use parts::{Core, Ran};
use rules::{Machine, Refusal, Trail};

// A run whose entry `accepted` is refused answers what the entries before it came to.
fn stopped(accepted: usize, dark: usize, copied: usize, outcome: Result<(), Refusal>) -> Ran
    ensures { result ≡ record { accepted = accepted; dark = dark; copied = copied; outcome = outcome } }
{
    Ran {
        accepted,
        dark,
        copied,
        outcome,
    }
}

// Every entry, up to the first that is refused.
fn run_entries(
    c: &mut Core,
    v: &mut [u8; 16],
    stack: &mut [u16; Machine::STACK],
    trail: &mut Trail,
    memory: &mut [u8; Machine::MEMORY],
    rows: &mut [u64; Machine::ROWS],
    history: &mut [u8],
    ticks: &[u8],
    keys: &[u16],
    randoms: &[u8],
) -> Ran
    requires ready { Ready (world (whole c.old v.old stack.old) trail.old memory.old (bytes_of rows.old) history.old) }
    requires lists { lists_fit ticks.now keys.now randoms.now ≡ true }
    ensures gives_run { GivesRun
        (run_from 0 ticks.now keys.now randoms.now
        (world (whole c.old v.old stack.old) trail.old memory.old (bytes_of rows.old) history.old)) result.accepted result.outcome
        (whole c.new v.new stack.new) trail.new memory.new (bytes_of rows.new) history.new }
    ensures dark_value { (result.dark ≡ total_from step_dark ticks.now keys.now randoms.now
        (world (whole c.old v.old stack.old) trail.old memory.old (bytes_of rows.old) history.old))
        × (result.dark ≤ 120 * result.accepted) × (result.copied ≡ total_from step_copied ticks.now keys.now
        randoms.now (world (whole c.old v.old stack.old) trail.old memory.old (bytes_of rows.old) history.old))
        × (result.copied ≤ 256 * result.accepted) }
{
    let mut dark = 0;
    let mut copied = 0;
    for i in 0..ticks.len() {
        let made = entries::entry(
            c, v, stack, trail, memory, rows, history, ticks[i], keys[i], randoms[i],
        );
        let Ok(counts) = made else {
            return stopped(i, dark, copied, made.map(|_counts| ()));
        };
        // Most steps copy nothing, and one that copies nothing adds nothing to either sum. The test stands here and not in a function: so the
        // compiler leaves the sums out of a step that is known to copy nothing.
        if counts.copied == 0 {
            continue;
        }
        copied += counts.copied;
        dark += counts.dark;
    }
    Ran {
        accepted: ticks.len(),
        dark,
        copied,
        outcome: Ok(()),
    }
}

// A run of a world that passed the tests 9 and 10.
fn run_ready(
    machine: &mut Machine,
    trail: &mut Trail,
    memory: &mut [u8; Machine::MEMORY],
    rows: &mut [u64; Machine::ROWS],
    history: &mut [u8],
    ticks: &[u8],
    keys: &[u16],
    randoms: &[u8],
) -> Ran
    requires ready { Ready (world machine.old trail.old memory.old (bytes_of rows.old) history.old) }
    requires randoms_value { lists_fit ticks.now keys.now randoms.now ≡ true }
    ensures gives_run { GivesRun
        (run_from 0 ticks.now keys.now randoms.now
        (world machine.old trail.old memory.old (bytes_of rows.old) history.old)) result.accepted result.outcome
        machine.new trail.new memory.new (bytes_of rows.new) history.new }
    ensures dark_value { (result.dark ≡ total_from step_dark ticks.now keys.now randoms.now
        (world machine.old trail.old memory.old (bytes_of rows.old) history.old))
        × (result.dark ≤ 120 * result.accepted) × (result.copied ≡ total_from step_copied ticks.now keys.now
        randoms.now (world machine.old trail.old memory.old (bytes_of rows.old) history.old))
        × (result.copied ≤ 256 * result.accepted) }
{
    let mut v = machine.v;
    let mut stack = machine.stack;
    let mut c = Core::from(*machine);
    let mut t = *trail;
    let ran = run_entries(
        &mut c, &mut v, &mut stack, &mut t, memory, rows, history, ticks, keys, randoms,
    );
    *machine = parts::whole(c, v, stack);
    *trail = t;
    ran
}

// For each entry makes the ticks, then a step, up to the first step that is refused.
pub fn run(
    machine: &mut Machine,
    trail: &mut Trail,
    memory: &mut [u8],
    rows: &mut [u64],
    history: &mut [u8],
    ticks: &[u8],
    keys: &[u16],
    randoms: &[u8],
) -> Ran
    ensures gives_run { GivesRun
        (runs.run ticks.now keys.now randoms.now
        (world machine.old trail.old memory.old (bytes_of rows.old) history.old)) result.accepted result.outcome
        machine.new trail.new memory.new (bytes_of rows.new) history.new }
    ensures dark_value { (result.dark ≡ run_dark ticks.now keys.now randoms.now
        (world machine.old trail.old memory.old (bytes_of rows.old) history.old))
        × (result.dark ≤ 120 * result.accepted) × (result.copied ≡ run_copied ticks.now keys.now randoms.now
        (world machine.old trail.old memory.old (bytes_of rows.old) history.old))
        × (result.copied ≤ 256 * result.accepted) }
{
    let lists = fitting::lists_fit(ticks.len(), keys.len(), randoms.len());
    if let Err(why) = judge::admitted(*machine, *trail, memory, rows, history, lists) {
        return stopped(0, 0, 0, Err(why));
    }
    let memory = memory.as_mut_array().unwrap();
    let rows = rows.as_mut_array().unwrap();
    run_ready(machine, trail, memory, rows, history, ticks, keys, randoms)
}
