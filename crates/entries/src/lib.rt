// What one entry of a run's lists does in a tested world: its ticks, then its step.
#![tactic(auto)]

ghost use Rattle.std.specs.Prelude.{List, ℕ};
ghost use Rattle.rules.specs.Refusal.{done};
ghost use Rattle.rules.specs.World.{world};
ghost use Rattle.rules.specs.Run.{ticked_by, unrefused};
ghost use Rattle.rules.specs.Promise.{Gives};
ghost use Rattle.rules.specs.Rows.{bytes_of};
ghost use Rattle.rules.proofs.Ready.{Ready};
ghost use Rattle.parts.specs.Whole.{whole};
ghost use Rattle.ticking.specs.Tickable.{Tickable};
ghost use Rattle.ways.specs.Steps.{Made, counted};

use parts::Core;
use rules::{Machine, Refusal, Trail};
use ways::Counts;

// So many ticks.
fn ticks_of(
    c: &mut Core,
    v: &[u8; 16],
    stack: &[u16; Machine::STACK],
    trail: &mut Trail,
    history: &mut [u8],
    count: u8,
)
    requires { Tickable (whole c.old v.now stack.now) trail.old history.old }
    ensures { (memory picture : List ℕ) → Gives
        (unrefused
        (ticked_by count (world (whole c.old v.now stack.now) trail.old memory picture history.old)))
        done (whole c.new v.now stack.now) trail.new memory picture history.new }
{
    for _made in 0..count {
        ticking::tick(c, v, stack, trail, history);
    }
}

// One entry: its ticks, then its step. Where the step is refused, its ticks stand.
pub fn entry(
    c: &mut Core,
    v: &mut [u8; 16],
    stack: &mut [u16; Machine::STACK],
    trail: &mut Trail,
    memory: &mut [u8; Machine::MEMORY],
    rows: &mut [u64; Machine::ROWS],
    history: &mut [u8],
    ticks: u8,
    keys: u16,
    random: u8,
) -> Result<Counts, Refusal>
    requires { Ready (world (whole c.old v.old stack.old) trail.old memory.old (bytes_of rows.old) history.old) }
    ensures { Made keys random
        (ticked_by ticks
        (world (whole c.old v.old stack.old) trail.old memory.old (bytes_of rows.old)
        history.old)) result (whole c.new v.new stack.new) trail.new (counted result) memory.new (bytes_of rows.new) history.new }
{
    ticks_of(c, v, stack, trail, history, ticks);
    let stepped = moves::step(*c, v, stack, *trail, memory, rows, history, keys, random)?;
    *c = stepped.core;
    *trail = stepped.trail;
    Ok(stepped.counts)
}
