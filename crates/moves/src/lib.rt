// A step of a world that passed the tests 9 and 10: by its instruction it takes one of four ways, which have one promise.
#![tactic(auto)]

ghost use Rattle.rules.specs.World.{world};
ghost use Rattle.rules.specs.Rows.{bytes_of};
ghost use Rattle.rules.proofs.Ready.{Ready};
ghost use Rattle.parts.specs.Whole.{whole};
ghost use Rattle.ways.specs.Steps.{Steps};

use decode::Way;
use parts::Core;
use rules::{Machine, Refusal, Trail};
use ways::Stepped;

// A step, by its instruction. Whichever way it takes, it is judged before anything is written; then its record is kept, and it acts.
pub fn step(
    c: Core,
    v: &mut [u8; 16],
    stack: &mut [u16; Machine::STACK],
    trail: Trail,
    memory: &mut [u8; Machine::MEMORY],
    rows: &mut [u64; Machine::ROWS],
    history: &mut [u8],
    keys: u16,
    random: u8,
) -> Result<Stepped, Refusal>
    requires { Ready (world (whole c v.old stack.old) trail memory.old (bytes_of rows.old) history.old) }
    ensures { Steps keys random
        (world (whole c v.old stack.old) trail memory.old (bytes_of rows.old)
        history.old) result v.new stack.new memory.new (bytes_of rows.new) history.new }
{
    let at = c.pc as usize;
    if c.end as usize - 2 < at {
        return Err(Refusal::PcPastEnd);
    }
    let hi = memory[at];
    let lo = memory[at + 1];
    match decode::way_of(c.edition, hi, lo) {
        Way::Plain => ways::plain_step(
            hi, lo, c, v, stack, trail, memory, rows, history, keys, random,
        ),
        Way::Quiet => ways::quiet_step(
            hi, lo, c, v, stack, trail, memory, rows, history, keys, random,
        ),
        Way::Drawing => drawing_way::drawing_step(
            hi % 16,
            lo / 16,
            lo % 16,
            c,
            v,
            stack,
            trail,
            memory,
            rows,
            history,
            keys,
            random,
        ),
        Way::Other => ways::other_step(
            decode::other_of(hi, lo),
            c,
            v,
            stack,
            trail,
            memory,
            rows,
            history,
            keys,
            random,
        ),
    }
}
