// What a step of a tested world promises, and three of its four ways: of an instruction on the state alone, of a quiet one, and of any other
// that is no drawing. Each is judged if it can be refused, then its record is kept, then it acts.
#![tactic(auto)]

ghost use Rattle.std.specs.Prelude.{◌≡◌};
ghost use Rattle.rules.specs.World.{world};
ghost use Rattle.rules.specs.Rows.{bytes_of};
ghost use Rattle.parts.specs.Whole.{whole};
ghost use Rattle.rules.specs.Instruction.{decode};
ghost use Rattle.decode.specs.declared.Way.TheVariants as way;
ghost use Rattle.decode.specs.Ways.{way_of};
ghost use Rattle.ways.specs.Steps.{Reached, Steps};

use parts::Core;
use rules::{Action, Machine, Op, Refusal, Trail};

// The number of lit spots that a step darkened, and how many bytes its record keeps.
#[derive(Clone, Copy)]
pub struct Counts {
    pub dark: usize,
    pub copied: usize,
}

// What an accepted step hands back beside what is lent: the core, the history's numbers, and what is counted of it.
#[derive(Clone, Copy)]
pub struct Stepped {
    pub core: Core,
    pub trail: Trail,
    pub counts: Counts,
}

// An instruction that acts on the state alone is never refused, and its record keeps no old bytes. Which one the two bytes are is found after
// the record: so only they are held over it, and what is found leads straight to what it does.
pub fn plain_step(
    hi: u8,
    lo: u8,
    c: Core,
    v: &mut [u8; 16],
    stack: &[u16; Machine::STACK],
    trail: Trail,
    memory: &[u8; Machine::MEMORY],
    rows: &[u64; Machine::ROWS],
    history: &mut [u8],
    keys: u16,
    random: u8,
) -> Result<Stepped, Refusal>
    requires { (way_of (decode c.edition hi lo) ≡ way.Plain) × Reached (decode c.edition hi lo)
        (world (whole c v.old stack.now) trail memory.now (bytes_of rows.now) history.old) }
    ensures { Steps keys random
        (world (whole c v.old stack.now) trail memory.now (bytes_of rows.now)
        history.old) result v.new stack.now memory.now (bytes_of rows.now) history.new }
{
    let places = fitting::places(history);
    keeping::keep_state(history, trail.next, c, v, stack, Action::Step(keys, random));
    let simple = decode::simple_of(hi, lo);
    let core = registers::idle(instructions::simple(simple, c, v, keys, random));
    Ok(Stepped {
        core,
        trail: trail::grown(trail, places),
        counts: Counts { dark: 0, copied: 0 },
    })
}

// A quiet instruction is judged, and its record keeps no old bytes either. It is found anew after the record, for the same reason.
pub fn quiet_step(
    hi: u8,
    lo: u8,
    c: Core,
    v: &mut [u8; 16],
    stack: &mut [u16; Machine::STACK],
    trail: Trail,
    memory: &[u8; Machine::MEMORY],
    rows: &[u64; Machine::ROWS],
    history: &mut [u8],
    keys: u16,
    random: u8,
) -> Result<Stepped, Refusal>
    requires { (way_of (decode c.edition hi lo) ≡ way.Quiet) × Reached (decode c.edition hi lo)
        (world (whole c v.old stack.old) trail memory.now (bytes_of rows.now) history.old) }
    ensures { Steps keys random
        (world (whole c v.old stack.old) trail memory.now (bytes_of rows.now)
        history.old) result v.new stack.new memory.now (bytes_of rows.now) history.new }
{
    let op = decode::quiet_of(hi, lo);
    verdict::judged_quiet(op, c)?;
    let places = fitting::places(history);
    keeping::keep_state(history, trail.next, c, v, stack, Action::Step(keys, random));
    let op = decode::quiet_of(hi, lo);
    let core = act::act_quiet(op, c, v, stack, memory, keys);
    Ok(Stepped {
        core,
        trail: trail::grown(trail, places),
        counts: Counts { dark: 0, copied: 0 },
    })
}

// Any other instruction that is no drawing is judged, its record is kept with the bytes that are about to change, and it acts.
pub fn other_step(
    op: Op,
    c: Core,
    v: &[u8; 16],
    stack: &[u16; Machine::STACK],
    trail: Trail,
    memory: &mut [u8; Machine::MEMORY],
    rows: &mut [u64; Machine::ROWS],
    history: &mut [u8],
    keys: u16,
    random: u8,
) -> Result<Stepped, Refusal>
    requires { (way_of op ≡ way.Other) × Reached op (world (whole c v.now stack.now) trail memory.old (bytes_of rows.old) history.old) }
    ensures { Steps keys random
        (world (whole c v.now stack.now) trail memory.old (bytes_of rows.old)
        history.old) result v.now stack.now memory.new (bytes_of rows.new) history.new }
{
    let dark = verdict::cleared(op, rows);
    verdict::judged(op, c, dark)?;
    let places = fitting::places(history);
    let change = transfers::change_of(op, c, v);
    keeping::keep(
        history,
        trail.next,
        c,
        v,
        stack,
        change,
        Action::Step(keys, random),
    );
    keeping::keep_old(history, trail.next, change, memory, rows);
    let core = act::act(op, c, v, memory, rows, dark);
    Ok(Stepped {
        core,
        trail: trail::grown(trail, places),
        counts: Counts {
            dark: 0,
            copied: fields::count_of(change) as usize,
        },
    })
}
