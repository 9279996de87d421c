// What an accepted instruction does, but for a drawing and for one on the state alone: a quiet one, and any other. Nothing can fail here any
// more. An arm that only hands the core back is never asked.
#![tactic(auto)]

ghost use Rattle.std.specs.Prelude.{List, ℕ};
ghost use Rattle.rules.specs.State.{picture_size};
ghost use Rattle.rules.specs.Rows.{bytes_of};
ghost use Rattle.parts.specs.Whole.{whole};
ghost use Rattle.rules.proofs.Good.{Bytes};
ghost use Rattle.act.specs.Accepted.{Accepted};
ghost use Rattle.act.specs.Able.{Able};
ghost use Rattle.act.specs.Became.{acted, Became};

use parts::Core;
use rules::{Machine, Op};

// A quiet instruction, after it was judged and its record kept. It leaves memory and the picture.
pub fn act_quiet(
    op: Op,
    c: Core,
    v: &mut [u8; 16],
    stack: &mut [u16; Machine::STACK],
    memory: &[u8; Machine::MEMORY],
    keys: u16,
) -> Core
    requires { Able op (whole c v.old stack.old) memory.now }
    ensures { (random : ℕ) (picture : List ℕ) → Bytes picture_size picture → Became
        (acted op keys random (whole c v.old stack.old) memory.now picture)
        (whole result v.new stack.new) memory.now picture }
{
    match op {
        Op::Plain(_) => c,
        Op::AwaitKey(x) => registers::awaited(x, keys, c, v),
        Op::Call(a) => registers::idle(registers::called(c, stack, a)),
        Op::Return => registers::idle(registers::returned(c, stack)),
        Op::Clear => c,
        Op::Draw(_, _, _) => registers::idle(registers::put(c, v, 0xF, 0)),
        Op::Decimal(_) => c,
        Op::Store(_) => c,
        Op::Fetch(x) => transfers::fetch(c, v, x, memory),
        Op::Unlisted => c,
        Op::MachineCode => c,
    }
}

// Any other instruction that is no drawing, after it was judged and its record kept. The last two are always refused.
pub fn act(
    op: Op,
    c: Core,
    v: &[u8; 16],
    memory: &mut [u8; Machine::MEMORY],
    rows: &mut [u64; Machine::ROWS],
    dark: usize,
) -> Core
    requires { (stack : List ℕ) → Accepted op (whole c v.now stack) memory.old rows.old dark }
    ensures { (keys random : ℕ) (stack : List ℕ) → Became
        (acted op keys random (whole c v.now stack) memory.old (bytes_of rows.old))
        (whole result v.now stack) memory.new (bytes_of rows.new) }
{
    match op {
        Op::Plain(_) => c,
        Op::AwaitKey(_) => c,
        Op::Call(_) => c,
        Op::Return => c,
        Op::Clear => transfers::clear(c, rows, dark),
        Op::Draw(_, _, _) => c,
        Op::Decimal(x) => transfers::decimal(c, v, x, memory),
        Op::Store(x) => transfers::store(c, v, x, memory),
        Op::Fetch(_) => c,
        Op::Unlisted => c,
        Op::MachineCode => c,
    }
}
