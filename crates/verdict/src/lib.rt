// What an instruction needs: the last refusals that there can be, before anything is written.
#![tactic(auto)]

ghost use Rattle.std.specs.Prelude.{◌≡◌, List, ℕ, ◌≤◌, ◌<◌, length};
ghost use Rattle.rules.specs.declared.Machine as machine;
ghost use Rattle.rules.specs.Number.{or_later};
ghost use Rattle.rules.specs.Refusal.{number};
ghost use Rattle.rules.specs.State.{memory_size, picture_size, spot_count};
ghost use Rattle.rules.specs.Memory.{part};
ghost use Rattle.rules.specs.Picture.{drawn};
ghost use Rattle.rules.specs.Rows.{bytes_of};
ghost use Rattle.rules.specs.Step as rule;
ghost use Rattle.rules.proofs.Good.{Bytes};
ghost use Rattle.parts.specs.Whole.{whole};
ghost use Rattle.lit.specs.Balance.{Balance};
ghost use Rattle.decode.specs.declared.Way.TheVariants as way;
ghost use Rattle.decode.specs.Ways.{way_of};

use parts::Core;
use picture::Spots;
use rules::{Machine, Op, Refusal};

// Whether the n bytes from I on are below the end of memory.
fn past(c: Core, n: usize) -> Result<(), Refusal>
    requires { n ≤ 256 }
    ensures { (v stack : List ℕ) → number result ≡ rule.past (whole c v stack) n }
{
    if n == 0 {
        return Ok(());
    }
    if c.i as usize + n <= c.end as usize {
        return Ok(());
    }
    Err(Refusal::MemoryPastEnd)
}

// Whether the number of lit spots stays in its range in a drawing. One that is further from both ends than the pattern has bits needs no
// look; else what the drawing would turn over is counted, and nothing is written.
fn late_drawing(
    lit: u16,
    column: usize,
    row: usize,
    pattern: &[u8],
    rows: &[u64; Machine::ROWS],
) -> Result<(), Refusal>
    requires { (lit ≤ spot_count) × (column < 64) × (row < 32) × (length pattern.now ≤ 16) }
    ensures { number result ≡ rule.lit_refusal lit (bytes_of rows.now)
        (drawn pattern.now column row (bytes_of rows.now)) }
{
    let most = 8 * pattern.len();
    let number = lit as usize;
    if most <= number && number + most <= Machine::SPOTS {
        return Ok(());
    }
    lit::late(lit, drawing::would_turn(rows, pattern, column, row))
}

// The same of 00E0, which makes so many lit spots dark.
fn late_clearing(lit: u16, dark: usize) -> Result<(), Refusal>
    requires { dark ≤ spot_count }
    ensures { (p q : List ℕ) → Balance (record { dark = dark; lit = 0 }) p q → number result ≡ rule.lit_refusal lit p q }
{
    lit::late(lit, Spots { dark, lit: 0 })
}

// DXYN: 6, then the late 10.
pub fn drawable(
    c: Core,
    column: usize,
    row: usize,
    n: u8,
    memory: &[u8; Machine::MEMORY],
    rows: &[u64; Machine::ROWS],
) -> Result<(), Refusal>
    requires { (c.lit ≤ spot_count) × (c.end ≤ memory_size) × (column < 64) × (row < 32) × (n ≤ 15) }
    ensures { (v stack : List ℕ) → number result ≡ or_later (rule.past (whole c v stack) n)
        (rule.lit_refusal c.lit (bytes_of rows.now)
        (drawn (part memory.now c.i n) column row (bytes_of rows.now))) }
{
    let outcome = past(c, n as usize);
    let Ok(()) = outcome else {
        return outcome;
    };
    late_drawing(c.lit, column, row, transfers::pattern(c.i, n, memory), rows)
}

// What a quiet instruction needs: 4, 5 or 6. It leaves the picture, so no late 10 can come. Of the others it is never asked.
pub fn judged_quiet(op: Op, c: Core) -> Result<(), Refusal>
    requires { (way_of op ≡ way.Quiet) × (c.lit ≤ spot_count) }
    ensures { (v stack memory picture : List ℕ) → Bytes picture_size picture → number result ≡ or_later (rule.refusal_of op (whole c v stack))
        (rule.lit_refusal c.lit picture (rule.picture_after op (whole c v stack) memory picture)) }
{
    match op {
        Op::Plain(_) => Ok(()),
        Op::AwaitKey(_) => Ok(()),
        Op::Call(_) => {
            if (c.depth as usize) < Machine::STACK {
                return Ok(());
            }
            Err(Refusal::StackFull)
        }
        Op::Return => {
            if 0 < c.depth {
                return Ok(());
            }
            Err(Refusal::StackEmpty)
        }
        Op::Clear => Ok(()),
        Op::Draw(_, _, _) => Ok(()),
        Op::Decimal(_) => Ok(()),
        Op::Store(_) => Ok(()),
        Op::Fetch(x) => past(c, registers::up_to(x)),
        Op::Unlisted => Ok(()),
        Op::MachineCode => Ok(()),
    }
}

// How many lit spots any other instruction makes dark that is no drawing: all of them for 00E0, and else none. They are counted once, for
// the judgement and for the act.
pub fn cleared(op: Op, rows: &[u64; Machine::ROWS]) -> usize
    requires { way_of op ≡ way.Other }
    ensures balance { (m : machine.Machine) (memory : List ℕ) → Balance (record { dark = result; lit = 0 }) (bytes_of rows.now)
        (rule.picture_after op m memory (bytes_of rows.now)) }
    ensures upper_bound { result ≤ spot_count }
{
    match op {
        Op::Plain(_) => 0,
        Op::AwaitKey(_) => 0,
        Op::Call(_) => 0,
        Op::Return => 0,
        Op::Clear => picture::count(rows),
        Op::Draw(_, _, _) => 0,
        Op::Decimal(_) => 0,
        Op::Store(_) => 0,
        Op::Fetch(_) => 0,
        Op::Unlisted => 0,
        Op::MachineCode => 0,
    }
}

// What such an instruction needs: 2 or 3, or 6, and after it the late 10, of a number of lit spots that would leave its range. Of those that
// have a way of their own it is never asked.
pub fn judged(op: Op, c: Core, dark: usize) -> Result<(), Refusal>
    requires { (way_of op ≡ way.Other) × (c.lit ≤ spot_count) × (dark ≤ spot_count) }
    ensures { (v stack memory picture : List ℕ) → Balance (record { dark = dark; lit = 0 }) picture
        (rule.picture_after op (whole c v stack) memory picture) → number result ≡ or_later (rule.refusal_of op (whole c v stack))
        (rule.lit_refusal c.lit picture (rule.picture_after op (whole c v stack) memory picture)) }
{
    match op {
        Op::Plain(_) => Ok(()),
        Op::AwaitKey(_) => Ok(()),
        Op::Call(_) => Ok(()),
        Op::Return => Ok(()),
        Op::Clear => late_clearing(c.lit, dark),
        Op::Draw(_, _, _) => Ok(()),
        Op::Decimal(_) => past(c, 3),
        Op::Store(x) => past(c, registers::up_to(x)),
        Op::Fetch(_) => Ok(()),
        Op::Unlisted => Err(Refusal::Unlisted),
        Op::MachineCode => Err(Refusal::MachineCode),
    }
}
