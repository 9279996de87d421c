// What an instruction changes besides the state, and the instructions that read or change memory or the picture.
#![tactic(auto)]

ghost use Rattle.std.specs.Prelude.{◌≡◌, List, ◌++◌, ℕ, ◌+◌, ◌*◌, ◌%◌, ◌≤◌, ◌<◌, eqb, ltb, length, get_or, take, drop, replicate};
ghost use Rattle.rules.specs.declared.Wait.TheVariants.{Idle};
ghost use Rattle.rules.specs.Number.{pick};
ghost use Rattle.rules.specs.State.{memory_size, picture_size, spot_count, up_to, with_i, with_reg, with_v, with_wait, with_lit};
ghost use Rattle.rules.specs.Registers.{onward};
ghost use Rattle.rules.specs.Memory.{part, over, digits_of};
ghost use Rattle.rules.specs.Picture.{drawn, darkened};
ghost use Rattle.rules.specs.Step.{rows_change, row_bytes, lit_after, lit_refusal, change_of};
ghost use Rattle.rules.specs.Rows.{bytes_of};
ghost use Rattle.parts.specs.Whole.{whole};
ghost use Rattle.lit.specs.Balance.{Balance};
ghost use Rattle.transfers.specs.Within.{Within};

use parts::Core;
use picture::Spots;
use rules::{Change, Machine, Op};

// What an instruction hands back: the core, and how many lit spots went dark.
#[derive(Clone, Copy)]
pub struct Acted {
    pub core: Core,
    pub dark: usize,
}

// ---- where the change lies

// The column that a drawing starts in.
pub fn column_of(v: &[u8; 16], x: u8) -> u8
    ensures { (result ≡ get_or v.now (x % 16) 0 % 64) × (result < 64) }
{
    registers::get(v, x) % 64
}

// The row that a drawing starts in.
pub fn row_of(v: &[u8; 16], y: u8) -> u8
    ensures { (result ≡ get_or v.now (y % 16) 0 % 32) × (result < 32) }
{
    registers::get(v, y) % 32
}

// The whole rows that n pattern bytes reach, from a row on.
pub fn rows_change(n: u8, row: u8) -> Change
    requires { row < 32 }
    ensures { result ≡ rows_change n row }
{
    if n == 0 {
        return Change::Nothing;
    }
    Change::InPicture(8 * u16::from(row), 8 * u16::from(n.min(32 - row)))
}

// What the instruction is about to change besides the state.
#[tactic(auto, unfolding(rules::specs::Step::change_of))]
pub fn change_of(op: Op, c: Core, v: &[u8; 16]) -> Change
    ensures { (stack : List ℕ) → result ≡ change_of op (whole c v.now stack) }
{
    match op {
        Op::Clear => Change::InPicture(0, Machine::PICTURE as u16),
        Op::Draw(_, y, n) => rows_change(n, row_of(v, y)),
        Op::Decimal(_) => Change::InMemory(c.i, 3),
        Op::Store(x) => Change::InMemory(c.i, registers::up_to(x) as u16),
        Op::Plain(_)
        | Op::AwaitKey(_)
        | Op::Call(_)
        | Op::Return
        | Op::Fetch(_)
        | Op::Unlisted
        | Op::MachineCode => Change::Nothing,
    }
}

// ---- the instructions that read or change memory or the picture

// DXYN: the part of memory that holds the pattern. DXY0 has none, whatever I is.
pub fn pattern(i: u16, n: u8, memory: &[u8; Machine::MEMORY]) -> &[u8]
    requires { pick (eqb n 0) 0 (i + n) ≤ memory_size }
    ensures { result.now ≡ part memory.now i n }
{
    if n == 0 {
        return &[];
    }
    let at = usize::from(i);
    &memory[at..at + usize::from(n)]
}

// 00E0, which makes so many lit spots dark.
pub fn clear(c: Core, rows: &mut [u64; Machine::ROWS], dark: usize) -> Core
    requires { (c.pc ≤ 4094) × (lit_refusal c.lit (bytes_of rows.old) (replicate picture_size 0) ≡ 0)
        × (dark ≤ spot_count) × Balance (record { dark = dark; lit = 0 }) (bytes_of rows.old) (replicate picture_size 0) }
    ensures rows_after { bytes_of rows.new ≡ replicate picture_size 0 }
    ensures by_index { (v stack : List ℕ) → whole result v stack ≡ with_lit (lit_after c.lit (bytes_of rows.old) (replicate picture_size 0))
        (with_wait Idle (onward (whole c v stack))) }
{
    picture::clear(rows);
    let lit = lit::counted(c.lit, Spots { dark, lit: 0 });
    registers::light(registers::idle(registers::onward(c)), lit)
}

// DXYN. The drawing is given the pattern alone, and a place for the rows as they were, from `at` on.
pub fn draw(
    c: Core,
    v: &mut [u8; 16],
    column: usize,
    row: usize,
    pattern: &[u8],
    rows: &mut [u64; Machine::ROWS],
    place: &mut [u8],
    at: usize,
) -> Acted
    requires { (c.pc ≤ 4094) × (column < 64) × (row < 32) × (length pattern.now ≤ 16)
        × (lit_refusal c.lit (bytes_of rows.old) (drawn pattern.now column row (bytes_of rows.old)) ≡ 0)
        × (at + 128 ≤ length place.old) }
    ensures rows_after { bytes_of rows.new ≡ drawn pattern.now column row (bytes_of rows.old) }
    ensures by_index { (stack : List ℕ) → whole result.core v.new stack ≡ with_lit
        (lit_after c.lit (bytes_of rows.old) (drawn pattern.now column row (bytes_of rows.old)))
        (with_wait Idle
        (onward
        (with_reg 0xF
        (pick (ltb 0 (darkened pattern.now column row (bytes_of rows.old))) 1 0)
        (whole c v.old stack)))) }
    ensures dark_value { (result.dark ≡ darkened pattern.now column row (bytes_of rows.old))
        × (result.dark ≤ 8 * length pattern.now) }
    ensures place_after { place.new ≡ over place.old at
        (part (bytes_of rows.old) (8 * row) (row_bytes (length pattern.now) row)) (row_bytes (length pattern.now) row) }
{
    let spots = drawing::draw(rows, place, at, pattern, column, row);
    let lit = lit::counted(c.lit, spots);
    let dark = spots.dark;
    let flagged = registers::put(c, v, 0xF, u8::from(0 < dark));
    Acted {
        core: registers::light(registers::idle(flagged), lit),
        dark,
    }
}

// FX33
pub fn decimal(c: Core, v: &[u8; 16], x: u8, memory: &mut [u8; Machine::MEMORY]) -> Core
    requires { Within 3 c memory.old }
    ensures memory_after { memory.new ≡ over memory.old c.i (digits_of (get_or v.now (x % 16) 0)) 3 }
    ensures by_index { (w stack : List ℕ) → whole result w stack ≡ with_wait Idle (onward (whole c w stack)) }
{
    memory::decimal(memory, c.i as usize, registers::get(v, x));
    registers::idle(registers::onward(c))
}

// FX55
pub fn store(c: Core, v: &[u8; 16], x: u8, memory: &mut [u8; Machine::MEMORY]) -> Core
    requires { Within (up_to x) c memory.old }
    ensures memory_after { memory.new ≡ over memory.old c.i (take (up_to x) v.now) (up_to x) }
    ensures by_index { (w stack : List ℕ) → whole result w stack ≡ with_wait Idle (onward (with_i (c.i + up_to x) (whole c w stack))) }
{
    let count = registers::up_to(x);
    memory::store(memory, c.i as usize, v, count);
    registers::idle(registers::point(c, c.i + count as u16))
}

// FX65
pub fn fetch(c: Core, v: &mut [u8; 16], x: u8, memory: &[u8; Machine::MEMORY]) -> Core
    requires { Within (up_to x) c memory.now }
    ensures { (stack : List ℕ) → whole result v.new stack ≡ with_wait Idle
        (onward
        (with_i (c.i + up_to x)
        (with_v (part memory.now c.i (up_to x) ++ drop (up_to x) v.old) (whole c v.old stack)))) }
{
    let count = registers::up_to(x);
    let at = c.i as usize;
    memory::fetch(v, &memory[at..at + count]);
    registers::idle(registers::point(c, c.i + count as u16))
}
