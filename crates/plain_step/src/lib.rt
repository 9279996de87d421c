// A step of the plain engine: the two bytes at PC are looked up in the table, and the line is carried out, or refused. A line that needs
// something is tested for it first, so a step is done whole or not at all: one that is refused hands nothing back, and the machine stays as it
// was.
#![tactic(auto)]

ghost use Rattle.std.specs.Prelude.{◌≡◌, List, ℕ, ◌≤◌, length, Ok};
ghost use Rattle.rules.specs.State.{memory_size, with_wait, with_timers};
ghost use Rattle.rules.specs.Memory.{part};
ghost use Rattle.rules.specs.Picture.{lit_spots};
ghost use Rattle.rules.specs.Refusal.{number};
ghost use Rattle.rules.specs.Registers as state;
ghost use Rattle.rules.specs.Step as rule;
ghost use Rattle.rules.specs.Call as call;
ghost use Rattle.rules.specs.declared.Wait.TheVariants.{Idle};
ghost use Rattle.rules.specs.declared.Op.TheVariants.{Clear, Draw};
ghost use Rattle.plain_step.specs.Does.{board_on, Playable, Leaves, machine_after, own_of, done_by, stepped_to};

use rules::{Machine, Op, Refusal, Simple, Timers};

// The line was carried out. Every line but FX0A ends a wait.
fn done(m: Machine) -> Result<Machine, Refusal>
    ensures { result ≡ Ok (with_wait Idle m) }
{
    Ok(plain_lines::no_wait(m))
}

// ---- the tests that a line may need, where one is more than a comparison

// The n bytes of memory from I on.
fn within_memory(m: Machine, n: usize) -> Result<(), Refusal>
    requires { n ≤ 256 }
    ensures { number result ≡ rule.past m n }
{
    if plain_tests::in_memory(m, n) {
        Ok(())
    } else {
        Err(Refusal::MemoryPastEnd)
    }
}

// The number of lit spots, after a change of the picture.
fn within_range(lit: u16, before: usize, after: usize) -> Result<(), Refusal>
    requires { (before ≤ 2048) × (after ≤ 2048) }
    ensures { (p q : List ℕ) → before ≡ lit_spots p → after ≡ lit_spots q → number result ≡ rule.lit_refusal lit p q }
{
    if plain_tests::stays_in_range(lit, before, after) {
        Ok(())
    } else {
        Err(Refusal::Unsound)
    }
}

// ---- the lines that change the picture

// The N bytes of memory from I on. DXY0 has none, whatever I is.
fn pattern(m: Machine, n: u8, memory: &[u8]) -> &[u8]
    requires { (rule.reach m n ≤ memory_size) × (length memory.now ≡ memory_size) }
    ensures { result.now ≡ part memory.now m.i n }
{
    let at = usize::from(m.i);
    let count = usize::from(n);
    if count == 0 {
        return &memory[0..0];
    }
    &memory[at..at + count]
}

// 00E0
fn erase(m: Machine, memory: &[u8], spots: &mut [u8]) -> Result<Machine, Refusal>
    requires { Playable m memory.now spots.old × (m.pc ≤ 4094) }
    ensures { (keys random : ℕ) → Leaves (own_of Clear (board_on m memory.now spots.old))
        (done_by Clear keys random (board_on m memory.now spots.old)) result (machine_after m result)
        memory.now spots.new }
{
    within_range(m.lit, spots::lit(spots), 0)?;
    done(plain_lines::erase(m, spots))
}

// DXYN
fn show(
    m: Machine,
    x: u8,
    y: u8,
    n: u8,
    memory: &[u8],
    spots: &mut [u8],
) -> Result<Machine, Refusal>
    requires { Playable m memory.now spots.old × (m.pc ≤ 4094) }
    ensures { (keys random : ℕ) → Leaves (own_of (Draw x y n) (board_on m memory.now spots.old))
        (done_by (Draw x y n) keys random (board_on m memory.now spots.old)) result (machine_after m result)
        memory.now spots.new }
{
    within_memory(m, usize::from(n))?;
    let pattern = pattern(m, n, memory);
    let column = usize::from(plain_lines::v(m, x) % 64);
    let row = usize::from(plain_lines::v(m, y) % 32);
    let after = spots::lit_after(spots, pattern, column, row);
    within_range(m.lit, spots::lit(spots), after)?;
    done(plain_lines::show(m, x, y, pattern, spots))
}

// ---- the table, carried out

// A line that needs nothing but the machine itself, and is never refused.
fn simple(line: Simple, m: Machine, keys: u16, random: u8) -> Machine
    requires { m.pc ≤ 4094 }
    ensures { result ≡ state.simple line keys random m }
{
    match line {
        Simple::Jump(mmm) => plain_lines::go_to(m, mmm),
        Simple::JumpFrom(mmm) => plain_lines::go_to_plus_v0(m, mmm),
        Simple::SkipEqual(x, kk) => plain_lines::skip_if_kk(m, x, kk),
        Simple::SkipDiffers(x, kk) => plain_lines::skip_unless_kk(m, x, kk),
        Simple::SkipSame(x, y) => plain_lines::skip_if_vy(m, x, y),
        Simple::SkipOther(x, y) => plain_lines::skip_unless_vy(m, x, y),
        Simple::SkipDown(x) => plain_lines::skip_if_key(m, x, keys),
        Simple::SkipUp(x) => plain_lines::skip_unless_key(m, x, keys),
        Simple::Put(x, kk) => plain_lines::let_kk(m, x, kk),
        Simple::Chance(x, kk) => plain_lines::let_random(m, x, kk, random),
        Simple::Add(x, kk) => plain_lines::add_kk(m, x, kk),
        Simple::Copy(x, y) => plain_lines::let_vy(m, x, y),
        Simple::Or(x, y) => plain_lines::or_vy(m, x, y),
        Simple::And(x, y) => plain_lines::and_vy(m, x, y),
        Simple::Plus(x, y) => plain_lines::add_vy(m, x, y),
        Simple::Minus(x, y) => plain_lines::subtract_vy(m, x, y),
        Simple::Xor(x, y) => plain_lines::xor_vy(m, x, y),
        Simple::Halve(x, y) => plain_lines::halve_vy(m, x, y),
        Simple::MinusFrom(x, y) => plain_lines::subtract_from_vy(m, x, y),
        Simple::Double(x, y) => plain_lines::double_vy(m, x, y),
        Simple::FromDelay(x) => plain_lines::let_timer(m, x),
        Simple::ToDelay(x) => plain_lines::set_timer(m, x),
        Simple::ToTone(x) => plain_lines::set_tone(m, x),
        Simple::Index(mmm) => plain_lines::let_i(m, mmm),
        Simple::AddIndex(x) => plain_lines::add_to_i(m, x),
        Simple::Digit(x) => plain_lines::let_i_digit(m, x),
    }
}

// Any line, tested and carried out.
fn carry_out(
    op: Op,
    m: Machine,
    memory: &mut [u8],
    spots: &mut [u8],
    keys: u16,
    random: u8,
) -> Result<Machine, Refusal>
    requires { Playable m memory.old spots.old × (m.pc ≤ 4094) }
    ensures { Leaves (own_of op (board_on m memory.old spots.old))
        (done_by op keys random (board_on m memory.old spots.old)) result (machine_after m result)
        memory.new spots.new }
{
    match op {
        Op::Plain(line) => done(simple(line, m, keys, random)),
        Op::Call(mmm) => {
            if Machine::STACK <= usize::from(m.depth) {
                return Err(Refusal::StackFull);
            }
            done(plain_lines::do_subroutine(m, mmm))
        }
        Op::Return => {
            if m.depth == 0 {
                return Err(Refusal::StackEmpty);
            }
            done(plain_lines::return_from_subroutine(m))
        }
        Op::AwaitKey(x) => Ok(plain_lines::let_key(m, x, keys)),
        Op::Decimal(x) => {
            within_memory(m, 3)?;
            done(plain_lines::store_decimal(m, x, memory))
        }
        Op::Store(x) => {
            within_memory(m, plain_lines::up_to(x))?;
            done(plain_lines::store(m, x, memory))
        }
        Op::Fetch(x) => {
            within_memory(m, plain_lines::up_to(x))?;
            done(plain_lines::fetch(m, x, memory))
        }
        Op::Clear => erase(m, memory, spots),
        Op::Draw(x, y, n) => show(m, x, y, n, memory, spots),
        Op::Unlisted => Err(Refusal::Unlisted),
        Op::MachineCode => Err(Refusal::MachineCode),
    }
}

// ---- a tick and a step

// A tick of the clock, sixty of them in a second: each timer that is not 0 falls by one.
pub fn tick(m: Machine) -> Machine
    ensures { result ≡ with_timers (call.lowered m.timers) m }
{
    let timers = Timers {
        delay: m.timers.delay.saturating_sub(1),
        tone: m.timers.tone.saturating_sub(1),
    };
    Machine { timers, ..m }
}

// A step: the byte at PC and the one behind it are an instruction.
pub fn step(
    m: Machine,
    memory: &mut [u8],
    spots: &mut [u8],
    keys: u16,
    random: u8,
) -> Result<Machine, Refusal>
    requires { Playable m memory.old spots.old }
    ensures { Leaves (call.step_own (board_on m memory.old spots.old))
        (stepped_to keys random (board_on m memory.old spots.old)) result (machine_after m result)
        memory.new spots.new }
{
    let pc = usize::from(m.pc);
    if usize::from(m.end) - 2 < pc {
        return Err(Refusal::PcPastEnd);
    }
    let op = plain_table::look_up(m.edition, memory[pc], memory[pc + 1]);
    carry_out(op, m, memory, spots, keys, random)
}
