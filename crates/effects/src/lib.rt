// What an instruction on the state alone writes, as a value: found for each kind of instruction from the numbers that it reads, and written.
#![tactic(auto)]

ghost use Rattle.std.specs.Prelude.{◌≡◌, ℕ, ◌+◌, ◌-◌, ◌*◌, ◌/◌, ◌%◌, ◌≤◌, List, nat_le, nat_lt};
ghost use Rattle.rules.specs.Number.{pick, is_one};
ghost use Rattle.rules.specs.State.{with_pc, with_timers};
ghost use Rattle.rules.specs.Registers as state;
ghost use Rattle.parts.specs.Whole.{whole};
ghost use Rattle.effects.specs.declared.Effect.TheVariants.{Next, Flagged};
ghost use Rattle.effects.specs.Written.{written};

use parts::Core;
use rules::Timers;

// What an instruction writes: PC alone; or a result to VX, a result and a flag, I, or the timers, and then PC goes on.
#[derive(Clone, Copy)]
pub enum Effect {
    Next(u16),
    Result(u8, u8),
    Flagged(u8, u8, u8),
    Index(u16),
    Clock(u8, u8),
}

// ---- the effect, found

// PC grows by one number where the test holds, and else by the other.
pub fn skip(pc: u16, test: bool, yes: u16, no: u16) -> Effect
    requires { (pc ≤ 4094) × (yes ≤ 4) × (no ≤ 4) }
    ensures { result ≡ Next (pc + pick test yes no) }
{
    Effect::Next(pc + if test { yes } else { no })
}

// 8XY4
pub fn plus(x: u8, a: u8, b: u8) -> Effect
    ensures { result ≡ Flagged x ((a + b) % 256) (pick (nat_lt 255 (a + b)) 1 0) }
{
    let (sum, carry) = a.overflowing_add(b);
    Effect::Flagged(x, sum, u8::from(carry))
}

// 8XY5, and 8XY7 with the registers exchanged
pub fn minus(x: u8, a: u8, b: u8) -> Effect
    ensures { result ≡ Flagged x ((a + 256 - b) % 256) (pick (nat_le b a) 1 0) }
{
    Effect::Flagged(x, a.wrapping_sub(b), u8::from(b <= a))
}

// 8XY6
pub fn halved(x: u8, b: u8) -> Effect
    ensures { result ≡ Flagged x (b / 2) (pick (is_one 0 b) 1 0) }
{
    Effect::Flagged(x, b / 2, u8::from(b % 2 == 1))
}

// 8XYE
pub fn doubled(x: u8, b: u8) -> Effect
    ensures { result ≡ Flagged x (2 * b % 256) (pick (is_one 7 b) 1 0) }
{
    Effect::Flagged(x, b.wrapping_mul(2), u8::from(b / 128 % 2 == 1))
}

// ---- the effect, written

fn jump(mut c: Core, a: u16) -> Core
    ensures { (v stack : List ℕ) → whole result v stack ≡ with_pc a (whole c v stack) }
{
    c.pc = a;
    c
}

// The timers are set, and PC goes on.
fn set_timers(mut c: Core, delay: u8, tone: u8) -> Core
    requires { c.pc ≤ 4094 }
    ensures { (v stack : List ℕ) → whole result v stack ≡ state.onward
        (with_timers (record { delay = delay; tone = tone }) (whole c v stack)) }
{
    c.timers = Timers { delay, tone };
    c.pc += 2;
    c
}

// The effect, on a core that is handed back and on the variables that are lent.
pub fn write(e: Effect, c: Core, v: &mut [u8; 16]) -> Core
    requires { c.pc ≤ 4094 }
    ensures { (stack : List ℕ) → whole result v.new stack ≡ written e (whole c v.old stack) }
{
    match e {
        Effect::Next(pc) => jump(c, pc),
        Effect::Result(x, b) => registers::put(c, v, x, b),
        Effect::Flagged(x, b, f) => registers::put_both(c, v, x, b, f),
        Effect::Index(i) => registers::point(c, i),
        Effect::Clock(delay, tone) => set_timers(c, delay, tone),
    }
}
