// The instructions that act on the core and the variables alone. What such an instruction writes is found first, from the state as it
// is, and then written. Each contract speaks of the whole machine, beside any stack.
#![tactic(auto)]

ghost use Rattle.std.specs.Prelude.{◌≡◌, ℕ, ◌≤◌, List};
ghost use Rattle.rules.specs.Registers as state;
ghost use Rattle.parts.specs.Whole.{whole};
ghost use Rattle.effects.specs.Written.{written};

use effects::Effect;
use parts::Core;
use registers::get;
use rules::Simple;

// What the instruction writes.
fn effect_of(s: Simple, c: Core, v: &[u8; 16], keys: u16, random: u8) -> Effect
    requires { c.pc ≤ 4094 }
    ensures { (stack : List ℕ) → written result (whole c v.now stack) ≡ state.simple s keys random (whole c v.now stack) }
{
    match s {
        Simple::Jump(a) => Effect::Next(a),
        Simple::JumpFrom(a) => Effect::Next(a % 4096 + u16::from(get(v, 0))),
        Simple::SkipEqual(x, kk) => effects::skip(c.pc, get(v, x) == kk, 4, 2),
        Simple::SkipDiffers(x, kk) => effects::skip(c.pc, get(v, x) == kk, 2, 4),
        Simple::SkipSame(x, y) => effects::skip(c.pc, get(v, x) == get(v, y), 4, 2),
        Simple::SkipOther(x, y) => effects::skip(c.pc, get(v, x) == get(v, y), 2, 4),
        Simple::SkipDown(x) => effects::skip(c.pc, registers::down(keys, get(v, x) % 16), 4, 2),
        Simple::SkipUp(x) => effects::skip(c.pc, registers::down(keys, get(v, x) % 16), 2, 4),
        Simple::Put(x, kk) => Effect::Result(x, kk),
        Simple::Add(x, kk) => Effect::Result(x, get(v, x).wrapping_add(kk)),
        Simple::Chance(x, kk) => Effect::Result(x, random & kk),
        Simple::Copy(x, y) => Effect::Result(x, get(v, y)),
        Simple::Or(x, y) => Effect::Flagged(x, get(v, x) | get(v, y), 0),
        Simple::And(x, y) => Effect::Flagged(x, get(v, x) & get(v, y), 0),
        Simple::Plus(x, y) => effects::plus(x, get(v, x), get(v, y)),
        Simple::Minus(x, y) => effects::minus(x, get(v, x), get(v, y)),
        Simple::Xor(x, y) => Effect::Flagged(x, get(v, x) ^ get(v, y), 0),
        Simple::Halve(x, y) => effects::halved(x, get(v, y)),
        Simple::MinusFrom(x, y) => effects::minus(x, get(v, y), get(v, x)),
        Simple::Double(x, y) => effects::doubled(x, get(v, y)),
        Simple::Index(a) => Effect::Index(a),
        Simple::AddIndex(x) => Effect::Index(c.i.wrapping_add(u16::from(get(v, x)))),
        Simple::Digit(x) => Effect::Index(5 * u16::from(get(v, x) % 16)),
        Simple::FromDelay(x) => Effect::Result(x, c.timers.delay),
        Simple::ToDelay(x) => Effect::Clock(get(v, x), c.timers.tone),
        Simple::ToTone(x) => Effect::Clock(c.timers.delay, get(v, x)),
    }
}

// The instruction. Only a read of the state comes before its effect is written, so no instruction reads what it wrote itself.
pub fn simple(s: Simple, c: Core, v: &mut [u8; 16], keys: u16, random: u8) -> Core
    requires { c.pc ≤ 4094 }
    ensures { (stack : List ℕ) → whole result v.new stack ≡ state.simple s keys random (whole c v.old stack) }
{
    let e = effect_of(s, c, v, keys, random);
    effects::write(e, c, v)
}
