// A part of the state read or changed, and the instructions that call, return, or wait for a key. The variables and the stack are lent;
// the rest of the state is taken by value and handed back. Each contract speaks of the whole machine, beside any stack or any variables
// that the function is not lent. That PC is at most 4,094 is asked where PC goes on, and is no type's: a core may have any PC, and a step of one
// that is above is refused.
#![tactic(auto)]

ghost use Rattle.std.specs.Prelude.{◌≡◌, List, ℕ, ◌≤◌, ◌<◌, ◌%◌, get_or};
ghost use Rattle.rules.specs.State.{up_to, with_reg, with_i, with_wait, with_lit};
ghost use Rattle.rules.specs.Registers as state;
ghost use Rattle.rules.specs.declared.Wait.TheVariants.{Idle};
ghost use Rattle.parts.specs.Whole.{whole};

use parts::Core;
use rules::{Machine, Timers, Wait};

// ---- numbers

// Whether key k is down; there is none above F.
pub fn down(keys: u16, k: u8) -> bool
    ensures { result ≡ state.down keys k }
{
    (k < 16) && (keys >> k) % 2 == 1
}

// ---- a part of the machine read, and a part changed

// VX, whose number is the low four bits of x.
pub fn get(v: &[u8; 16], x: u8) -> u8
    ensures { result ≡ get_or v.now (x % 16) 0 }
{
    v[(x % 16) as usize]
}

// How many registers V0 to VX are.
pub fn up_to(x: u8) -> usize
    ensures { result ≡ up_to x }
{
    (x % 16) as usize + 1
}

// PC goes past this instruction.
pub fn onward(mut c: Core) -> Core
    requires { c.pc ≤ 4094 }
    ensures { (v stack : List ℕ) → whole result v stack ≡ state.onward (whole c v stack) }
{
    c.pc += 2;
    c
}

// The result goes to VX, and PC goes on.
pub fn put(mut c: Core, v: &mut [u8; 16], x: u8, b: u8) -> Core
    requires { c.pc ≤ 4094 }
    ensures { (stack : List ℕ) → whole result v.new stack ≡ state.onward (with_reg x b (whole c v.old stack)) }
{
    v[(x % 16) as usize] = b;
    c.pc += 2;
    c
}

// The flag is written after the result, so it wins where X is F.
pub fn put_both(mut c: Core, v: &mut [u8; 16], x: u8, b: u8, f: u8) -> Core
    requires { c.pc ≤ 4094 }
    ensures { (stack : List ℕ) → whole result v.new stack ≡ state.onward
        (with_reg 0xF f (with_reg x b (whole c v.old stack))) }
{
    let at = (x % 16) as usize;
    v[at] = b;
    v[0xF] = f;
    c.pc += 2;
    c
}

// I is set, and PC goes on.
pub fn point(mut c: Core, i: u16) -> Core
    requires { c.pc ≤ 4094 }
    ensures { (v stack : List ℕ) → whole result v stack ≡ state.onward (with_i i (whole c v stack)) }
{
    c.i = i;
    c.pc += 2;
    c
}

// The number of lit spots is set.
pub fn light(mut c: Core, lit: u16) -> Core
    ensures { (v stack : List ℕ) → whole result v stack ≡ with_lit lit (whole c v stack) }
{
    c.lit = lit;
    c
}

// The timers are written one by one: copied as a whole they are a number of two bytes to the compiler, which it puts together and takes apart at
// every step.
fn with_wait(c: Core, w: Wait) -> Core
    ensures { (v stack : List ℕ) → whole result v stack ≡ with_wait w (whole c v stack) }
{
    let timers = Timers {
        delay: c.timers.delay,
        tone: c.timers.tone,
    };
    Core {
        timers,
        wait: w,
        ..c
    }
}

// Every instruction but FX0A leaves the wait so.
pub fn idle(c: Core) -> Core
    ensures { (v stack : List ℕ) → whole result v stack ≡ with_wait Idle (whole c v stack) }
{
    with_wait(c, Wait::Idle)
}

// ---- the instructions that call, return, or wait for a key

// 2MMM: the address behind this instruction is the last return address.
pub fn called(mut c: Core, stack: &mut [u16; Machine::STACK], a: u16) -> Core
    requires { (c.pc ≤ 4094) × (c.depth < 12) }
    ensures { (v : List ℕ) → whole result v stack.new ≡ state.called a (whole c v stack.old) }
{
    let at = c.depth as usize;
    stack[at] = c.pc + 2;
    c.depth += 1;
    c.pc = a;
    c
}

// 00EE: the last return address is taken, and its entry is 0 again.
pub fn returned(mut c: Core, stack: &mut [u16; Machine::STACK]) -> Core
    requires { (0 < c.depth) × (c.depth ≤ 12) }
    ensures { (v : List ℕ) → whole result v stack.new ≡ state.returned (whole c v stack.old) }
{
    c.depth -= 1;
    let at = c.depth as usize;
    c.pc = stack[at];
    stack[at] = 0;
    c
}

// The lowest key that is down, and 15 where none below it is.
fn lowest(keys: u16) -> u8
    ensures { result ≡ state.lowest_from 15 0 keys }
{
    keys.trailing_zeros().min(15) as u8
}

// FX0A: the lowest key that is down is held until it is up.
pub fn awaited(x: u8, keys: u16, c: Core, v: &mut [u8; 16]) -> Core
    requires { c.pc ≤ 4094 }
    ensures { (stack : List ℕ) → whole result v.new stack ≡ state.awaited x keys (whole c v.old stack) c.wait }
{
    match c.wait {
        Wait::Idle => {
            if keys == 0 {
                return c;
            }
            with_wait(c, Wait::Held(lowest(keys)))
        }
        Wait::Held(k) => {
            if down(keys, k) {
                return c;
            }
            idle(put(c, v, x, k))
        }
    }
}
