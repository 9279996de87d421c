// Whether a state is sound, and the end of memory that a load hands back.
#![tactic(auto)]

ghost use Rattle.std.specs.Prelude.{◌≡◌, ◌≤◌, drop};
ghost use Rattle.rules.specs.State as state;
ghost use Rattle.rules.specs.Typed.{TypedMachine};
ghost use Rattle.rules.specs.Load.{end_of};

use rules::{Machine, Wait};

fn held_sound(wait: Wait) -> bool
    ensures { result ≡ state.held_sound wait }
{
    matches!(wait, Wait::Idle | Wait::Held(0..=15))
}

// One of the two ends in use.
pub fn end_sound(end: u16) -> bool
    ensures { result ≡ state.end_sound end }
{
    (end as usize == Machine::SMALL_END) | (end as usize == Machine::MEMORY)
}

// The end that a load hands back: the one that was asked for, where it is in use.
pub fn end_of(end: u16) -> u16
    ensures { result ≡ end_of end }
{
    if end_sound(end) {
        return end;
    }
    Machine::MEMORY as u16
}

// Whether the stack is clear from `at` on.
fn clear_from(stack: [u16; Machine::STACK], at: usize) -> bool
    requires { at ≤ 12 }
    ensures { result ≡ state.zeros (drop at stack) }
{
    stack[at..].iter().all(|entry| *entry == 0)
}

// It also tells what the types say of the state's numbers.
pub fn is_sound(m: Machine) -> bool
    ensures value { result ≡ state.sound m }
    ensures typed_machine { TypedMachine m }
{
    let depth = usize::from(m.depth);
    if Machine::STACK < depth {
        return false;
    }
    clear_from(m.stack, depth)
        & held_sound(m.wait)
        & (m.lit as usize <= Machine::SPOTS)
        & end_sound(m.end)
}
