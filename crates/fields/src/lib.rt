// The parts of a record as bytes and numbers, before they are laid. The specs of `rules`, Record.antt, say what a record is.
#![tactic(auto)]

ghost use Rattle.std.specs.Prelude.{◌≡◌, [], ◌∷◌, ◌++◌, ◌-◌, ◌≤◌, eqb, get_or};
ghost use Rattle.rules.specs.Number.{pick, word};
ghost use Rattle.rules.specs.State.{stack_size};
ghost use Rattle.rules.specs.Record.{held_byte, mark, start, count, inputs};
ghost use Rattle.rules.specs.Rows.{eight_of};

use parts::Core;
use rules::{Action, Change, Machine};

pub fn mark_of(c: Change) -> [u8; 2]
    ensures { result ≡ mark c }
{
    match c {
        Change::Nothing => *b"NO",
        Change::InMemory(_, _) => *b"ME",
        Change::InPicture(_, _) => *b"DI",
    }
}

fn start_of(c: Change) -> u16
    ensures { result ≡ start c }
{
    match c {
        Change::Nothing => 0,
        Change::InMemory(start, _) | Change::InPicture(start, _) => start,
    }
}

pub fn count_of(c: Change) -> u16
    ensures { result ≡ count c }
{
    match c {
        Change::Nothing => 0,
        Change::InMemory(_, count) | Change::InPicture(_, count) => count,
    }
}

// 0 where nothing is on the stack.
pub fn last_return(depth: u8, stack: &[u16; Machine::STACK]) -> u16
    requires { depth ≤ stack_size }
    ensures { result ≡ pick (eqb depth 0) 0 (get_or stack.now (depth - 1) 0) }
{
    let above = depth as usize;
    if above == 0 { 0 } else { stack[above - 1] }
}

// Of what lies between the variables and the old bytes, the first eight bytes as one number: I, PC, depth, the last return address and
// the delay timer.
pub fn first_fields(c: Core, last: u16) -> u64
    ensures { eight_of result ≡ word c.i ++ word c.pc ++ (c.depth ∷ []) ++ word last ++ (c.timers.delay ∷ []) }
{
    u64::from(c.i) * 0x1_0000_0000_0000
        + u64::from(c.pc) * 0x1_0000_0000
        + u64::from(c.depth) * 0x100_0000
        + u64::from(last) * 0x100
        + u64::from(c.timers.delay)
}

// The two after them.
pub fn tone_and_held(c: Core) -> [u8; 2]
    ensures { result ≡ c.timers.tone ∷ held_byte c.wait ∷ [] }
{
    [c.timers.tone, u8::from(c.wait)]
}

// And the last four, where the change lies. For a change of the state alone they are zeros.
pub fn start_and_count(change: Change) -> [u8; 4]
    ensures { result ≡ word (start change) ++ word (count change) }
{
    let [start_high, start_low] = start_of(change).to_be_bytes();
    let [count_high, count_low] = count_of(change).to_be_bytes();
    [start_high, start_low, count_high, count_low]
}

// What stands last: the inputs of a step and a 1, or four zeros for a tick.
pub fn inputs_of(action: Action) -> [u8; 4]
    ensures { result ≡ inputs action }
{
    match action {
        Action::Step(keys, random) => {
            let [high, low] = keys.to_be_bytes();
            [high, low, random, 1]
        }
        Action::Tick => [0; 4],
    }
}
