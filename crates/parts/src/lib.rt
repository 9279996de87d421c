// The parts that are handed about. Of a machine: the variables and the stack are arrays that are lent, so that no step copies them; the
// rest is small: lent to entries and ticks, by value below. And what a load and a run answer, and the number of what came of a call.
//
// What a call is lent goes from function to function as references of its own, and the key bits and the random byte as two numbers. A struct of
// the references would have every contract say besides, of each field, that it is still the same reference, or its caller learns nothing of the
// bytes; and the rules' `step` takes the two numbers one by one, so a struct of them would be taken apart in every contract.
#![tactic(auto)]

ghost use Rattle.std.specs.Prelude.{◌≡◌, List, ℕ};
ghost use Rattle.rules.specs.Refusal as refusal;
ghost use Rattle.parts.specs.Whole as spec;

use rules::{Edition, Machine, Refusal, Timers, Trail, Wait};

// What a machine has besides its variables and its stack.
#[derive(Clone, Copy)]
pub struct Core {
    pub i: u16,
    pub pc: u16,
    pub depth: u8,
    pub timers: Timers,
    pub wait: Wait,
    pub edition: Edition,
    pub lit: u16,
    pub end: u16,
}

impl From<Machine> for Core {
    ghost from_gives = { λ m c. spec.whole c m.v m.stack ≡ m };

    fn from(m: Machine) -> Core {
        Core {
            i: m.i,
            pc: m.pc,
            depth: m.depth,
            timers: m.timers,
            wait: m.wait,
            edition: m.edition,
            lit: m.lit,
            end: m.end,
        }
    }
}

pub fn whole(c: Core, v: [u8; 16], stack: [u16; Machine::STACK]) -> Machine
    ensures { result ≡ spec.whole c v stack }
{
    Machine {
        v,
        i: c.i,
        pc: c.pc,
        stack,
        depth: c.depth,
        timers: c.timers,
        wait: c.wait,
        edition: c.edition,
        lit: c.lit,
        end: c.end,
    }
}

// ---- what a call answers

// What a load hands back beside the buffers: what came of it, the state, and the history's three numbers.
#[derive(Clone, Copy)]
pub struct Answer {
    pub outcome: Result<(), Refusal>,
    pub machine: Machine,
    pub trail: Trail,
}

// What a run answers: the number of accepted steps, the sum of what they darkened, that of the bytes that their records keep, and what ended it.
#[derive(Clone, Copy)]
pub struct Ran {
    pub accepted: usize,
    pub dark: usize,
    pub copied: usize,
    pub outcome: Result<(), Refusal>,
}

// The number of what came of a call: that of its refusal, and 0 where nothing was refused.
pub fn number(outcome: Result<(), Refusal>) -> u8
    ensures { result ≡ refusal.number outcome }
{
    match outcome {
        Ok(()) => 0,
        Err(why) => u8::from(why),
    }
}
