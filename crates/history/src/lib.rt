// A history's records, read back. The specs of `rules`, Record.antt, say what a record is.
#![tactic(auto)]

ghost use Rattle.std.specs.Prelude.{◌≡◌, ◌≤◌};
ghost use Rattle.history.specs.Restored.{restored};
ghost use Rattle.rules.specs.Memory.{part};
ghost use Rattle.rules.specs.State.{stack_size};
ghost use Rattle.rules.specs.Record.{at_v, at_depth};
ghost use Rattle.rules.specs.Record.{byte_at, stack_at, machine_at, action_at};

pub use keeping::{AT_OLD, PLACE, place};
use rules::{Action, Change, Machine, Timers, Wait};

// What a sound record gives back: the state before the action, and what the action changed.
#[derive(Clone, Copy)]
pub struct Restored {
    pub machine: Machine,
    pub change: Change,
}

fn registers_at(place: &[u8; PLACE]) -> [u8; 16]
    ensures { result ≡ part place.now at_v 16 }
{
    *place[keeping::AT_V..].first_chunk().unwrap()
}

// The last return address is put back, since a return took it away, and nothing stays above it, since a call added an entry.
fn stack_at(place: &[u8; PLACE], mut stack: [u16; Machine::STACK]) -> [u16; Machine::STACK]
    requires at_depth_bound { byte_at place.now at_depth ≤ stack_size }
    ensures { result ≡ stack_at place.now stack }
{
    let depth = usize::from(damage::depth_at(place));
    let top = depth.saturating_sub(1);
    stack[top] = memory::word_at(place, keeping::AT_LAST);
    stack[depth..].fill(0);
    stack
}

// The state before the action, but for the number of lit spots. Of the state after it only that, the edition, the end and the stack
// below the last return address are used.
fn machine_at(place: &[u8; PLACE], m: Machine) -> Machine
    requires at_depth_bound { byte_at place.now at_depth ≤ stack_size }
    ensures { result ≡ machine_at place.now m }
{
    Machine {
        v: registers_at(place),
        i: memory::word_at(place, keeping::AT_I),
        pc: memory::word_at(place, keeping::AT_PC),
        stack: stack_at(place, m.stack),
        depth: damage::depth_at(place),
        timers: Timers {
            delay: place[keeping::AT_DELAY],
            tone: place[keeping::AT_TONE],
        },
        wait: Wait::from(place[keeping::AT_HELD]),
        ..m
    }
}

// The action that the record was written beside, with its inputs.
pub fn action_at(place: &[u8; PLACE]) -> Action
    ensures { result ≡ action_at place.now }
{
    let keys = memory::word_at(place, keeping::AT_KEYS);
    if place[keeping::AT_KIND] == 1 {
        Action::Step(keys, place[keeping::AT_RANDOM])
    } else {
        Action::Tick
    }
}

// Reads a record, beside the present state. A damaged one gives nothing.
pub fn read(place: &[u8; PLACE], present: Machine) -> Option<Restored>
    ensures { result ≡ restored place.now present }
{
    if damage::is_damaged(place, present.end, present.depth) {
        return None;
    }
    let machine = machine_at(place, present);
    let change = damage::change_at(place);
    Some(Restored { machine, change })
}
