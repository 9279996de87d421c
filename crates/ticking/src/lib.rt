// A tick of a world that passed the tests 9 and 10.
#![tactic(auto)]

ghost use Rattle.std.specs.Prelude.{List, ℕ};
ghost use Rattle.rules.specs.Refusal.{done};
ghost use Rattle.rules.specs.World.{world};
ghost use Rattle.rules.specs.Call as rule;
ghost use Rattle.rules.specs.Run.{unrefused};
ghost use Rattle.rules.specs.Promise.{Gives};
ghost use Rattle.parts.specs.Whole.{whole};
ghost use Rattle.ticking.specs.Tickable.{Tickable};

use parts::Core;
use rules::{Action, Machine, Trail};

// Keeps the record of a tick, and lowers the timers. It is lent only the history: the promise holds beside any memory and picture.
pub fn tick(
    c: &mut Core,
    v: &[u8; 16],
    stack: &[u16; Machine::STACK],
    trail: &mut Trail,
    history: &mut [u8],
)
    requires { Tickable (whole c.old v.now stack.now) trail.old history.old }
    ensures { (memory picture : List ℕ) → Gives
        (unrefused
        (rule.ticked
        (world (whole c.old v.now stack.now) trail.old memory picture history.old))) done
        (whole c.new v.now stack.now) trail.new memory picture history.new }
{
    let places = fitting::places(history);
    keeping::keep_state(history, trail.next, *c, v, stack, Action::Tick);
    *c = clock::tick(*c);
    *trail = trail::grown(*trail, places);
}
