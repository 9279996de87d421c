// What a line of the plain engine is tested for before it is carried out, where a test is more than a comparison: its bytes of memory, and the
// number of lit spots.
#![tactic(auto)]

ghost use Rattle.std.specs.Prelude.{◌≡◌, List, ℕ, ◌≤◌, leb};
ghost use Rattle.rules.specs.Number.{pick};
ghost use Rattle.rules.specs.Picture.{lit_spots};
ghost use Rattle.rules.specs.Step as rule;

use rules::Machine;

// Whether the n bytes from I on are below the end of memory; no bytes are anywhere.
pub fn in_memory(m: Machine, n: usize) -> bool
    requires { n ≤ 256 }
    ensures { result ≡ leb (rule.reach m n) m.end }
{
    n == 0 || usize::from(m.i) + n <= usize::from(m.end)
}

// Whether the number of lit spots that the machine has with it stays from 0 to 2,048, where so many were lit before a change of the picture and so
// many after it. A number that is the picture's count always does.
pub fn stays_in_range(lit: u16, before: usize, after: usize) -> bool
    requires { (before ≤ 2048) × (after ≤ 2048) }
    ensures { (p q : List ℕ) → before ≡ lit_spots p → after ≡ lit_spots q → rule.lit_refusal lit p q ≡ pick result 0 10 }
{
    let sum = usize::from(lit) + after;
    before <= sum && sum <= before + Machine::SPOTS
}
