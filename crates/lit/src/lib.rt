// The number of lit spots: whether it stays in its range where a picture takes the place of another, and what it becomes.
#![tactic(auto)]

ghost use Rattle.std.specs.Prelude.{◌≡◌, List, ℕ, ◌+◌, ◌≤◌};
ghost use Rattle.rules.specs.Refusal.{number};
ghost use Rattle.rules.specs.Step.{lit_after, lit_refusal};
ghost use Rattle.lit.specs.Balance.{Balance};

use picture::Spots;
use rules::{Machine, Refusal};

// 10, where it would fall below 0 or pass 2,048. Nothing is written yet.
pub fn late(lit: u16, spots: Spots) -> Result<(), Refusal>
    requires { (spots.dark ≤ 2048) × (spots.lit ≤ 2048) }
    ensures { (p q : List ℕ) → Balance spots p q → number result ≡ lit_refusal lit p q }
{
    let sum = lit as usize + spots.lit;
    if sum < spots.dark {
        return Err(Refusal::Unsound);
    }
    if spots.dark + Machine::SPOTS < sum {
        return Err(Refusal::Unsound);
    }
    Ok(())
}

// The number after a change that keeps it in its range.
pub fn counted(lit: u16, spots: Spots) -> u16
    requires { (spots.dark ≤ 2048) × (spots.dark ≤ lit + spots.lit) × (lit + spots.lit ≤ spots.dark + 2048) }
    ensures { (p q : List ℕ) → Balance spots p q → result ≡ lit_after lit p q }
{
    (lit as usize + spots.lit - spots.dark) as u16
}
