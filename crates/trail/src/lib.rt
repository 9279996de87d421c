// The history's three numbers, next, kept and ahead, counted on and counted back.
#![tactic(auto)]

ghost use Rattle.std.specs.Prelude.{◌≡◌, ◌+◌, ◌≤◌, ◌<◌, eqb};
ghost use Rattle.rules.specs.Number.{pick};
ghost use Rattle.rules.specs.Call as rule;
ghost use Rattle.trail.specs.InRange.{InRange};

use rules::Trail;

// Next goes up by one, R becoming 0.
fn next_place(next: usize, places: usize) -> usize
    requires { (next < places) × (places ≤ 224) }
    ensures { result ≡ rule.next_place places next }
{
    if next + 1 == places { 0 } else { next + 1 }
}

// Kept rises by one to at most R.
fn one_more(kept: usize, places: usize) -> usize
    requires { (kept ≤ places) × (places ≤ 224) }
    ensures { result ≡ pick (eqb kept places) places (kept + 1) }
{
    (kept + 1).min(places)
}

// After a new action: nothing stands ahead any more.
pub fn grown(t: Trail, places: usize) -> Trail
    requires { InRange t places }
    ensures { result ≡ rule.grown places t }
{
    Trail {
        next: next_place(t.next, places),
        kept: one_more(t.kept, places),
        ahead: 0,
    }
}

// The place of the last record: next falls by one, 0 becoming R - 1.
pub fn place_before(next: usize, places: usize) -> usize
    requires { next < places }
    ensures { (result ≡ rule.place_before places next) × (result < places) }
{
    if next == 0 { places - 1 } else { next - 1 }
}
