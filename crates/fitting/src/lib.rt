// Whether what is lent fits: the lengths of the buffers and of the lists, and next, kept and ahead in the places of the history.
#![tactic(auto)]

ghost use Rattle.std.specs.Prelude.{◌≡◌, ◌&&◌, eqb, leb};
ghost use Rattle.rules.specs.World as fit;
ghost use Rattle.rules.specs.Typed.{Below};
ghost use Rattle.rules.specs.Rows.{bytes_of};

use rules::{Machine, Trail};

// R
pub fn places(history: &[u8]) -> usize
    ensures { result ≡ fit.places history.now }
{
    history.len() / keeping::PLACE
}

pub fn history_fits(history: &[u8]) -> bool
    ensures { result ≡ fit.history_fits history.now }
{
    (keeping::PLACE <= history.len()) & (history.len() <= 65536)
}

// It also tells what the types say of the bytes that are lent, which the rules' theorems ask for.
pub fn sizes_fit(memory: &[u8], rows: &[u64], history: &[u8]) -> bool
    ensures value { result ≡ fit.sizes_fit memory.now (bytes_of rows.now) history.now }
    ensures below { Below 256 memory.now × Below 256 (bytes_of rows.now) }
{
    (memory.len() == Machine::MEMORY) & (rows.len() == Machine::ROWS) & history_fits(history)
}

// Kept plus ahead is at most R: what is left beside the kept ones is at least what stands ahead, so that no sum can pass its type.
pub fn trail_fits(t: Trail, history: &[u8]) -> bool
    ensures { result ≡ fit.trail_fits t history.now }
{
    let places = places(history);
    if places < t.kept {
        return false;
    }
    (t.next < places) & (t.ahead <= places - t.kept)
}

// A run's or a play's lists: three lengths that are equal, at most 4,096.
pub fn lists_fit(a: usize, b: usize, c: usize) -> bool
    ensures { result ≡ (eqb a b && eqb b c && leb a 4096) }
{
    (a == b) & (b == c) & (a <= 4096)
}
