// The old bytes of a record, put back where they stood; and what that would turn over in the picture, asked before anything is written.
#![tactic(auto)]

ghost use Rattle.std.specs.Prelude.{◌≡◌, ◌≤◌, length};
ghost use Rattle.rules.specs.Memory.{part};
ghost use Rattle.rules.specs.State.{memory_size, picture_size};
ghost use Rattle.rules.specs.Record.{at_old, memory_at, picture_at};
ghost use Rattle.rules.specs.Rows.{bytes_of};
ghost use Rattle.rules.proofs.Undo.{Fits};
ghost use Rattle.lit.specs.Balance.{Balance};

use history::{AT_OLD, PLACE};
use picture::Spots;
use rules::{Change, Machine};

// The old bytes of a record, so many.
fn old_bytes(place: &[u8; PLACE], count: u16) -> &[u8]
    requires { count ≤ picture_size }
    ensures value { result.now ≡ part place.now at_old count }
    ensures len { length result.now ≡ count }
{
    &place[AT_OLD..AT_OLD + count as usize]
}

// Puts the old bytes of a record back where they stood.
pub fn put_back(
    change: Change,
    place: &[u8; PLACE],
    memory: &mut [u8; Machine::MEMORY],
    rows: &mut [u64; Machine::ROWS],
)
    requires { Fits memory_size change }
    ensures memory_after { memory.new ≡ memory_at change place.now memory.old }
    ensures rows_after { bytes_of rows.new ≡ picture_at change place.now (bytes_of rows.old) }
{
    match change {
        Change::Nothing => {}
        Change::InMemory(start, count) => {
            memory::lay(memory, start as usize, old_bytes(place, count));
        }
        Change::InPicture(start, count) => {
            picture::put_bytes(rows, start as usize, old_bytes(place, count));
        }
    }
}

// How many lit spots that would turn dark, and how many dark ones lit. Nothing is written yet.
pub fn would_put_back(change: Change, place: &[u8; PLACE], rows: &[u64; Machine::ROWS]) -> Spots
    requires { Fits memory_size change }
    ensures balance { Balance result (bytes_of rows.now) (picture_at change place.now (bytes_of rows.now)) }
    ensures dark_bound { (result.dark ≤ 2048) × (result.lit ≤ 2048) }
{
    match change {
        Change::Nothing | Change::InMemory(_, _) => Spots { dark: 0, lit: 0 },
        Change::InPicture(start, count) => picture::would_put(
            rows,
            start as usize,
            old_bytes(place, count),
        ),
    }
}
