// The salvage of a worn history: the longest row of sound records stays, and every other place is cleared and told of. The specs say what is
// right.
#![tactic(auto)]

ghost use Rattle.std.specs.Prelude.{◌≡◌};
ghost use Rattle.salvage.specs.Salvage as spec;
ghost use Rattle.salvage.specs.Promise.{GivesSalvage};

use rules::{Machine, Refusal, Trail};

// What came of a salvage: how many records are kept, and how many places cleared.
#[derive(Clone, Copy)]
pub struct Salvaged {
    pub kept: usize,
    pub cleared: usize,
}

// Two numbers for each place.
fn list_fits(history: &[u8], list: &[u16]) -> bool
    ensures { result ≡ spec.list_fits history.now list.now }
{
    2 * chip8::places(history) <= list.len()
}

// Salvages a worn history beside a state. A refused call changes nothing.
pub fn salvage(
    machine: Machine,
    trail: &mut Trail,
    history: &mut [u8],
    list: &mut [u16],
) -> Result<Salvaged, Refusal>
    ensures { GivesSalvage (spec.salvage machine trail.old history.old list.old)
        result trail.new history.new list.new }
{
    let fits = chip8::history_fits(history) & list_fits(history, list);
    chip8::tested(fits, chip8::soundly(machine, *trail, history))?;
    let places = chip8::places(history);
    let kept = salvage_row::row_length(history, machine.end, trail.kept, trail.next, machine.depth);
    salvage_places::clear_others(history, trail.next, kept);
    let cleared = salvage_places::list_others(list, places, *trail, kept);
    trail.kept = kept;
    trail.ahead = 0;
    Ok(Salvaged { kept, cleared })
}
