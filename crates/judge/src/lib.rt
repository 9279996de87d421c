// The tests 9 and 10, which come before everything else: lengths, and a sound state with its numbers in range.
#![tactic(auto)]

ghost use Rattle.std.specs.Prelude.{◌≡◌, ◌&&◌, OnOk};
ghost use Rattle.rules.specs.declared.Refusal.TheVariants.{BufferLength, Unsound};
ghost use Rattle.rules.specs.Number.{unless};
ghost use Rattle.rules.specs.Refusal.{number_of, number};
ghost use Rattle.rules.specs.State as state;
ghost use Rattle.rules.specs.World as fit;
ghost use Rattle.rules.specs.World.{world};
ghost use Rattle.rules.specs.Typed.{TypedMachine};
ghost use Rattle.rules.specs.Rows.{bytes_of};
ghost use Rattle.rules.proofs.Ready.{Ready};

use rules::{Machine, Refusal, Trail};

// It tells of the state's numbers what `is_sound` tells.
pub fn soundly(m: Machine, t: Trail, history: &[u8]) -> bool
    ensures value { result ≡ (state.sound m && fit.trail_fits t history.now) }
    ensures typed_machine { TypedMachine m }
{
    soundness::is_sound(m) & fitting::trail_fits(t, history)
}

// 9, then 10.
pub fn tested(fits: bool, sound: bool) -> Result<(), Refusal>
    ensures { number result ≡ unless fits (number_of BufferLength) (unless sound (number_of Unsound) 0) }
{
    if !fits {
        return Err(Refusal::BufferLength);
    }
    if !sound {
        return Err(Refusal::Unsound);
    }
    Ok(())
}

// 9, then 10, of a world and whatever lists come with it. A world that passes is ready for anything.
pub fn admitted(
    m: Machine,
    t: Trail,
    memory: &[u8],
    rows: &[u64],
    history: &[u8],
    lists: bool,
) -> Result<(), Refusal>
    ensures result_value { number result ≡ unless
        (fit.buffers_fit (world m t memory.now (bytes_of rows.now) history.now) && lists)
        (number_of BufferLength)
        (unless (fit.soundly (world m t memory.now (bytes_of rows.now) history.now)) (number_of Unsound) 0) }
    ensures ready { OnOk result (Ready (world m t memory.now (bytes_of rows.now) history.now)) }
{
    let fits = fitting::sizes_fit(memory, rows, history) & lists;
    tested(fits, soundly(m, t, history))
}
