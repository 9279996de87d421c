// The stepper's dock: a page of the variables, drawn afresh from a state, and the switch that shows it or the game's own picture.
#![tactic(auto)]

ghost use Rattle.std.specs.Prelude.{◌≡◌};
ghost use Rattle.rules.specs.Refusal.{number};
ghost use Rattle.stepper.specs.Dock as dock;

use rules::{Machine, Refusal};

// ---- the page

// Draws the page of a state.
pub fn draw(machine: Machine, page: &mut [u8]) -> Result<(), Refusal>
    ensures { dock.Draws machine page.old result page.new }
{
    let Some(page) = page.as_mut_array() else {
        return Err(Refusal::BufferLength);
    };
    if !chip8::is_sound(machine) {
        return Err(Refusal::Unsound);
    }
    page_spots::fill(&machine.v, machine.pc, page);
    Ok(())
}

// ---- the showing

// What the dock shows.
#[derive(Clone, Copy)]
pub enum Switch {
    Game,
    Variables,
}

// Whether a showing is refused.
pub fn shows(picture: &[u8], page: &[u8]) -> Result<(), Refusal>
    ensures { number result ≡ dock.show_refusal picture.now page.now }
{
    if picture.len() != Machine::PICTURE {
        return Err(Refusal::BufferLength);
    }
    if page.len() != Machine::PICTURE {
        return Err(Refusal::BufferLength);
    }
    Ok(())
}

// The game's own picture or the page of variables, whichever the switch names. A refused showing hands back the empty part at the start of
// the picture.
pub fn show<'a>(switch: Switch, picture: &'a [u8], page: &'a [u8]) -> &'a [u8]
    ensures { dock.Shown switch picture.entry page.entry result }
{
    if shows(picture, page).is_err() {
        return &picture[0..0];
    }
    match switch {
        Switch::Game => picture,
        Switch::Variables => page,
    }
}
