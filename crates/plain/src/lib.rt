// The plain engine: a machine with no history and one byte for each spot, there to be read. Its run is a run of the card's rules, told without a
// history (specs/Gone.antt); that it equals the first engine's, beside any history, is claimed in specs/Equal.antt.
#![tactic(auto)]

ghost use Rattle.std.specs.Prelude.{◌≡◌, true, ◌&&◌, List, ℕ, eqb, length, Err, OnOk};
ghost use Rattle.rules.specs.declared.Refusal.TheVariants.{BufferLength, Unsound};
ghost use Rattle.rules.specs.Number.{unless};
ghost use Rattle.rules.specs.Refusal.{number, number_of};
ghost use Rattle.rules.specs.State.{memory_size, spot_count, sound};
ghost use Rattle.rules.specs.Call as rule;
ghost use Rattle.rules.specs.Run.{lists_fit};
ghost use Rattle.spots.specs.Spots.{all_spots};
ghost use Rattle.plain_step.specs.Does.{board_on, Playable, Leaves, stepped_to};
ghost use Rattle.plain.specs.Gone.{ticked_on, gone_from};
ghost use Rattle.plain.specs.Plain.{in_spots, plain_run, GivesPlain};

use rules::{Machine, Refusal};

// What a run answers: how many steps were accepted, and what ended it.
#[derive(Clone, Copy)]
pub struct Ran {
    pub accepted: usize,
    pub outcome: Result<(), Refusal>,
}

// 9, then 10. What passes them can be played.
fn admitted(m: Machine, memory: &[u8], spots: &[u8], lists: bool) -> Result<(), Refusal>
    ensures result_value { number result ≡ unless
        (eqb (length memory.now) memory_size && eqb (length spots.now) spot_count && lists) (number_of BufferLength)
        (unless (sound m && all_spots spots.now) (number_of Unsound) 0) }
    ensures playable { OnOk result (Playable m memory.now spots.now) }
{
    let fits = (memory.len() == Machine::MEMORY) & (spots.len() == Machine::SPOTS) & lists;
    judge::tested(fits, soundness::is_sound(m) & spots::are_spots(spots))
}

// So many ticks.
fn ticks_of(mut m: Machine, count: u8) -> Machine
    ensures { (memory spots : List ℕ) → board_on result memory spots ≡ ticked_on count (board_on m memory spots) }
{
    for _made in 0..count {
        m = plain_step::tick(m);
    }
    m
}

// One entry: its ticks, then its step. Where the step is refused, its ticks stand.
fn entry(
    machine: &mut Machine,
    memory: &mut [u8],
    spots: &mut [u8],
    ticks: u8,
    keys: u16,
    random: u8,
) -> Result<(), Refusal>
    requires { Playable machine.old memory.old spots.old }
    ensures { Leaves (rule.step_own (ticked_on ticks (board_on machine.old memory.old spots.old)))
        (stepped_to keys random (ticked_on ticks (board_on machine.old memory.old spots.old))) result machine.new
        memory.new spots.new }
{
    *machine = ticks_of(*machine, ticks);
    *machine = plain_step::step(*machine, memory, spots, keys, random)?;
    Ok(())
}

// A run whose entry `accepted` is refused answers that number and why.
fn stopped(accepted: usize, why: Refusal) -> Ran
    ensures { result ≡ record { accepted = accepted; outcome = Err why } }
{
    Ran {
        accepted,
        outcome: Err(why),
    }
}

// A run of what passed the tests 9 and 10.
fn run_entries(
    machine: &mut Machine,
    memory: &mut [u8],
    spots: &mut [u8],
    ticks: &[u8],
    keys: &[u16],
    randoms: &[u8],
) -> Ran
    requires { Playable machine.old memory.old spots.old × (lists_fit ticks.now keys.now randoms.now ≡ true) }
    ensures { GivesPlain
        (in_spots
        (gone_from 0 ticks.now keys.now randoms.now (board_on machine.old memory.old spots.old)))
        result.accepted result.outcome machine.new memory.new spots.new }
{
    for i in 0..ticks.len() {
        let outcome = entry(machine, memory, spots, ticks[i], keys[i], randoms[i]);
        if let Err(why) = outcome {
            return stopped(i, why);
        }
    }
    Ran {
        accepted: ticks.len(),
        outcome: Ok(()),
    }
}

// For each entry makes the ticks, then a step, up to the first step that is refused.
pub fn run(
    machine: &mut Machine,
    memory: &mut [u8],
    spots: &mut [u8],
    ticks: &[u8],
    keys: &[u16],
    randoms: &[u8],
) -> Ran
    ensures { GivesPlain
        (plain_run ticks.now keys.now randoms.now machine.old memory.old spots.old)
        result.accepted result.outcome machine.new memory.new spots.new }
{
    let lists = fitting::lists_fit(ticks.len(), keys.len(), randoms.len());
    if let Err(why) = admitted(*machine, memory, spots, lists) {
        return stopped(0, why);
    }
    run_entries(machine, memory, spots, ticks, keys, randoms)
}
