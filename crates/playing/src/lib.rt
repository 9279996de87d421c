// A play, move by move.
#![tactic(auto)]

ghost use Rattle.std.specs.Prelude.{◌≡◌, true};
ghost use Rattle.rules.specs.World.{world};
ghost use Rattle.rules.specs.Run.{unrefused, lists_fit, all_moves, move_of, moves_of, made, play_from};
ghost use Rattle.rules.specs.Run as rule;
ghost use Rattle.rules.specs.Past.{PlayTells};
ghost use Rattle.rules.specs.Promise.{Gives};
ghost use Rattle.rules.specs.Rows.{bytes_of};
ghost use Rattle.playing.specs.Meant.{meant};

use rules::{Action, Machine, Refusal, Trail};

// A move with its inputs.
#[derive(Clone, Copy)]
enum Move {
    Take(Action),
    Back,
    Forward,
}

// The move that a byte names: 0 a step, 1 a tick, 2 a step back, 3 a step forward.
fn named(byte: u8, keys: u16, random: u8) -> Move
    ensures { meant result ≡ move_of byte keys random }
{
    match byte {
        0 => Move::Take(Action::Step(keys, random)),
        1 => Move::Take(Action::Tick),
        2 => Move::Back,
        _ => Move::Forward,
    }
}

// Whether each byte names a move.
fn all_moves(moves: &[u8]) -> bool
    ensures { result ≡ all_moves moves.now }
{
    moves.iter().all(|byte| *byte <= 3)
}

// One move.
fn make(
    step: Move,
    machine: &mut Machine,
    trail: &mut Trail,
    memory: &mut [u8],
    rows: &mut [u64],
    history: &mut [u8],
) -> Result<(), Refusal>
    ensures { Gives
        (made (meant step) (world machine.old trail.old memory.old (bytes_of rows.old) history.old))
        result machine.new trail.new memory.new (bytes_of rows.new) history.new }
{
    match step {
        Move::Take(action) => stepping::take(action, machine, trail, memory, rows, history),
        Move::Back => restoring::back(machine, trail, memory, rows, history),
        Move::Forward => repeating::forward(machine, trail, memory, rows, history),
    }
}

// Every move, each on what the last one gave.
fn make_all(
    machine: &mut Machine,
    trail: &mut Trail,
    memory: &mut [u8],
    rows: &mut [u64],
    history: &mut [u8],
    moves: &[u8],
    keys: &[u16],
    randoms: &[u8],
) -> Result<(), Refusal>
    requires { lists_fit moves.now keys.now randoms.now ≡ true }
    ensures { Gives
        (play_from (moves_of moves.now keys.now randoms.now)
        (unrefused (world machine.old trail.old memory.old (bytes_of rows.old) history.old))) result
        machine.new trail.new memory.new (bytes_of rows.new) history.new }
{
    let mut last = Ok(());
    for i in 0..moves.len() {
        let step = named(moves[i], keys[i], randoms[i]);
        last = make(step, machine, trail, memory, rows, history);
    }
    last
}

// Makes a list of moves (0 a step, 1 a tick, 2 a step back, 3 a step forward), each on what the last one gave, refused ones included, and
// answers what came of the last.
pub fn play(
    machine: &mut Machine,
    trail: &mut Trail,
    memory: &mut [u8],
    rows: &mut [u64],
    history: &mut [u8],
    moves: &[u8],
    keys: &[u16],
    randoms: &[u8],
) -> Result<(), Refusal>
    ensures gives { Gives
        (rule.play moves.now keys.now randoms.now
        (world machine.old trail.old memory.old (bytes_of rows.old) history.old)) result machine.new
        trail.new memory.new (bytes_of rows.new) history.new }
    ensures play_tells { PlayTells moves.now keys.now randoms.now
        (world machine.old trail.old memory.old (bytes_of rows.old) history.old)
        (world machine.new trail.new memory.new (bytes_of rows.new) history.new) }
{
    let lists = fitting::lists_fit(moves.len(), keys.len(), randoms.len()) & all_moves(moves);
    judge::admitted(*machine, *trail, memory, rows, history, lists)?;
    make_all(machine, trail, memory, rows, history, moves, keys, randoms)
}
