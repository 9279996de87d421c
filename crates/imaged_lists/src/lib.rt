// A run and a play on a machine that stands in an image of the right length: it is read, the call is made, and what the call gave is
// written back.
#![tactic(auto)]

ghost use Rattle.std.specs.Prelude.{◌≡◌};
ghost use Rattle.rules.specs.Run as rules_run;
ghost use Rattle.rules.specs.Dark.{run_dark};
ghost use Rattle.rules.specs.Copied.{run_copied};
ghost use Rattle.rules.specs.Past.{PlayTells};
ghost use Rattle.rules.specs.Rows.{bytes_of};
ghost use Rattle.imaged.specs.Imaged.{world_of, ran_on, played_on, Leaves};

use image::{IMAGE, Standing};
use parts::Answer;

// What a run tells besides the bytes, in the numbers of C: the refusal number or 0, the accepted steps, the lit spots that they darkened, and the
// bytes that their records keep.
#[derive(Clone, Copy)]
pub struct Told {
    pub number: u32,
    pub accepted: u64,
    pub dark: u64,
    pub copied: u64,
}

pub fn run(
    image: &mut [u8; IMAGE],
    memory: &mut [u8],
    rows: &mut [u64],
    history: &mut [u8],
    ticks: &[u8],
    keys: &[u16],
    randoms: &[u8],
) -> Told
    ensures leaves { Leaves
        (ran_on ticks.now keys.now randoms.now image.old memory.old
        (bytes_of rows.old) history.old) result.number image.new memory.new (bytes_of rows.new)
        history.new }
    ensures accepted_value { (result.accepted ≡ (rules_run.run ticks.now keys.now randoms.now
        (world_of image.old memory.old (bytes_of rows.old) history.old)).accepted)
        × (result.dark ≡ run_dark ticks.now keys.now randoms.now
        (world_of image.old memory.old (bytes_of rows.old) history.old))
        × (result.copied ≡ run_copied ticks.now keys.now randoms.now
        (world_of image.old memory.old (bytes_of rows.old) history.old)) }
{
    let Standing {
        mut machine,
        mut trail,
    } = image::read(image);
    let ran = chip8::run(
        &mut machine,
        &mut trail,
        memory,
        rows,
        history,
        ticks,
        keys,
        randoms,
    );
    let outcome = ran.outcome;
    Told {
        number: image_after::after_list(
            image,
            Answer {
                outcome,
                machine,
                trail,
            },
        ),
        accepted: ran.accepted as u64,
        dark: ran.dark as u64,
        copied: ran.copied as u64,
    }
}

pub fn play(
    image: &mut [u8; IMAGE],
    memory: &mut [u8],
    rows: &mut [u64],
    history: &mut [u8],
    moves: &[u8],
    keys: &[u16],
    randoms: &[u8],
) -> u32
    ensures leaves { Leaves
        (played_on moves.now keys.now randoms.now image.old memory.old
        (bytes_of rows.old) history.old) result image.new memory.new (bytes_of rows.new)
        history.new }
    ensures play_tells { PlayTells moves.now keys.now randoms.now
        (world_of image.old memory.old (bytes_of rows.old) history.old)
        (world_of image.new memory.new (bytes_of rows.new) history.new) }
{
    let Standing {
        mut machine,
        mut trail,
    } = image::read(image);
    let outcome = chip8::play(
        &mut machine,
        &mut trail,
        memory,
        rows,
        history,
        moves,
        keys,
        randoms,
    );
    image_after::after_list(
        image,
        Answer {
            outcome,
            machine,
            trail,
        },
    )
}
