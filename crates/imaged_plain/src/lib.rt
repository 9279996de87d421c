// A run of the plain engine on a machine that stands in an image of the right length: it is read, the run is made, and what it gave is
// written back. Next, kept and ahead of the image are written as they were read.
#![tactic(auto)]

ghost use Rattle.std.specs.Prelude.{◌≡◌};
ghost use Rattle.imaged_plain.specs.PlainOn.{plain_of, plain_on, LeavesPlain};

use image::{IMAGE, Standing};
use parts::Answer;

// What a run tells besides the bytes, in the numbers of C: the refusal number or 0, and the accepted steps.
#[derive(Clone, Copy)]
pub struct Told {
    pub number: u32,
    pub accepted: u64,
}

pub fn run(
    image: &mut [u8; IMAGE],
    memory: &mut [u8],
    spots: &mut [u8],
    ticks: &[u8],
    keys: &[u16],
    randoms: &[u8],
) -> Told
    ensures leaves_plain { LeavesPlain
        (plain_on ticks.now keys.now randoms.now image.old memory.old spots.old)
        result.number image.new memory.new spots.new }
    ensures accepted_value { result.accepted ≡ (plain_of ticks.now keys.now randoms.now image.old
        memory.old spots.old).accepted }
{
    let Standing { mut machine, trail } = image::read(image);
    let ran = plain::run(&mut machine, memory, spots, ticks, keys, randoms);
    let outcome = ran.outcome;
    Told {
        number: image_after::after_list(
            image,
            Answer {
                outcome,
                machine,
                trail,
            },
        ),
        accepted: ran.accepted as u64,
    }
}
