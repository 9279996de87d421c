// The library's single calls on a machine that stands in an image of the right length: it is read, the call is made, and what the call
// gave is written back. A run and a play stand in `imaged_lists`.
#![tactic(auto)]

ghost use Rattle.std.specs.Prelude.{◌≡◌, true, List, ℕ, eqb};
ghost use Rattle.rules.specs.declared.Edition.TheVariants.{First};
ghost use Rattle.rules.specs.Number.{pick, unless};
ghost use Rattle.rules.specs.State.{fresh};
ghost use Rattle.rules.specs.World.{sizes_fit};
ghost use Rattle.rules.specs.Load.{end_of, fresh_trail};
ghost use Rattle.rules.specs.Load as rules_load;
ghost use Rattle.rules.specs.Call as rules_call;
ghost use Rattle.rules.specs.Dark.{step_dark};
ghost use Rattle.rules.specs.Rows.{bytes_of};
ghost use Rattle.image.specs.Image.{image_of};
ghost use Rattle.imaged.specs.Imaged.{world_of, shown, load_by, whole, Leaves};

use image::{IMAGE, Standing};
use parts::Answer;
use rules::{Edition, Machine, Trail};

// What a step tells besides the bytes, in the numbers of C: the refusal number or 0, whether it was accepted, and the lit spots that it
// darkened.
#[derive(Clone, Copy)]
pub struct Told {
    pub number: u32,
    pub accepted: u64,
    pub dark: u64,
}

// ---- the calls

// A load leaves the fresh image, refused or not.
fn load_known(
    edition: Edition,
    end: u16,
    program: &[u8],
    image: &mut [u8; IMAGE],
    memory: &mut [u8],
    rows: &mut [u64],
    history: &mut [u8],
) -> u32
    ensures { Leaves
        (shown true image.old
        (rules_load.load edition end program.now memory.old (bytes_of rows.old) history.old)) result
        image.new memory.new (bytes_of rows.new) history.new }
{
    let answer = chip8::load(edition, end, program, memory, rows, history);
    image_writing::write(image, answer.machine, answer.trail);
    image_after::number(answer.outcome)
}

// An edition that there is not: 9 comes before 10, and the fresh image is of the first edition.
fn load_unknown(
    end: u16,
    image: &mut [u8; IMAGE],
    memory: &[u8],
    rows: &[u64],
    history: &[u8],
) -> u32
    ensures { (result ≡ unless (sizes_fit memory.now (bytes_of rows.now) history.now) 9 10)
        × (image.new ≡ image_of (fresh First (end_of end)) fresh_trail) }
{
    image_writing::write(
        image,
        Machine::fresh(Edition::First, soundness::end_of(end)),
        Trail {
            next: 0,
            kept: 0,
            ahead: 0,
        },
    );
    if fitting::sizes_fit(memory, rows, history) {
        10
    } else {
        9
    }
}

// A load of the edition that a byte names, with an end of memory.
pub fn load(
    program: &[u8],
    edition: u8,
    end: u16,
    image: &mut [u8; IMAGE],
    memory: &mut [u8],
    rows: &mut [u64],
    history: &mut [u8],
) -> u32
    ensures { Leaves
        (shown true image.old
        (load_by edition end program.now memory.old (bytes_of rows.old) history.old)) result
        image.new memory.new (bytes_of rows.new) history.new }
{
    if 1 < edition {
        return load_unknown(end, image, memory, rows, history);
    }
    load_known(
        image::edition_of(edition),
        end,
        program,
        image,
        memory,
        rows,
        history,
    )
}

fn told_by(number: u32, dark: usize) -> Told
    ensures { (result.number ≡ number) × (result.accepted ≡ pick (eqb number 0) 1 0) × (result.dark ≡ dark) }
{
    Told {
        number,
        accepted: image_after::accepted_by(number),
        dark: dark as u64,
    }
}

// The image is written here and not by `after_call`, for which the whole state would be copied once more.
pub fn step(
    image: &mut [u8; IMAGE],
    memory: &mut [u8],
    rows: &mut [u64],
    history: &mut [u8],
    keys: u16,
    random: u8,
) -> Told
    ensures leaves { Leaves
        (whole image.old
        (rules_call.step keys random
        (world_of image.old memory.old (bytes_of rows.old) history.old))) result.number
        image.new memory.new (bytes_of rows.new) history.new }
    ensures accepted_value { (result.accepted ≡ pick (eqb result.number 0) 1 0) × (result.dark ≡ step_dark
        (world_of image.old memory.old (bytes_of rows.old) history.old)) }
{
    let Standing {
        mut machine,
        mut trail,
    } = image::read(image);
    match chip8::step(
        &mut machine,
        &mut trail,
        memory,
        rows,
        history,
        keys,
        random,
    ) {
        Ok(dark) => {
            image_writing::write(image, machine, trail);
            told_by(0, dark)
        }
        Err(why) => told_by(u32::from(u8::from(why)), 0),
    }
}

pub fn tick(image: &mut [u8; IMAGE], history: &mut [u8]) -> u32
    ensures { (memory picture : List ℕ) → Leaves
        (whole image.old (rules_call.tick (world_of image.old memory picture history.old))) result
        image.new memory picture history.new }
{
    let Standing {
        mut machine,
        mut trail,
    } = image::read(image);
    let outcome = chip8::tick(&mut machine, &mut trail, history);
    image_after::after_call(
        image,
        Answer {
            outcome,
            machine,
            trail,
        },
    )
}

pub fn back(image: &mut [u8; IMAGE], memory: &mut [u8], rows: &mut [u64], history: &[u8]) -> u32
    ensures { Leaves
        (whole image.old
        (rules_call.back (world_of image.old memory.old (bytes_of rows.old) history.now))) result
        image.new memory.new (bytes_of rows.new) history.now }
{
    let Standing {
        mut machine,
        mut trail,
    } = image::read(image);
    let outcome = chip8::back(&mut machine, &mut trail, memory, rows, history);
    image_after::after_call(
        image,
        Answer {
            outcome,
            machine,
            trail,
        },
    )
}

pub fn forward(
    image: &mut [u8; IMAGE],
    memory: &mut [u8],
    rows: &mut [u64],
    history: &mut [u8],
) -> u32
    ensures { Leaves
        (whole image.old
        (rules_call.forward (world_of image.old memory.old (bytes_of rows.old) history.old))) result
        image.new memory.new (bytes_of rows.new) history.new }
{
    let Standing {
        mut machine,
        mut trail,
    } = image::read(image);
    let outcome = chip8::forward(&mut machine, &mut trail, memory, rows, history);
    image_after::after_call(
        image,
        Answer {
            outcome,
            machine,
            trail,
        },
    )
}
