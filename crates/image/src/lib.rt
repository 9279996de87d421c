// A state and its numbers, read from an image of 64 bytes.
#![tactic(auto)]

ghost use Rattle.std.specs.Prelude.{◌≡◌, ◌+◌, ◌*◌, ◌/◌, ◌%◌, ◌<◌, drop, length};
ghost use Rattle.rules.specs.Number.{pick};
ghost use Rattle.rules.specs.State.{zeros};
ghost use Rattle.rules.specs.Memory.{part};
ghost use Rattle.rules.specs.Record.{word_at};
ghost use Rattle.image.specs.Image.{image_size, stack_of, edition_of, in_order, machine_of, trail_of};

use rules::{Edition, Machine, Timers, Trail, Wait};

// How many bytes an image has.
pub const IMAGE: usize = 64;

// A state and the numbers of its history.
#[derive(Clone, Copy)]
pub struct Standing {
    pub machine: Machine,
    pub trail: Trail,
}

// Whether the last bytes, which are kept for later, are 0. They are looked at without a branch: behind one the compiler would read the image
// byte by byte.
fn ends_clear(image: &[u8; IMAGE]) -> bool
    ensures { result ≡ zeros (drop 60 image.now) }
{
    (memory::word_at(image, 60) == 0) & (memory::word_at(image, 62) == 0)
}

// Whether the edition is one of the two, and all that is kept for later 0. An image that is not in order stands for no sound state.
pub fn in_order(image: &[u8; IMAGE]) -> bool
    ensures { result ≡ in_order image.now }
{
    (image[52] <= 1) & (image[53] == 0) & ends_clear(image)
}

fn registers_in(image: &[u8; IMAGE]) -> [u8; 16]
    ensures { result ≡ part image.now 0 16 }
{
    *image.first_chunk().unwrap()
}

// The compiler reads eight entries at once.
fn stack_in(image: &[u8; IMAGE]) -> [u16; Machine::STACK]
    ensures { result ≡ stack_of image.now }
{
    std::array::from_fn(|k| memory::word_at(image, 24 + 2 * k))
}

pub fn edition_of(byte: u8) -> Edition
    ensures { result ≡ edition_of byte }
{
    Edition::try_from(byte).unwrap_or(Edition::First)
}

// The depth; 255, which no sound state has, where the image is not in order.
fn depth_of(order: bool, byte: u8) -> u8
    ensures { result ≡ pick order byte 255 }
{
    if order { byte } else { 255 }
}

#[tactic(auto, unfolding(crate::specs::Image::machine_of))]
fn machine_in(image: &[u8; IMAGE]) -> Machine
    ensures { result ≡ machine_of image.now }
{
    Machine {
        v: registers_in(image),
        i: memory::word_at(image, 16),
        pc: memory::word_at(image, 18),
        stack: stack_in(image),
        depth: depth_of(in_order(image), image[20]),
        timers: Timers {
            delay: image[21],
            tone: image[22],
        },
        wait: Wait::from(image[23]),
        edition: edition_of(image[52]),
        lit: memory::word_at(image, 56),
        end: memory::word_at(image, 58),
    }
}

#[tactic(auto, unfolding(crate::specs::Image::trail_of))]
fn trail_in(image: &[u8; IMAGE]) -> Trail
    ensures { result ≡ trail_of image.now }
{
    Trail {
        next: usize::from(memory::word_at(image, 48)),
        kept: usize::from(memory::word_at(image, 50)),
        ahead: usize::from(memory::word_at(image, 54)),
    }
}

// The state and the numbers that an image stands for.
pub fn read(image: &[u8; IMAGE]) -> Standing
    ensures { (result.machine ≡ machine_of image.now) × (result.trail ≡ trail_of image.now) }
{
    Standing {
        machine: machine_in(image),
        trail: trail_in(image),
    }
}
