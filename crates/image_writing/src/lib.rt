// The image of a state and its numbers, written piece by piece from its beginning: the variables, and then six times four numbers of two bytes.
#![tactic(auto)]

ghost use Rattle.std.specs.Prelude.{◌≡◌, [], ◌∷◌, ◌++◌, ◌+◌, ◌≤◌, replicate};
ghost use Rattle.rules.specs.Number.{word};
ghost use Rattle.rules.specs.Rows.{eight_of};
ghost use Rattle.image.specs.Image.{image_size, middle, six_from, numbers, edition_byte, image_of};
ghost use Rattle.image_writing.specs.Laid.{Stands};

use image::IMAGE;
use rules::{Edition, Machine, Trail};

// Two bytes as one number.
fn pair(high: u8, low: u8) -> u16
    ensures { word result ≡ high ∷ low ∷ [] }
{
    u16::from_be_bytes([high, low])
}

// Four numbers of two bytes as one of eight.
fn four_of(a: u16, b: u16, c: u16, d: u16) -> u64
    ensures { eight_of result ≡ word a ++ word b ++ word c ++ word d }
{
    u64::from(a) * 0x1_0000_0000_0000
        + u64::from(b) * 0x1_0000_0000
        + u64::from(c) * 0x1_0000
        + u64::from(d)
}

// The variables come by value, so that they can't lie where they are written.
fn lay_variables(image: &mut [u8; IMAGE], v: [u8; 16])
    ensures { Stands v image.old 0 image.new 16 }
{
    *image.first_chunk_mut().unwrap() = v;
}

// Four numbers of two bytes, which are one store. What stands behind them is laid later.
fn lay_four(image: &mut [u8; IMAGE], at: usize, a: u16, b: u16, c: u16, d: u16)
    requires { at + 8 ≤ image_size }
    ensures { Stands (word a ++ word b ++ word c ++ word d) image.old at image.new (at + 8) }
{
    memory::lay_eight(image, at, four_of(a, b, c, d));
}

// The middle, behind the variables.
fn lay_middle(image: &mut [u8; IMAGE], m: Machine)
    ensures { Stands (middle m) image.old 16 image.new 24 }
{
    lay_four(
        image,
        16,
        m.i,
        m.pc,
        pair(m.depth, m.timers.delay),
        pair(m.timers.tone, u8::from(m.wait)),
    );
}

fn lay_stack(image: &mut [u8; IMAGE], s: [u16; Machine::STACK])
    ensures { Stands (six_from 0 s ++ six_from 6 s) image.old 24 image.new 48 }
{
    lay_four(image, 24, s[0], s[1], s[2], s[3]);
    lay_four(image, 32, s[4], s[5], s[6], s[7]);
    lay_four(image, 40, s[8], s[9], s[10], s[11]);
}

// Next and kept, the edition, and ahead.
fn lay_numbers(image: &mut [u8; IMAGE], edition: Edition, t: Trail)
    ensures { Stands (numbers t ++ (edition_byte edition ∷ 0 ∷ []) ++ word t.ahead) image.old 48 image.new 56 }
{
    lay_four(
        image,
        48,
        (t.next % 65536) as u16,
        (t.kept % 65536) as u16,
        pair(u8::from(edition), 0),
        (t.ahead % 65536) as u16,
    );
}

// The number of lit spots, the end of memory, and zeros.
fn lay_end(image: &mut [u8; IMAGE], lit: u16, end: u16)
    ensures { Stands (word lit ++ word end ++ replicate 4 0) image.old 56 image.new 64 }
{
    lay_four(image, 56, lit, end, 0, 0);
}

// Writes the image of a state and its numbers.
pub fn write(image: &mut [u8; IMAGE], m: Machine, t: Trail)
    ensures { image.new ≡ image_of m t }
{
    lay_variables(image, m.v);
    lay_middle(image, m);
    lay_stack(image, m.stack);
    lay_numbers(image, m.edition, t);
    lay_end(image, m.lit, m.end);
}
