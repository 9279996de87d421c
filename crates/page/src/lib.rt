// The page of variables as bytes: each is one line of one digit's pattern, or dark.
#![tactic(auto)]

ghost use Rattle.std.specs.Prelude.{◌≡◌, ◌<◌};
ghost use Rattle.page.specs.Bytes as spec;

use rules::Machine;

// Byte k of the 18 that are shown: V0 to VF, and then PC, its high byte first.
fn value(v: &[u8; 16], pc: u16, k: usize) -> u8
    requires { k < 18 }
    ensures { result ≡ spec.value v.now pc k }
{
    if k < 16 {
        return v[k];
    }
    pc.to_be_bytes()[k - 16]
}

// One of a byte's two digits, the high one first.
fn digit(b: u8, side: usize) -> u8
    ensures { (result ≡ spec.digit b side) × (result < 16) }
{
    if side == 0 {
        return b / 16;
    }
    b % 16
}

// Byte `at` of the page. Patterns stand at columns 0, 8 and so on, so it is one line of one pattern, or dark. A pattern row has six lines
// of eight bytes, and a pattern five, so the last line is dark; it shows four values.
fn page_byte(v: &[u8; 16], pc: u16, at: usize) -> u8
    requires { at < 256 }
    ensures { result ≡ spec.page_byte v.now pc at }
{
    let line = (at / 8 % 6) as u8;
    let place = 4 * (at / 48) + at % 8 / 2;
    if 18 <= place {
        return 0;
    }
    chip8::shape_line(digit(value(v, pc, place), at % 2), line)
}

// Every byte of the page takes the place of what stood there: no old spot is left.
pub fn fill(v: &[u8; 16], pc: u16, page: &mut [u8; Machine::PICTURE])
    ensures { page.new ≡ spec.page_of v.now pc }
{
    for at in 0..Machine::PICTURE {
        page[at] = page_byte(v, pc, at);
    }
}
