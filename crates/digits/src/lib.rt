// The sixteen digits, laid out from overlapping bytes: the chip's constant store is nearly full, and digits have bytes in common.
#![tactic(auto)]

ghost use Rattle.std.specs.Prelude.{◌≡◌, true, ◌+◌, ◌*◌, ◌/◌, ◌%◌, ◌≤◌, ◌<◌, ltb, length, get_or};
ghost use Rattle.digits.specs.Table.{are_digits};
ghost use Rattle.rules.specs.Number.{pick};
ghost use Rattle.rules.specs.Memory.{over};
ghost use Rattle.rules.specs.Load.{digits};

// How many bytes of memory a digit takes up, and how many all sixteen.
const EACH: usize = 5;

pub const SIZE: usize = 16 * EACH;

// All digits in 51 bytes, and no table of them is shorter. A digit's name stands where its five bytes begin.
//
// Three bytes are shared by E and F, F and C, 6 and 8, 8 and 9, 9 and 2, 2 and 5, 5 and 3, A and 0. One byte, an F0, is shared by D and
// E, C and B, B and 6, 3 and A, 0 and 7; and by E and C, 6 and 9, 8 and 2, 9 and 5, 2 and 3, which meet within the digit between them.
// 4 and 1 share none.
const TABLE: [u8; 51] = [
    0xF0, // D
    0x50, 0x50, 0x50, 0xF0, // E
    0x80, 0xF0, // F
    0x80, 0xF0, // C
    0x80, 0x80, 0x80, 0xF0, // B
    0x50, 0x70, 0x50, 0xF0, // 6
    0x80, 0xF0, // 8
    0x90, 0xF0, // 9
    0x90, 0xF0, // 2
    0x10, 0xF0, // 5
    0x80, 0xF0, // 3
    0x10, 0xF0, 0x10, 0xF0, // A
    0x90, 0xF0, // 0
    0x90, 0x90, 0x90, 0xF0, // 7
    0x10, 0x10, 0x10, 0x10, 0xA0, // 4
    0xA0, 0xF0, 0x20, 0x20, 0x60, // 1
    0x20, 0x20, 0x20, 0x70,
];

// Where each digit begins in the table.
const STARTS: [u8; 16] = [32, 46, 22, 26, 41, 24, 16, 36, 18, 20, 30, 12, 8, 0, 4, 6];

// The byte of the digits at `at`. It is right for every table that passes the test `are_digits`.
fn digit_byte(at: usize, table: &[u8], starts: &[u8]) -> u8
    requires { (at / 5 < length starts.now) × (are_digits table.now 0 starts.now ≡ true) }
    ensures { result ≡ get_or digits at 0 }
{
    let start = usize::from(starts[at / EACH]);
    table[start + at % EACH]
}

// A line of a digit's published shape, from the top one, 0, on; below the last it is dark. For whoever shows a digit and is lent no
// memory to read it from.
pub fn shape_line(digit: u8, line: u8) -> u8
    ensures { result ≡ pick (ltb line 5) (get_or digits (5 * (digit % 16) + line) 0) 0 }
{
    let line = usize::from(line);
    if line < EACH {
        return digit_byte(EACH * usize::from(digit % 16) + line, &TABLE, &STARTS);
    }
    0
}

// The digits to the beginning of memory, byte by byte. A loop over the sixteen digits is short enough for the compiler to unroll it
// whole, and then all eighty bytes stand in the archive again.
pub fn lay_digits(memory: &mut [u8])
    requires { 80 ≤ length memory.old }
    ensures { memory.new ≡ over memory.old 0 digits 80 }
{
    for at in 0..SIZE {
        memory[at] = digit_byte(at, &TABLE, &STARTS);
    }
}
