// Text that the programs write. A function that pushes appends to a text of the caller's, and one that puts lays the same into a buffer of bytes
// and answers the index after it, where the next goes on. Either is to have room for it.
// Digit by digit, and not by `write!`: it promises its bytes only where it answers `Ok`, and these functions cannot fail.
#![tactic(auto)]

ghost use Rattle.std.specs.Prelude.{◌≡◌, ◌∷◌, ◌++◌, ◌+◌, ◌≤◌, ◌<◌, length};
ghost use Rattle.arrayvec.specs.ArrayString.{array_string_len};
ghost use Rattle.text.specs.Put.{Put};
ghost use Rattle.text.specs.Text.{space, glyph_of, hex_of, wide_hex_of, decimal_of};

use arrayvec::ArrayString;
use itoa::Buffer;

// ---- onto a text

// A digit, as its ASCII code.
fn glyph(digit: u8) -> u8
    requires { digit < 16 }
    ensures value { result ≡ glyph_of digit }
    ensures ascii { result < 128 }
{
    if digit < 10 {
        b'0' + digit
    } else {
        b'A' - 10 + digit
    }
}

// The two hex digits of a byte.
fn push_digits<const N: usize>(out: &mut ArrayString<N>, n: u8)
    requires { array_string_len out.old + 2 ≤ N }
    ensures { out.new.bytes ≡ out.old.bytes ++ hex_of n }
{
    out.push(char::from(glyph(n / 16)));
    out.push(char::from(glyph(n % 16)));
}

// A space, and a byte in hex.
pub fn push_hex<const N: usize>(out: &mut ArrayString<N>, n: u8)
    requires { array_string_len out.old + 3 ≤ N }
    ensures { out.new.bytes ≡ out.old.bytes ++ space ∷ hex_of n }
{
    out.push(' ');
    push_digits(out, n);
}

// A space, and a number of 16 bits in hex.
pub fn push_wide_hex<const N: usize>(out: &mut ArrayString<N>, n: u16)
    requires { array_string_len out.old + 5 ≤ N }
    ensures { out.new.bytes ≡ out.old.bytes ++ space ∷ wide_hex_of n }
{
    let [high, low] = n.to_be_bytes();
    push_hex(out, high);
    push_digits(out, low);
}

// A byte in decimal, with no space before it.
pub fn push_decimal<const N: usize>(out: &mut ArrayString<N>, n: u8)
    requires { array_string_len out.old + 3 ≤ N }
    ensures bytes { out.new.bytes ≡ out.old.bytes ++ decimal_of n }
    ensures len { array_string_len out.new ≤ array_string_len out.old + 3 }
{
    out.push_str(Buffer::new().format(n));
}

// ---- into a buffer

// Bytes as they are.
pub fn put(out: &mut [u8], at: usize, new: &[u8]) -> usize
    requires { at + length new.now ≤ length out.old }
    ensures { Put new.now out.old at out.new result }
{
    memory::lay(out, at, new);
    at + new.len()
}

pub fn put_hex(out: &mut [u8], at: usize, n: u8) -> usize
    requires { at + 3 ≤ length out.old }
    ensures { Put (space ∷ hex_of n) out.old at out.new result }
{
    let mut text = ArrayString::<3>::new();
    push_hex(&mut text, n);
    put(out, at, text.as_bytes())
}

pub fn put_wide_hex(out: &mut [u8], at: usize, n: u16) -> usize
    requires { at + 5 ≤ length out.old }
    ensures { Put (space ∷ wide_hex_of n) out.old at out.new result }
{
    let mut text = ArrayString::<5>::new();
    push_wide_hex(&mut text, n);
    put(out, at, text.as_bytes())
}

pub fn put_decimal(out: &mut [u8], at: usize, n: u8) -> usize
    requires { at + 3 ≤ length out.old }
    ensures put { Put (decimal_of n) out.old at out.new result }
    ensures upper_bound { result ≤ at + 3 }
{
    let mut text = ArrayString::<3>::new();
    push_decimal(&mut text, n);
    put(out, at, text.as_bytes())
}
