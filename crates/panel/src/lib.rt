// The card's glass: the picture turned into the panel's dots, two by two for each spot. No dot is looked at by itself.
#![tactic(auto)]

ghost use Rattle.std.specs.Prelude.{◌≡◌, ◌+◌, ◌*◌, ◌/◌, ◌%◌, ◌<◌, get_or, length};
ghost use Rattle.panel.specs.Panel.{twice, Doubles, Shows};
ghost use Rattle.panel.specs.Bytes.{pair, Upper, Repeated, Doubled};

mod table;

use rules::{Machine, Refusal};

// The bytes of the panel.
pub const PANEL: usize = 1024;

// A number of four bytes, from `at` on.
fn put_four(panel: &mut [u8; PANEL], at: usize, n: u32)
    requires { at + 3 < length panel.old }
    ensures { panel.new ≡ pair (pair panel.old at (n / 65536)) (at + 2) (n % 65536) }
{
    panel[at..at + 4].copy_from_slice(&n.to_be_bytes());
}

// Byte k of the picture and the next, doubled, in one number.
fn two_doubled(picture: &[u8; Machine::PICTURE], k: usize, table: &[u16; 256]) -> u32
    requires { (k + 1 < length picture.now) × Doubles table.now }
    ensures { result ≡ 65536 * twice (get_or picture.now k 0) + twice (get_or picture.now (k + 1) 0) }
{
    let high = table::doubled(table, picture[k]);
    let low = table::doubled(table, picture[k + 1]);
    65536 * u32::from(high) + u32::from(low)
}

// Every byte of the picture, doubled, in the upper of the two rows that it fills: two of them at a time.
fn fill_upper(picture: &[u8; Machine::PICTURE], panel: &mut [u8; PANEL], table: &[u16; 256])
    requires { Doubles table.now }
    ensures { Upper picture.now panel.new 256 }
{
    for two in 0..Machine::PICTURE / 2 {
        let k = 2 * two;
        put_four(
            panel,
            32 * (k / 8) + 2 * (k % 8),
            two_doubled(picture, k, table),
        );
    }
}

// The upper of the two rows of pair y once more, as the lower.
fn repeat_row(panel: &mut [u8; PANEL], y: usize)
    requires { y < 32 }
    ensures { Repeated panel.old y panel.new }
{
    let (upper, lower) = panel.split_at_mut(32 * y + 16);
    lower[..16].copy_from_slice(&upper[32 * y..]);
}

// Every row.
fn repeat_rows(panel: &mut [u8; PANEL])
    ensures { Doubled panel.old 32 panel.new }
{
    for y in 0..Machine::ROWS {
        repeat_row(panel, y);
    }
}

// Turns the picture into the panel.
pub fn panel(picture: &[u8], panel: &mut [u8]) -> Result<(), Refusal>
    ensures { Shows picture.now panel.old result panel.new }
{
    let Some(picture) = picture.as_array() else {
        return Err(Refusal::BufferLength);
    };
    let Some(panel) = panel.as_mut_array() else {
        return Err(Refusal::BufferLength);
    };
    fill_upper(picture, panel, &table::DOUBLED);
    repeat_rows(panel);
    Ok(())
}
