// The picture as the plain engine has it: 2,048 spots, one byte for each, 0 dark and 1 lit. Spot 0 is the upper left corner, spot 63 ends the
// top row, spot 64 begins the row beneath it: the spot in column x of row y has the number 64 * y + x. Everything here is done spot by spot.
// That they are 2,048 and each 0 or 1 is asked of the bytes (`AreSpots`) and is no type's: they are C's, lent for the length of a call.
#![tactic(auto)]

ghost use Rattle.std.specs.Prelude.{◌≡◌, ◌+◌, ◌/◌, ◌%◌, ◌≤◌, ◌<◌, min, replicate};
ghost use Rattle.std.specs.Int.Bits.{differ};
ghost use Rattle.rules.specs.State.{picture_size, spot_count};
ghost use Rattle.rules.specs.Picture as rule;
ghost use Rattle.spots.specs.Spots.{spot_at, picture_of, all_spots, AreSpots};

use rules::Machine;

// Whether each of them is 0 or 1.
pub fn are_spots(spots: &[u8]) -> bool
    ensures { result ≡ all_spots spots.now }
{
    spots.iter().all(|s| *s <= 1)
}

// ---- one spot

// What a pattern shows in column x of row y: its bit there, where it lies with its upper left corner in the given column and row, and 0 where
// it does not reach. A pattern is eight spots wide and a byte for each row, highest bit leftmost. It is never asked for a column past 63
// or a row past 31, so what lies past the right or the bottom edge is dropped, and comes in nowhere else.
fn shown(pattern: &[u8], column: usize, row: usize, x: usize, y: usize) -> u8
    requires { (column < 64) × (row < 32) × (x < 64) × (y < 32) }
    ensures { (result ≡ rule.shown pattern.now column row x y) × (result < 2) }
{
    if x < column {
        return 0;
    }
    if column + 8 <= x {
        return 0;
    }
    if y < row {
        return 0;
    }
    if pattern.len() <= y - row {
        return 0;
    }
    (pattern[y - row] >> (7 - (x - column))) % 2
}

// Spot s as the drawing of a pattern leaves it: a 1 of the pattern turns it over, and a 0 leaves it.
fn turned(spots: &[u8], pattern: &[u8], column: usize, row: usize, s: usize) -> u8
    requires { AreSpots spots.now × (column < 64) × (row < 32) × (s < spot_count) }
    ensures { (result ≡ differ (spot_at spots.now (s % 64) (s / 64))
        (rule.shown pattern.now column row (s % 64) (s / 64))) × (result < 2) }
{
    if spots[s] == shown(pattern, column, row, s % 64, s / 64) {
        return 0;
    }
    1
}

// 1 where spot s is lit and the pattern shows a 1 there, so that a drawing darkens it, and else 0.
fn met(spots: &[u8], pattern: &[u8], column: usize, row: usize, s: usize) -> u8
    requires { AreSpots spots.now × (column < 64) × (row < 32) × (s < spot_count) }
    ensures { (result ≡ min (spot_at spots.now (s % 64) (s / 64))
        (rule.shown pattern.now column row (s % 64) (s / 64))) × (result < 2) }
{
    if spots[s] == 0 {
        return 0;
    }
    shown(pattern, column, row, s % 64, s / 64)
}

// ---- all of them

// How many are lit.
pub fn lit(spots: &[u8]) -> usize
    requires { AreSpots spots.now }
    ensures { (result ≡ rule.lit_spots (picture_of spots.now)) × (result ≤ spot_count) }
{
    spots.iter().map(|s| usize::from(*s)).sum()
}

// How many would be lit after a drawing. Nothing is drawn yet.
pub fn lit_after(spots: &[u8], pattern: &[u8], column: usize, row: usize) -> usize
    requires { AreSpots spots.now × (column < 64) × (row < 32) }
    ensures { (result ≡ rule.lit_spots (rule.drawn pattern.now column row (picture_of spots.now)))
        × (result ≤ spot_count) }
{
    let mut count = 0;
    for s in 0..Machine::SPOTS {
        count += usize::from(turned(spots, pattern, column, row, s));
    }
    count
}

// How many lit spots a drawing would darken.
pub fn darkened(spots: &[u8], pattern: &[u8], column: usize, row: usize) -> usize
    requires { AreSpots spots.now × (column < 64) × (row < 32) }
    ensures { result ≡ rule.darkened pattern.now column row (picture_of spots.now) }
{
    let mut count = 0;
    for s in 0..Machine::SPOTS {
        count += usize::from(met(spots, pattern, column, row, s));
    }
    count
}

// Draws a pattern.
pub fn draw(spots: &mut [u8], pattern: &[u8], column: usize, row: usize)
    requires { AreSpots spots.old × (column < 64) × (row < 32) }
    ensures { (picture_of spots.new ≡ rule.drawn pattern.now column row (picture_of spots.old))
        × AreSpots spots.new }
{
    for s in 0..Machine::SPOTS {
        spots[s] = turned(spots, pattern, column, row, s);
    }
}

// Darkens every spot.
pub fn erase(spots: &mut [u8])
    requires { AreSpots spots.old }
    ensures { (picture_of spots.new ≡ replicate picture_size 0) × AreSpots spots.new }
{
    spots.fill(0);
}
