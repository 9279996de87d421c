// A pattern drawn into the picture: its rows are kept and turned over in one pass, and counted. The column and the row of its corner are two
// numbers, as the rules' `drawn` takes them: a type for both would be taken apart in every contract.
#![tactic(auto)]

ghost use Rattle.std.specs.Prelude.{◌≡◌, ◌+◌, ◌-◌, ◌*◌, ◌≤◌, ◌<◌, min, length};
ghost use Rattle.rules.specs.Memory.{part, over};
ghost use Rattle.rules.specs.Picture.{drawn};
ghost use Rattle.rules.specs.Step.{row_bytes};
ghost use Rattle.rules.specs.Rows.{bytes_of};
ghost use Rattle.picture.specs.Sums.{between};
ghost use Rattle.pattern.specs.Masks.{met_at, shows_at};
ghost use Rattle.drawing.specs.Turned.{Turned};
ghost use Rattle.drawing.specs.Turns.{Turns};

use picture::Spots;
use rules::Machine;

// At most eight rows of the pattern. Each row is kept, as its eight bytes, and turned over; the lit spots that it had under the pattern, and all
// that the pattern shows in it, are gathered. Those of all rows fit one number each, and are counted at the end.
fn eight(
    rows: &mut [u64; Machine::ROWS],
    place: &mut [u8],
    at: usize,
    pattern: &[u8],
    column: usize,
    row: usize,
    from: usize,
    to: usize,
) -> Spots
    requires in_picture { (column < 64) × (row ≤ from) × (to ≤ 32) × (to ≤ row + length pattern.now) }
    requires from_le_to { (from ≤ to) × (to ≤ from + 8) × (at + 8 * (to - from) ≤ length place.old) }
    ensures turned { Turned pattern.now column row from to rows.old rows.new }
    ensures place_after { place.new
        ≡ over place.old at (part (bytes_of rows.old) (8 * from) (8 * (to - from))) (8 * (to - from)) }
    ensures dark_value { (result.dark ≡ between (met_at pattern.now column row rows.old) from to)
        × (result.dark + result.lit ≡ between (shows_at pattern.now column row) from to) }
    ensures dark_bound { (result.dark ≤ 64) × (result.dark + result.lit ≤ 8 * (to - from)) }
{
    let mut met = 0;
    let mut shown = 0;
    for y in from..to {
        let mask = pattern::mask_of(u64::from(pattern[y - row]), column);
        let n = rows[y];
        memory::lay_eight(place, at + 8 * (y - from), n);
        shown = pattern::gather(shown, mask);
        met = pattern::gather(met, n & mask);
        rows[y] = n ^ mask;
    }
    let dark = picture::ones_in(met);
    Spots {
        dark,
        lit: picture::ones_in(shown) - dark,
    }
}

// Draws the pattern with its upper left corner in that column and row, and says what that turned over. The rows as they were are laid into
// a place for them, from `at` on: so each is read once, and a step passes over them once. More than eight rows are drawn in two parts.
pub fn draw(
    rows: &mut [u64; Machine::ROWS],
    place: &mut [u8],
    at: usize,
    pattern: &[u8],
    column: usize,
    row: usize,
) -> Spots
    requires { (column < 64) × (row < 32) × (length pattern.now ≤ 16) × (at + 128 ≤ length place.old) }
    ensures rows_after { bytes_of rows.new ≡ drawn pattern.now column row (bytes_of rows.old) }
    ensures place_after { place.new ≡ over place.old at
        (part (bytes_of rows.old) (8 * row) (row_bytes (length pattern.now) row)) (row_bytes (length pattern.now) row) }
    ensures turns { Turns pattern.now column row (bytes_of rows.old) result }
{
    let end = row + pattern.len().min(Machine::ROWS - row);
    let middle = row + 8;
    if middle < end {
        let upper = eight(rows, place, at, pattern, column, row, row, middle);
        let lower = eight(rows, place, at + 64, pattern, column, row, middle, end);
        return Spots {
            dark: upper.dark + lower.dark,
            lit: upper.lit + lower.lit,
        };
    }
    eight(rows, place, at, pattern, column, row, row, end)
}

// What drawing the pattern there would turn over. It is counted row by row, and nothing is written.
pub fn would_turn(rows: &[u64; Machine::ROWS], pattern: &[u8], column: usize, row: usize) -> Spots
    requires { (column < 64) × (row < 32) × (length pattern.now ≤ 16) }
    ensures { Turns pattern.now column row (bytes_of rows.now) result }
{
    let all = pattern.len().min(Machine::ROWS - row);
    let mut dark = 0;
    let mut shown = 0;
    for k in 0..all {
        let mask = pattern::mask_of(u64::from(pattern[k]), column);
        dark += picture::ones_in(rows[row + k] & mask);
        shown += picture::ones_in(mask);
    }
    Spots {
        dark,
        lit: shown - dark,
    }
}
