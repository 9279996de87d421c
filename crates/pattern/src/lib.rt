// A pattern on rows: a byte of it laid into a row, and the spots of up to eight rows gathered in one number.
#![tactic(auto)]

ghost use Rattle.std.specs.Prelude.{◌≡◌, ◌<◌};
ghost use Rattle.std.specs.Int.Bits.{bit_or};
ghost use Rattle.pattern.specs.Masks.{mask_of, rolled};

// A byte of a pattern laid into a row. What passes the last column falls out, so the right edge is no case of its own.
pub fn mask_of(p: u64, column: usize) -> u64
    requires { (p < 256) × (column < 64) }
    ensures { result ≡ mask_of p column }
{
    (p << 56) >> column
}

// Spots of one more row, which lie in the eight columns of a pattern, join those of the rows before it. These are moved on by eight first, round
// and round, so that the row finds its columns free: eight rows fill a number, and are counted at once.
pub fn gather(d: u64, spots: u64) -> u64
    ensures { result ≡ bit_or (rolled d) spots }
{
    d.rotate_left(8) | spots
}
