// The longest unbroken row of sound records in a history, from the newest backwards. The specs say what is right.
#![tactic(auto)]

ghost use Rattle.std.specs.Prelude.{◌≡◌, ◌<◌};
ghost use Rattle.rules.specs.World as fit;
ghost use Rattle.salvage_row.specs.Row as rule;

// How many of the kept records, from the newest backwards, are sound up to the first damaged one, where memory has that end. The newest is
// compared with the present depth, and each older one with the depth of the next newer.
pub fn row_length(history: &[u8], end: u16, kept: usize, next: usize, depth: u8) -> usize
    requires { next < fit.places history.now }
    ensures { result ≡ rule.row end history.now kept next depth }
{
    let places = fitting::places(history);
    let mut n = next;
    let mut d = depth;
    for k in 0..kept {
        let p = trail::place_before(n, places);
        let place = keeping::place(history, p);
        if damage::is_damaged(place, end, d) {
            return k;
        }
        d = damage::depth_at(place);
        n = p;
    }
    kept
}
