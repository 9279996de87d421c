// The places of a history, seen from next: those that hold none of its newest records are cleared, and listed. The specs say what is right.
#![tactic(auto)]

ghost use Rattle.std.specs.Prelude.{◌≡◌, ◌+◌, ◌*◌, ◌≤◌, ◌<◌, length};
ghost use Rattle.rules.specs.Number.{pick};
ghost use Rattle.rules.specs.Record.{place_size};
ghost use Rattle.rules.specs.World as fit;
ghost use Rattle.salvage_places.specs.Places as rule;
ghost use Rattle.salvage_places.specs.Cleared.{without};
ghost use Rattle.salvage_places.specs.Cleared as clearing;
ghost use Rattle.salvage_places.specs.Listed.{entries, laid, entered};
ghost use Rattle.salvage_places.specs.Numbered.{number};

use rules::Trail;

// ---- how a place stands

// How many places stand between a place and next.
fn behind(places: usize, next: usize, p: usize) -> usize
    requires { (next < places) × (p < places) × (places ≤ 224) }
    ensures { result ≡ rule.behind places next p }
{
    if p < next {
        next - p - 1
    } else {
        next + places - p - 1
    }
}

// How many places stand from next up to a place.
fn beyond(places: usize, next: usize, p: usize) -> usize
    requires { (next < places) × (p < places) × (places ≤ 224) }
    ensures { result ≡ rule.beyond places next p }
{
    if p < next {
        p + places - next
    } else {
        p - next
    }
}

// Whether a place holds one of the `row` newest records.
fn in_row(places: usize, next: usize, row: usize, p: usize) -> bool
    requires { (next < places) × (p < places) × (places ≤ 224) }
    ensures { result ≡ rule.in_row places next row p }
{
    behind(places, next, p) < row
}

// As what a place counts.
#[derive(Clone, Copy)]
enum Standing {
    Kept,
    Ahead,
    Free,
}

// Its number, in the list.
impl From<Standing> for u16 {
    ghost from_gives = { λ standing n. n ≡ number standing };

    fn from(standing: Standing) -> u16 {
        match standing {
            Standing::Kept => 0,
            Standing::Ahead => 1,
            Standing::Free => 2,
        }
    }
}

fn standing_of(places: usize, t: Trail, p: usize) -> Standing
    requires { (t.next < places) × (p < places) × (places ≤ 224) }
    ensures { number result ≡ rule.standing places t p }
{
    if in_row(places, t.next, t.kept, p) {
        return Standing::Kept;
    }
    if beyond(places, t.next, p) < t.ahead {
        return Standing::Ahead;
    }
    Standing::Free
}

// ---- the clearing

// Zeros over a place.
fn clear_place(history: &mut [u8], p: usize)
    requires { place_size * p + place_size ≤ length history.old }
    ensures { history.new ≡ without history.old p }
{
    let at = keeping::PLACE * p;
    memory::clear(&mut history[at..at + keeping::PLACE], 0);
}

// Clears a place that does not hold one of the `row` newest records.
fn clear_other(history: &mut [u8], places: usize, next: usize, row: usize, p: usize)
    requires { (next < places) × (p < places) × (places ≤ 224) × (place_size * places ≤ length history.old) }
    ensures { history.new ≡
        pick (rule.in_row places next row p) history.old (without history.old p) }
{
    if in_row(places, next, row, p) {
        return;
    }
    clear_place(history, p);
}

// Clears every place that does not.
pub fn clear_others(history: &mut [u8], next: usize, row: usize)
    requires { (next < fit.places history.old) × (length history.old ≤ 65536) }
    ensures { history.new ≡
        clearing.cleared (rule.others (fit.places history.old) next row) history.old }
{
    let places = fitting::places(history);
    for p in 0..places {
        clear_other(history, places, next, row, p);
    }
}

// ---- the list

// Writes an entry for a place that is cleared, behind `count` of them, and says how many there are then.
fn enter(list: &mut [u16], places: usize, t: Trail, row: usize, p: usize, count: usize) -> usize
    requires { (t.next < places) × (p < places) × (places ≤ 224) × (count < places) × (2 * places ≤ length list.old) }
    ensures value { result ≡ pick (rule.in_row places t.next row p) count (count + 1) }
    ensures list_after { list.new ≡ pick (rule.in_row places t.next row p) list.old
        (entered list.old count p (rule.standing places t p)) }
{
    if in_row(places, t.next, row, p) {
        return count;
    }
    let standing = standing_of(places, t, p);
    list[2 * count] = p as u16;
    list[2 * count + 1] = u16::from(standing);
    count + 1
}

// Writes an entry for each place that is cleared, lowest place first, and says how many there are.
pub fn list_others(list: &mut [u16], places: usize, t: Trail, row: usize) -> usize
    requires { (t.next < places) × (places ≤ 224) × (2 * places ≤ length list.old) }
    ensures value { result ≡ length (rule.others places t.next row) }
    ensures list_after { list.new ≡ laid (entries places t (rule.others places t.next row)) list.old }
{
    let mut count = 0;
    for p in 0..places {
        count = enter(list, places, t, row, p, count);
    }
    count
}
