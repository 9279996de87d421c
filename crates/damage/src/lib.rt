// Whether a record is damaged: the tests of document 01's list, and the last byte's. The specs of `rules`, Record.antt, say what a record is.
#![tactic(auto)]

ghost use Rattle.std.specs.Prelude.{◌≡◌};
ghost use Rattle.rules.specs.Record.{at_depth};
ghost use Rattle.rules.specs.Record.{byte_at, marked, known, allowed, depth_sound, key_sound, kind_sound, damaged, change_at};

use keeping::PLACE;
use rules::{Change, Machine};

pub fn depth_at(place: &[u8; PLACE]) -> u8
    ensures { result ≡ byte_at place.now at_depth }
{
    place[keeping::AT_DEPTH]
}

fn is_marked(place: &[u8; PLACE], a: u8, b: u8) -> bool
    ensures { result ≡ marked place.now a b }
{
    (place[keeping::AT_MARK] == a) & (place[keeping::AT_MARK + 1] == b)
}

// What the action changed.
pub fn change_at(place: &[u8; PLACE]) -> Change
    ensures { result ≡ change_at place.now }
{
    let start = memory::word_at(place, keeping::AT_START);
    let count = memory::word_at(place, keeping::AT_COUNT);
    if is_marked(place, b'M', b'E') {
        return Change::InMemory(start, count);
    }
    if is_marked(place, b'D', b'I') {
        return Change::InPicture(start, count);
    }
    Change::Nothing
}

// The change is no longer than its mark allows, and inside memory, which has that end, or the picture.
fn is_allowed(c: Change, end: u16) -> bool
    ensures { result ≡ allowed end c }
{
    match c {
        Change::Nothing => true,
        Change::InMemory(s, n) => (1 <= n) & (n <= 16) & (s as usize + n as usize <= end as usize),
        Change::InPicture(s, n) => (1 <= n)
            & (n as usize <= Machine::PICTURE)
            & (s as usize + n as usize <= Machine::PICTURE),
    }
}

// The mark is known, and NO has no start and no count.
fn is_known(place: &[u8; PLACE]) -> bool
    ensures { result ≡ known place.now }
{
    let start = memory::word_at(place, keeping::AT_START);
    let count = memory::word_at(place, keeping::AT_COUNT);
    is_marked(place, b'M', b'E')
        | is_marked(place, b'D', b'I')
        | (is_marked(place, b'N', b'O') & (start == 0) & (count == 0))
}

// At most one away from the present depth; an empty stack has no return address.
fn depth_sound(place: &[u8; PLACE], present: u8) -> bool
    ensures { result ≡ depth_sound place.now present }
{
    let depth = depth_at(place);
    let last = memory::word_at(place, keeping::AT_LAST);
    (depth as usize <= Machine::STACK)
        & (depth.saturating_sub(present) <= 1)
        & (present.saturating_sub(depth) <= 1)
        & ((depth != 0) | (last == 0))
}

fn key_sound(place: &[u8; PLACE]) -> bool
    ensures { result ≡ key_sound place.now }
{
    (place[keeping::AT_HELD] <= 15) | (place[keeping::AT_HELD] == 0xFF)
}

// The last byte is that of a step or of a tick.
pub fn kind_sound(place: &[u8; PLACE]) -> bool
    ensures { result ≡ kind_sound place.now }
{
    place[keeping::AT_KIND] <= 1
}

// Whether a record is damaged, beside a state of that end and the present depth.
pub fn is_damaged(place: &[u8; PLACE], end: u16, present: u8) -> bool
    ensures { result ≡ damaged end place.now present }
{
    !(is_known(place)
        & is_allowed(change_at(place), end)
        & depth_sound(place, present)
        & key_sound(place)
        & kind_sound(place))
}
