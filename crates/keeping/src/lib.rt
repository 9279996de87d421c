// A history's records, written. The specs of `rules`, Record.antt, say what a record is.
#![tactic(auto)]

ghost use Rattle.std.specs.Prelude.{◌≡◌, List, ℕ, ◌+◌, ◌-◌, ◌*◌, ◌≤◌, length, take, replicate};
ghost use Rattle.keeping.specs.Writable.{blank, Reaches};
ghost use Rattle.rules.specs.Memory.{part, over};
ghost use Rattle.rules.specs.State.{stack_size};
ghost use Rattle.rules.specs.declared.Change.TheVariants.{Nothing};
ghost use Rattle.rules.specs.Record.{place_size, at_v, at_i, at_start, at_old, at_keys, count, old, fields};
ghost use Rattle.rules.specs.Rows.{bytes_of};
ghost use Rattle.parts.specs.Whole.{whole};

use parts::Core;
use rules::{Action, Change, Machine};

// How many bytes a place has, and where each part of its record begins.
pub const PLACE: usize = 292;

pub const AT_MARK: usize = 0;

pub const AT_V: usize = 2;

pub const AT_I: usize = 18;

pub const AT_PC: usize = 20;

pub const AT_DEPTH: usize = 22;

pub const AT_LAST: usize = 23;

pub const AT_DELAY: usize = 25;

pub const AT_TONE: usize = 26;

pub const AT_HELD: usize = 27;

pub const AT_START: usize = 28;

pub const AT_COUNT: usize = 30;

pub const AT_OLD: usize = 32;

pub const AT_KEYS: usize = 288;

pub const AT_RANDOM: usize = 290;

pub const AT_KIND: usize = 291;

// The place p of a history.
pub fn place(history: &[u8], p: usize) -> &[u8; PLACE]
    requires { place_size * p + place_size ≤ length history.now }
    ensures { result.now ≡ part history.now (place_size * p) place_size }
{
    history[PLACE * p..].first_chunk().unwrap()
}

// What lies between the variables and the old bytes, but for the last four. Byte by byte it would take nearly as many stores as all the zeros.
fn lay_state(place: &mut [u8; PLACE], c: Core, stack: &[u16; Machine::STACK])
    requires { c.depth ≤ stack_size }
    ensures { (v : List ℕ) (change : Change) → place.new ≡ over place.old at_i
        (take (at_start - at_i) (fields (whole c v stack.now) change)) (at_start - at_i) }
{
    let last = fields::last_return(c.depth, stack);
    let bytes = fields::tone_and_held(c);
    memory::lay_eight(place, AT_I, fields::first_fields(c, last));
    memory::lay(place, AT_TONE, &bytes);
}

// All of it: the last four are the start and the count of the change.
fn lay_fields(place: &mut [u8; PLACE], c: Core, stack: &[u16; Machine::STACK], change: Change)
    requires { c.depth ≤ stack_size }
    ensures { (v : List ℕ) → place.new ≡ over place.old at_i (fields (whole c v stack.now) change) 14 }
{
    lay_state(place, c, stack);
    let bytes = fields::start_and_count(change);
    memory::lay(place, AT_START, &bytes);
}

// The variables. They come by value, so that they can't lie where the record is written, and sixteen bytes are copied at once.
fn lay_variables(place: &mut [u8; PLACE], v: [u8; 16])
    ensures { place.new ≡ over place.old at_v v 16 }
{
    memory::lay(place, AT_V, &v);
}

// N zeros from a byte of the place on.
fn zeros<const N: usize>(place: &mut [u8; PLACE], from: usize)
    requires { from + N ≤ place_size }
    ensures { place.new ≡ over place.old from (replicate N 0) N }
{
    place[from..from + N].copy_from_slice(&[0; N]);
}

// Zeros up to the inputs, from the old bytes on or from the start on. The compiler lays sixteen at a time, and a quarter of them would reach
// over a line of the cache, since no sixteen bytes of most places begin at a multiple of sixteen. So the middle ones begin `skew` bytes behind
// the old bytes' first, where they do. A skew is at most twelve, so the first sixteen reach that far even if they begin four bytes earlier.
fn clear_from(place: &mut [u8; PLACE], from: usize, skew: usize)
    requires { (at_start ≤ from) × (from ≤ at_old) × (skew ≤ 12) }
    ensures { place.new ≡ over place.old from (replicate (at_keys - from) 0) (at_keys - from) }
{
    zeros::<16>(place, from);
    zeros::<240>(place, AT_OLD + skew);
    zeros::<16>(place, AT_OLD + 240);
}

// Fills a place with a record that has zeros where the old bytes will stand, so that the clearing has a fixed length. The variables come
// last: to read sixteen bytes at once must wait for a byte among them that was just written.
fn write(
    place: &mut [u8; PLACE],
    skew: usize,
    c: Core,
    v: &[u8; 16],
    stack: &[u16; Machine::STACK],
    change: Change,
    action: Action,
)
    requires { (skew ≤ 12) × (c.depth ≤ stack_size) }
    ensures { place.new ≡ blank (whole c v.now stack.now) change action }
{
    let mark = fields::mark_of(change);
    let inputs = fields::inputs_of(action);
    memory::lay(place, AT_MARK, &mark);
    lay_fields(place, c, stack, change);
    clear_from(place, AT_OLD, skew);
    memory::lay(place, AT_KEYS, &inputs);
    lay_variables(place, *v);
}

// The same for a record of no change, whose start and count are cleared with the old bytes. It is a function of its own: where one function takes
// both ways, by its change, a record of a change that is known only as it runs took 204 instructions in place of 170.
fn write_state(
    place: &mut [u8; PLACE],
    skew: usize,
    c: Core,
    v: &[u8; 16],
    stack: &[u16; Machine::STACK],
    action: Action,
)
    requires { (skew ≤ 12) × (c.depth ≤ stack_size) }
    ensures { place.new ≡ blank (whole c v.now stack.now) Nothing action }
{
    let mark = fields::mark_of(Change::Nothing);
    let inputs = fields::inputs_of(action);
    memory::lay(place, AT_MARK, &mark);
    lay_state(place, c, stack);
    clear_from(place, AT_START, skew);
    memory::lay(place, AT_KEYS, &inputs);
    lay_variables(place, *v);
}

// Writes the record of a machine, a change and an action into the place `next` of a history, all but the old bytes.
pub fn keep(
    history: &mut [u8],
    next: usize,
    c: Core,
    v: &[u8; 16],
    stack: &[u16; Machine::STACK],
    change: Change,
    action: Action,
)
    requires { (place_size * next + place_size ≤ length history.old) × (c.depth ≤ stack_size) }
    ensures { history.new ≡ over history.old (place_size * next)
        (blank (whole c v.now stack.now) change action) place_size }
{
    // From the old bytes of this place on, so many bytes lead to the next multiple of sixteen in the history.
    let skew = 12 * next % 16;
    // The place is cut out at both ends, so its length is known to the compiler, and no test of it is left in a run.
    let (_, rest) = history.split_at_mut(PLACE * next);
    let (place, _) = rest.split_at_mut(PLACE);
    let place = place.as_mut_array().unwrap();
    write(place, skew, c, v, stack, change, action);
}

// Lays the bytes that are about to change into a place: a part of memory, or whole rows, straight from where they stand. The rows need be
// there only for a change of the picture, so they are a slice.
fn lay_old(place: &mut [u8; PLACE], change: Change, memory: &[u8], rows: &[u64])
    requires { Reaches change memory.now rows.now }
    ensures { place.new ≡ over place.old at_old
        (old change memory.now (bytes_of rows.now)) (count change) }
{
    match change {
        Change::Nothing => {}
        Change::InMemory(start, count) => {
            let from = start as usize;
            let to = from + count as usize;
            memory::lay(place, AT_OLD, &memory[from..to]);
        }
        Change::InPicture(start, count) => {
            let rows = rows.as_array().unwrap();
            picture::lay_rows(place, AT_OLD, rows, start as usize / 8, count as usize / 8);
        }
    }
}

// Lays them into the record that was written into the place `next` of a history.
pub fn keep_old(history: &mut [u8], next: usize, change: Change, memory: &[u8], rows: &[u64])
    requires { (place_size * next + place_size ≤ length history.old) × Reaches change memory.now rows.now }
    ensures { history.new ≡ over history.old (place_size * next + at_old)
        (old change memory.now (bytes_of rows.now)) (count change) }
{
    let (_, rest) = history.split_at_mut(PLACE * next);
    let (place, _) = rest.split_at_mut(PLACE);
    let place = place.as_mut_array().unwrap();
    lay_old(place, change, memory, rows);
}

// Writes the record of an action that changes the state alone.
pub fn keep_state(
    history: &mut [u8],
    next: usize,
    c: Core,
    v: &[u8; 16],
    stack: &[u16; Machine::STACK],
    action: Action,
)
    requires { (place_size * next + place_size ≤ length history.old) × (c.depth ≤ stack_size) }
    ensures { history.new ≡ over history.old (place_size * next)
        (blank (whole c v.now stack.now) Nothing action) place_size }
{
    // The skew depends on the place alone, as in `keep`.
    let skew = 12 * next % 16;
    let (_, rest) = history.split_at_mut(PLACE * next);
    let (place, _) = rest.split_at_mut(PLACE);
    let place = place.as_mut_array().unwrap();
    write_state(place, skew, c, v, stack, action);
}
