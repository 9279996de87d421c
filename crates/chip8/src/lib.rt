// The library: the calls that a dock makes. Each may be handed anything, ends, and gives what the rules define. A refused call hands
// everything back as it came; only a run or a play keeps the actions before a refused one, and a load hands back a fresh state. Each has a
// crate of its own, where its statement stands above its code.
#![tactic(auto)]

// Loads a program for an edition: digits, program and zeros to memory, zeros to the picture and the history.
pub use loading::load;

// Executes one instruction: it is judged, then its record is kept, then it acts.
pub use stepping::step;

// Takes one clock tick.
pub use stepping::tick;

// Goes one action back.
pub use restoring::back;

// Goes one action forward again, after a step back.
pub use repeating::forward;

// For each entry makes the ticks, then a step, up to the first step that is refused.
pub use running::run;

// Makes a list of moves (0 a step, 1 a tick, 2 a step back, 3 a step forward), each on what the last one gave, and answers what
// came of the last.
pub use playing::play;

// Turn the bytes of a picture to the rows that these calls are lent, and back.
pub use turning::{to_bytes, to_rows};

// For what is built above the library: the tests 9 and 10, and what they test: a history's length, a state, and the numbers beside it; how many
// places a history has; and a line of a digit's published shape.
pub use digits::shape_line;
pub use fitting::{history_fits, places};
pub use judge::{soundly, tested};
pub use soundness::is_sound;

// What a load and a run answer beside what they are lent.
pub use parts::{Answer, Ran};
