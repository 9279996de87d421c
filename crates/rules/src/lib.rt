// The types that the rules of the card speak of. What the rules say is in specs/, read in the order of its Lib.antt.
#![tactic(auto)]

ghost use Rattle.std.specs.Prelude.{◌≡◌};
ghost use Rattle.rules.specs.Byte as byte;
ghost use Rattle.rules.specs.Record as record_of;
ghost use Rattle.rules.specs.Refusal as refusal;
ghost use Rattle.rules.specs.State as state;

// The delay timer and the tone timer.
#[derive(Clone, Copy)]
pub struct Timers {
    pub delay: u8,
    pub tone: u8,
}

// What FX0A waits for: no key yet, or the release of the key that is held. Not an Option: the rules name the two states (`held_sound`,
// `held_byte`, `awaited`), and each stands as a byte of its own in a record and in an image.
#[derive(Clone, Copy)]
pub enum Wait {
    Idle,
    Held(u8),
}

// Its byte, in a record and in an image: the key that is held, and FF for none.
impl From<Wait> for u8 {
    ghost from_gives = { λ wait b. b ≡ record_of.held_byte wait };

    fn from(wait: Wait) -> u8 {
        match wait {
            Wait::Idle => 0xFF,
            Wait::Held(key) => key,
        }
    }
}

impl From<u8> for Wait {
    ghost from_gives = { λ b wait. wait ≡ byte.wait_of b };

    fn from(b: u8) -> Wait {
        match b {
            0xFF => Wait::Idle,
            key => Wait::Held(key),
        }
    }
}

// The edition of the instruction set: the second has four operations more.
#[derive(Clone, Copy)]
pub enum Edition {
    First,
    Second,
}

impl From<Edition> for u8 {
    ghost from_gives = { λ edition b. b ≡ byte.edition_byte edition };

    fn from(edition: Edition) -> u8 {
        match edition {
            Edition::First => 0,
            Edition::Second => 1,
        }
    }
}

// A byte that names no edition is refused as an unsound state is.
impl TryFrom<u8> for Edition {
    type Error = Refusal;

    ghost try_from_gives = { λ b edition. edition ≡ byte.edition_named b };

    fn try_from(b: u8) -> Result<Edition, Refusal> {
        match b {
            0 => Ok(Edition::First),
            1 => Ok(Edition::Second),
            _ => Err(Refusal::Unsound),
        }
    }
}

// The machine's state, with the edition and the end of memory that a load chose and the number of lit spots of the picture.
#[derive(Clone, Copy)]
pub struct Machine {
    pub v: [u8; 16],
    pub i: u16,
    pub pc: u16,
    pub stack: [u16; Machine::STACK],
    pub depth: u8,
    pub timers: Timers,
    pub wait: Wait,
    pub edition: Edition,
    pub lit: u16,
    pub end: u16,
}

impl Machine {
    // The bytes of lent memory, where memory ends in the 2K profile, the bytes, the rows and the spots of the picture, the entries of the stack, the
    // address that a program is loaded at, and the fewest bytes that are too many for one, whatever the end is: a reader that takes so many sees that
    // a program is too long.
    pub const MEMORY: usize = 4096;

    pub const SMALL_END: usize = 1696;

    pub const PICTURE: usize = 256;

    pub const ROWS: usize = 32;

    pub const SPOTS: usize = 8 * Machine::PICTURE;

    pub const STACK: usize = 12;

    pub const START: usize = 512;

    pub const TOO_LONG: usize = Machine::MEMORY - Machine::START + 1;

    // The state after a load of that edition and that end.
    pub fn fresh(edition: Edition, end: u16) -> Machine
        ensures { result ≡ state.fresh edition end }
    {
        Machine {
            v: [0; 16],
            i: 0,
            pc: Machine::START as u16,
            stack: [0; Machine::STACK],
            depth: 0,
            timers: Timers { delay: 0, tone: 0 },
            wait: Wait::Idle,
            edition: edition,
            lit: 0,
            end: end,
        }
    }
}

// The three numbers that go with a history: the place to write next, how many places behind it are kept, and how many actions that
// were taken back still stand ahead, from that place on.
#[derive(Clone, Copy)]
pub struct Trail {
    pub next: usize,
    pub kept: usize,
    pub ahead: usize,
}

// An action with its inputs: a step with its key bits and its random byte, or a tick.
#[derive(Clone, Copy)]
pub enum Action {
    Step(u16, u8),
    Tick,
}

// What an action changes besides the state: nothing, or memory or the picture, from a start on so many bytes.
#[derive(Clone, Copy)]
pub enum Change {
    Nothing,
    InMemory(u16, u16),
    InPicture(u16, u16),
}

// An instruction that reads and changes the state alone, and is never refused. A register is named by its number, below 16.
#[derive(Clone, Copy)]
pub enum Simple {
    Jump(u16),
    JumpFrom(u16),
    SkipEqual(u8, u8),
    SkipDiffers(u8, u8),
    SkipSame(u8, u8),
    SkipOther(u8, u8),
    SkipDown(u8),
    SkipUp(u8),
    Put(u8, u8),
    Add(u8, u8),
    Chance(u8, u8),
    Copy(u8, u8),
    Or(u8, u8),
    And(u8, u8),
    Plus(u8, u8),
    Minus(u8, u8),
    Xor(u8, u8),
    Halve(u8, u8),
    MinusFrom(u8, u8),
    Double(u8, u8),
    Index(u16),
    AddIndex(u8),
    Digit(u8),
    FromDelay(u8),
    ToDelay(u8),
    ToTone(u8),
}

// An instruction, taken apart. The last two are what no rule lists: an unlisted instruction, and a call into machine language.
#[derive(Clone, Copy)]
pub enum Op {
    Plain(Simple),
    AwaitKey(u8),
    Call(u16),
    Return,
    Clear,
    Draw(u8, u8, u8),
    Decimal(u8),
    Store(u8),
    Fetch(u8),
    Unlisted,
    MachineCode,
}

// Why a call is refused, in the order of the refusal numbers, 1 to 12.
#[derive(Clone, Copy)]
pub enum Refusal {
    PcPastEnd,
    Unlisted,
    MachineCode,
    StackFull,
    StackEmpty,
    MemoryPastEnd,
    NothingKept,
    ProgramLength,
    BufferLength,
    Unsound,
    Damaged,
    NothingAhead,
}

// Its number, as C is told it.
impl From<Refusal> for u8 {
    ghost from_gives = { λ why n. n ≡ refusal.number_of why };

    fn from(why: Refusal) -> u8 {
        match why {
            Refusal::PcPastEnd => 1,
            Refusal::Unlisted => 2,
            Refusal::MachineCode => 3,
            Refusal::StackFull => 4,
            Refusal::StackEmpty => 5,
            Refusal::MemoryPastEnd => 6,
            Refusal::NothingKept => 7,
            Refusal::ProgramLength => 8,
            Refusal::BufferLength => 9,
            Refusal::Unsound => 10,
            Refusal::Damaged => 11,
            Refusal::NothingAhead => 12,
        }
    }
}
