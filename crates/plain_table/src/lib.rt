// Which line of the manual's Table I two bytes are. The tests stand in the table's order, one after the other: read them beside the table. What no
// line names is an unlisted instruction, and the card refuses it.
#![tactic(auto)]

ghost use Rattle.std.specs.Prelude.{◌≡◌, eqb};
ghost use Rattle.rules.specs.Number.{pick};
ghost use Rattle.rules.specs.Instruction.{in_second, sum_op, key_op};
ghost use Rattle.rules.specs.Instruction as rule;
ghost use Rattle.rules.specs.declared.Op.TheVariants.{Plain, Unlisted};

use rules::{Edition, Op, Simple};

// 5XY0 and 9XY0 are lines of the table only with the last digit 0.
fn with_last_0(n: u8, line: Simple) -> Op
    ensures { result ≡ pick (eqb n 0) (Plain line) Unlisted }
{
    if n == 0 {
        return Op::Plain(line);
    }
    Op::Unlisted
}

// EX9E and EXA1.
fn skip_on_key(x: u8, kk: u8) -> Op
    ensures { result ≡ key_op x kk }
{
    match kk {
        0x9E => Op::Plain(Simple::SkipDown(x)),
        0xA1 => Op::Plain(Simple::SkipUp(x)),
        _ => Op::Unlisted,
    }
}

// A line that only the second edition of the table has.
fn in_second_edition(edition: Edition, line: Simple) -> Op
    ensures { result ≡ in_second edition (Plain line) }
{
    match edition {
        Edition::First => Op::Unlisted,
        Edition::Second => Op::Plain(line),
    }
}

// 8XY0 to 8XY5, and behind them the second edition's four.
fn with_vy(edition: Edition, x: u8, y: u8, n: u8) -> Op
    ensures { result ≡ sum_op edition x y n }
{
    match n {
        0x0 => Op::Plain(Simple::Copy(x, y)),
        0x1 => Op::Plain(Simple::Or(x, y)),
        0x2 => Op::Plain(Simple::And(x, y)),
        0x4 => Op::Plain(Simple::Plus(x, y)),
        0x5 => Op::Plain(Simple::Minus(x, y)),
        0x3 => in_second_edition(edition, Simple::Xor(x, y)),
        0x6 => in_second_edition(edition, Simple::Halve(x, y)),
        0x7 => in_second_edition(edition, Simple::MinusFrom(x, y)),
        0xE => in_second_edition(edition, Simple::Double(x, y)),
        _ => Op::Unlisted,
    }
}

// The line that the bytes hi and lo are.
pub fn look_up(edition: Edition, hi: u8, lo: u8) -> Op
    ensures { result ≡ rule.decode edition hi lo }
{
    // The digits after the first one, d: X, Y and N; the second byte is KK, and the last three digits are MMM.
    let d = hi / 16;
    let x = hi % 16;
    let y = lo / 16;
    let n = lo % 16;
    let mmm = u16::from_be_bytes([x, lo]);

    // 1MMM, BMMM, 2MMM, 00EE
    if d == 0x1 {
        return Op::Plain(Simple::Jump(mmm));
    }
    if d == 0xB {
        return Op::Plain(Simple::JumpFrom(mmm));
    }
    if d == 0x2 {
        return Op::Call(mmm);
    }
    if (hi == 0x00) & (lo == 0xEE) {
        return Op::Return;
    }
    // 3XKK, 4XKK, 5XY0, 9XY0, EX9E, EXA1
    if d == 0x3 {
        return Op::Plain(Simple::SkipEqual(x, lo));
    }
    if d == 0x4 {
        return Op::Plain(Simple::SkipDiffers(x, lo));
    }
    if d == 0x5 {
        return with_last_0(n, Simple::SkipSame(x, y));
    }
    if d == 0x9 {
        return with_last_0(n, Simple::SkipOther(x, y));
    }
    if d == 0xE {
        return skip_on_key(x, lo);
    }
    // 6XKK, CXKK, 7XKK, 8XYN
    if d == 0x6 {
        return Op::Plain(Simple::Put(x, lo));
    }
    if d == 0xC {
        return Op::Plain(Simple::Chance(x, lo));
    }
    if d == 0x7 {
        return Op::Plain(Simple::Add(x, lo));
    }
    if d == 0x8 {
        return with_vy(edition, x, y, n);
    }
    // FX07, FX0A, FX15, FX18
    if (d == 0xF) & (lo == 0x07) {
        return Op::Plain(Simple::FromDelay(x));
    }
    if (d == 0xF) & (lo == 0x0A) {
        return Op::AwaitKey(x);
    }
    if (d == 0xF) & (lo == 0x15) {
        return Op::Plain(Simple::ToDelay(x));
    }
    if (d == 0xF) & (lo == 0x18) {
        return Op::Plain(Simple::ToTone(x));
    }
    // AMMM, FX1E, FX29, FX33, FX55, FX65
    if d == 0xA {
        return Op::Plain(Simple::Index(mmm));
    }
    if (d == 0xF) & (lo == 0x1E) {
        return Op::Plain(Simple::AddIndex(x));
    }
    if (d == 0xF) & (lo == 0x29) {
        return Op::Plain(Simple::Digit(x));
    }
    if (d == 0xF) & (lo == 0x33) {
        return Op::Decimal(x);
    }
    if (d == 0xF) & (lo == 0x55) {
        return Op::Store(x);
    }
    if (d == 0xF) & (lo == 0x65) {
        return Op::Fetch(x);
    }
    // 00E0, DXYN, 0MMM
    if (hi == 0x00) & (lo == 0xE0) {
        return Op::Clear;
    }
    if d == 0xD {
        return Op::Draw(x, y, n);
    }
    if d == 0x0 {
        return Op::MachineCode;
    }
    Op::Unlisted
}
