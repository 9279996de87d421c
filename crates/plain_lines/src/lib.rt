// Table I of the 1978 manual (the VIP-311 instruction manual, "CHIP-8 Instructions"), a function for each line, in the manual's order and with
// its words. Read it beside the table: it is the whole of what a CHIP-8 program can do.
//
// An instruction is two bytes, four hex digits. X and Y are digits that name two of the sixteen variables V0 to VF, one byte each; KK is a byte,
// N a digit, MMM an address of three digits. I is a pointer into memory, and "MI" is what it points at. PC is the address of the instruction that
// is carried out, so a function says where PC goes as well. VF is written by some lines for themselves, as the flag that tells what happened.
//
// A function takes the machine and gives it back as the instruction leaves it. What it `requires` was tested before: an instruction is judged
// first, and only one that can be done is done. That PC is at most 4,094 is asked line by line and is no type's: a machine may have any PC, and
// what is handed back may have another.
//
// The words that the lines are made of stand in this crate alone, also where the first engine has one like it (`down`, `lowest`, `lay`): the two
// engines share the types and the tests 9 and 10, and no instruction, decoder or drawing, so that each can be held against the other.
#![tactic(auto)]

ghost use Rattle.std.specs.Prelude.{◌≡◌, ℕ, ◌+◌, ◌<◌, ◌≤◌, List, ◌++◌, length, take, drop, replicate, nat_lt};
ghost use Rattle.rules.specs.Number.{pick};
ghost use Rattle.rules.specs.State.{picture_size, reg, up_to, with_reg, with_v, with_i, with_wait, with_lit};
ghost use Rattle.rules.specs.Picture.{lit_spots};
ghost use Rattle.rules.specs.Memory.{part, over, digits_of};
ghost use Rattle.rules.specs.Registers as rule;
ghost use Rattle.rules.specs.Step.{lit_after, lit_refusal};
ghost use Rattle.rules.specs.declared.Simple.TheVariants.{Jump, JumpFrom, SkipEqual, SkipDiffers, SkipSame, SkipOther, SkipDown, SkipUp};
ghost use Rattle.rules.specs.declared.Simple.TheVariants.{Put, Add, Chance, Copy, Or, And, Plus, Minus, Xor, Halve, MinusFrom, Double};
ghost use Rattle.rules.specs.declared.Simple.TheVariants.{Index, AddIndex, Digit, FromDelay, ToDelay, ToTone};
ghost use Rattle.rules.specs.declared.Wait.TheVariants.{Idle};
ghost use Rattle.spots.specs.Spots.{picture_of, AreSpots};
ghost use Rattle.plain_lines.specs.Lines.{Within, drawn_by, darkened_by};

use rules::{Machine, Wait};

// ---- the words that the lines are made of

// VX: the byte in the variable with that number.
pub fn v(m: Machine, x: u8) -> u8
    ensures { result ≡ reg m x }
{
    m.v[usize::from(x % 16)]
}

// How many variables V0 to VX are.
pub fn up_to(x: u8) -> usize
    ensures { result ≡ up_to x }
{
    usize::from(x % 16) + 1
}

// "Let VX = b", and on to the next instruction, two bytes further.
fn let_v(mut m: Machine, x: u8, b: u8) -> Machine
    requires { m.pc ≤ 4094 }
    ensures { result ≡ rule.onward (with_reg x b m) }
{
    m.v[usize::from(x % 16)] = b;
    m.pc += 2;
    m
}

// "Let VX = b", with a flag in VF: 1 where the test holds, and else 0. It is written last, so that it wins where X is F.
fn let_v_and_flag(mut m: Machine, x: u8, b: u8, test: bool) -> Machine
    requires { m.pc ≤ 4094 }
    ensures { result ≡ rule.onward (rule.flagged x b test m) }
{
    m.v[usize::from(x % 16)] = b;
    m.v[0xF] = u8::from(test);
    m.pc += 2;
    m
}

// "Let I = i", and on to the next instruction.
fn let_pointer(mut m: Machine, i: u16) -> Machine
    requires { m.pc ≤ 4094 }
    ensures { result ≡ rule.onward (with_i i m) }
{
    m.i = i;
    m.pc += 2;
    m
}

// "Skip next instruction if ..": past this one, and where the test holds past the next one too.
fn skip_if(mut m: Machine, test: bool) -> Machine
    requires { m.pc ≤ 4094 }
    ensures { result ≡ rule.skip_if test m }
{
    m.pc += if test { 4 } else { 2 };
    m
}

// The same where the test does not hold.
fn skip_unless(m: Machine, test: bool) -> Machine
    requires { m.pc ≤ 4094 }
    ensures { result ≡ rule.skip_unless test m }
{
    skip_if(m, !test)
}

// Whether a key is down: bit k of the key bits is key k, and there is none above F.
fn is_down(keys: u16, key: u8) -> bool
    ensures { result ≡ rule.down keys key }
{
    key < 16 && (keys >> key) % 2 == 1
}

// Every instruction but FX0A ends a wait, which is what FX0A remembers from one step to the next.
pub fn no_wait(m: Machine) -> Machine
    ensures { result ≡ with_wait Idle m }
{
    Machine {
        wait: Wait::Idle,
        ..m
    }
}

// Puts bytes into a buffer one after the other, from `at` on.
fn put(buffer: &mut [u8], at: usize, bytes: &[u8])
    requires { at + length bytes.now ≤ length buffer.old }
    ensures { buffer.new ≡ over buffer.old at bytes.now (length bytes.now) }
{
    buffer[at..at + bytes.len()].copy_from_slice(bytes);
}

// The number of lit spots that the machine has with it, brought from the count before a change of the picture to the count after it.
fn counted(lit: u16, before: usize, after: usize) -> u16
    requires { (before ≤ 2048) × (after ≤ 2048) × (before ≤ lit + after) × (lit + after ≤ before + 2048) }
    ensures { (p q : List ℕ) → before ≡ lit_spots p → after ≡ lit_spots q → result ≡ lit_after lit p q }
{
    (usize::from(lit) + after - before) as u16
}

// ---- the table

// 1MMM  Go to 0MMM.
pub fn go_to(m: Machine, mmm: u16) -> Machine
    ensures { result ≡ rule.simple (Jump mmm) 0 0 m }
{
    Machine { pc: mmm, ..m }
}

// BMMM  Go to 0MMM + V0.
pub fn go_to_plus_v0(m: Machine, mmm: u16) -> Machine
    ensures { result ≡ rule.simple (JumpFrom mmm) 0 0 m }
{
    go_to(m, mmm % 4096 + u16::from(v(m, 0)))
}

// 2MMM  Do subroutine at 0MMM (must end with 00EE). The address behind this instruction goes on the stack: 00EE comes back to it.
pub fn do_subroutine(mut m: Machine, mmm: u16) -> Machine
    requires { (m.pc ≤ 4094) × (m.depth < 12) }
    ensures { result ≡ rule.called mmm m }
{
    m.stack[usize::from(m.depth)] = m.pc + 2;
    m.depth += 1;
    m.pc = mmm;
    m
}

// 00EE  Return from subroutine. The entry of the stack that is left is 0 again.
pub fn return_from_subroutine(mut m: Machine) -> Machine
    requires { (0 < m.depth) × (m.depth ≤ 12) }
    ensures { result ≡ rule.returned m }
{
    m.depth -= 1;
    let at = usize::from(m.depth);
    m.pc = m.stack[at];
    m.stack[at] = 0;
    m
}

// 3XKK  Skip next instruction if VX = KK.
pub fn skip_if_kk(m: Machine, x: u8, kk: u8) -> Machine
    requires { m.pc ≤ 4094 }
    ensures { result ≡ rule.simple (SkipEqual x kk) 0 0 m }
{
    skip_if(m, v(m, x) == kk)
}

// 4XKK  Skip next instruction if VX n.e. KK.
pub fn skip_unless_kk(m: Machine, x: u8, kk: u8) -> Machine
    requires { m.pc ≤ 4094 }
    ensures { result ≡ rule.simple (SkipDiffers x kk) 0 0 m }
{
    skip_unless(m, v(m, x) == kk)
}

// 5XY0  Skip next instruction if VX = VY.
pub fn skip_if_vy(m: Machine, x: u8, y: u8) -> Machine
    requires { m.pc ≤ 4094 }
    ensures { result ≡ rule.simple (SkipSame x y) 0 0 m }
{
    skip_if(m, v(m, x) == v(m, y))
}

// 9XY0  Skip next instruction if VX n.e. VY.
pub fn skip_unless_vy(m: Machine, x: u8, y: u8) -> Machine
    requires { m.pc ≤ 4094 }
    ensures { result ≡ rule.simple (SkipOther x y) 0 0 m }
{
    skip_unless(m, v(m, x) == v(m, y))
}

// EX9E  Skip next instruction if VX = Hex key (LSD): if the key that the last digit of VX names is down.
pub fn skip_if_key(m: Machine, x: u8, keys: u16) -> Machine
    requires { m.pc ≤ 4094 }
    ensures { result ≡ rule.simple (SkipDown x) keys 0 m }
{
    skip_if(m, is_down(keys, v(m, x) % 16))
}

// EXA1  Skip next instruction if VX n.e. Hex key (LSD): if that key is up.
pub fn skip_unless_key(m: Machine, x: u8, keys: u16) -> Machine
    requires { m.pc ≤ 4094 }
    ensures { result ≡ rule.simple (SkipUp x) keys 0 m }
{
    skip_unless(m, is_down(keys, v(m, x) % 16))
}

// 6XKK  Let VX = KK.
pub fn let_kk(m: Machine, x: u8, kk: u8) -> Machine
    requires { m.pc ≤ 4094 }
    ensures { result ≡ rule.simple (Put x kk) 0 0 m }
{
    let_v(m, x, kk)
}

// CXKK  Let VX = Random Byte (KK = Mask): of the random byte only the bits where KK has a 1.
pub fn let_random(m: Machine, x: u8, kk: u8, random: u8) -> Machine
    requires { m.pc ≤ 4094 }
    ensures { result ≡ rule.simple (Chance x kk) 0 random m }
{
    let_v(m, x, random & kk)
}

// 7XKK  Let VX = VX + KK. A variable that passes FF starts again at 00, and VF stays.
pub fn add_kk(m: Machine, x: u8, kk: u8) -> Machine
    requires { m.pc ≤ 4094 }
    ensures { result ≡ rule.simple (Add x kk) 0 0 m }
{
    let_v(m, x, v(m, x).wrapping_add(kk))
}

// 8XY0  Let VX = VY.
pub fn let_vy(m: Machine, x: u8, y: u8) -> Machine
    requires { m.pc ≤ 4094 }
    ensures { result ≡ rule.simple (Copy x y) 0 0 m }
{
    let_v(m, x, v(m, y))
}

// 8XY1  Let VX = VX/VY (VF changed): bit by bit OR. VF becomes 0.
pub fn or_vy(m: Machine, x: u8, y: u8) -> Machine
    requires { m.pc ≤ 4094 }
    ensures { result ≡ rule.simple (Or x y) 0 0 m }
{
    let_v_and_flag(m, x, v(m, x) | v(m, y), false)
}

// 8XY2  Let VX = VX & VY (VF changed): bit by bit AND. VF becomes 0.
pub fn and_vy(m: Machine, x: u8, y: u8) -> Machine
    requires { m.pc ≤ 4094 }
    ensures { result ≡ rule.simple (And x y) 0 0 m }
{
    let_v_and_flag(m, x, v(m, x) & v(m, y), false)
}

// 8XY4  Let VX = VX + VY (VF = 00 if VX + VY l.e. FF, VF = 01 if VX + VY > FF).
pub fn add_vy(m: Machine, x: u8, y: u8) -> Machine
    requires { m.pc ≤ 4094 }
    ensures { result ≡ rule.simple (Plus x y) 0 0 m }
{
    let vx = v(m, x);
    let vy = v(m, y);
    let (sum, past) = vx.overflowing_add(vy);
    let_v_and_flag(m, x, sum, past)
}

// 8XY5  Let VX = VX - VY (VF = 00 if VX < VY, VF = 01 if VX g.e. VY).
pub fn subtract_vy(m: Machine, x: u8, y: u8) -> Machine
    requires { m.pc ≤ 4094 }
    ensures { result ≡ rule.simple (Minus x y) 0 0 m }
{
    let vx = v(m, x);
    let vy = v(m, y);
    let_v_and_flag(m, x, vx.wrapping_sub(vy), vy <= vx)
}

// The next four are not in the manual's table: the machine has them, and the second edition lists them.

// 8XY3  Let VX = VX XOR VY. VF becomes 0.
pub fn xor_vy(m: Machine, x: u8, y: u8) -> Machine
    requires { m.pc ≤ 4094 }
    ensures { result ≡ rule.simple (Xor x y) 0 0 m }
{
    let_v_and_flag(m, x, v(m, x) ^ v(m, y), false)
}

// 8XY6  Let VX = half of VY. VF is the bit that is lost, the lowest.
pub fn halve_vy(m: Machine, x: u8, y: u8) -> Machine
    requires { m.pc ≤ 4094 }
    ensures { result ≡ rule.simple (Halve x y) 0 0 m }
{
    let vy = v(m, y);
    let_v_and_flag(m, x, vy / 2, vy % 2 == 1)
}

// 8XY7  Let VX = VY - VX (VF = 00 if VY < VX, VF = 01 if VY g.e. VX).
pub fn subtract_from_vy(m: Machine, x: u8, y: u8) -> Machine
    requires { m.pc ≤ 4094 }
    ensures { result ≡ rule.simple (MinusFrom x y) 0 0 m }
{
    let vx = v(m, x);
    let vy = v(m, y);
    let_v_and_flag(m, x, vy.wrapping_sub(vx), vx <= vy)
}

// 8XYE  Let VX = VY doubled. VF is the bit that is lost, the highest.
pub fn double_vy(m: Machine, x: u8, y: u8) -> Machine
    requires { m.pc ≤ 4094 }
    ensures { result ≡ rule.simple (Double x y) 0 0 m }
{
    let vy = v(m, y);
    let_v_and_flag(m, x, vy.wrapping_mul(2), vy / 128 % 2 == 1)
}

// FX07  Let VX = current timer value.
pub fn let_timer(m: Machine, x: u8) -> Machine
    requires { m.pc ≤ 4094 }
    ensures { result ≡ rule.simple (FromDelay x) 0 0 m }
{
    let_v(m, x, m.timers.delay)
}

// The lowest key that is down, and F where none below it is: bit k of the key bits is key k.
fn lowest_key(keys: u16) -> u8
    ensures { result ≡ rule.lowest_from 15 0 keys }
{
    keys.trailing_zeros().min(15) as u8
}

// FX0A  Let VX = hex key digit (waits for any key pressed). The machine never stops: while it waits PC stays, and the instruction is carried out
// again at the next step. It holds the first key that it sees down, and gives its number once the key is up again.
pub fn let_key(m: Machine, x: u8, keys: u16) -> Machine
    requires { m.pc ≤ 4094 }
    ensures { result ≡ rule.awaited x keys m m.wait }
{
    match m.wait {
        Wait::Idle => {
            if keys == 0 {
                return m;
            }
            let held = lowest_key(keys);
            Machine {
                wait: Wait::Held(held),
                ..m
            }
        }
        Wait::Held(key) => {
            if is_down(keys, key) {
                return m;
            }
            no_wait(let_v(m, x, key))
        }
    }
}

// FX15  Set timer = VX (01 = 1/60 second).
pub fn set_timer(mut m: Machine, x: u8) -> Machine
    requires { m.pc ≤ 4094 }
    ensures { result ≡ rule.simple (ToDelay x) 0 0 m }
{
    m.timers.delay = v(m, x);
    m.pc += 2;
    m
}

// FX18  Set tone duration = VX (01 = 1/60 second).
pub fn set_tone(mut m: Machine, x: u8) -> Machine
    requires { m.pc ≤ 4094 }
    ensures { result ≡ rule.simple (ToTone x) 0 0 m }
{
    m.timers.tone = v(m, x);
    m.pc += 2;
    m
}

// AMMM  Let I = 0MMM.
pub fn let_i(m: Machine, mmm: u16) -> Machine
    requires { m.pc ≤ 4094 }
    ensures { result ≡ rule.simple (Index mmm) 0 0 m }
{
    let_pointer(m, mmm)
}

// FX1E  Let I = I + VX. A pointer that passes FFFF starts again at 0000, and VF stays.
pub fn add_to_i(m: Machine, x: u8) -> Machine
    requires { m.pc ≤ 4094 }
    ensures { result ≡ rule.simple (AddIndex x) 0 0 m }
{
    let_pointer(m, m.i.wrapping_add(u16::from(v(m, x))))
}

// FX29  Let I = 5-byte display pattern for LSD of VX: the sixteen digits stand from 0000 on, five bytes each.
pub fn let_i_digit(m: Machine, x: u8) -> Machine
    requires { m.pc ≤ 4094 }
    ensures { result ≡ rule.simple (Digit x) 0 0 m }
{
    let_pointer(m, 5 * u16::from(v(m, x) % 16))
}

// FX33  Let MI = 3-decimal digit equivalent of VX (I unchanged): hundreds, tens, ones.
pub fn store_decimal(mut m: Machine, x: u8, memory: &mut [u8]) -> Machine
    requires { Within 3 m memory.old }
    ensures { (result ≡ rule.onward m) × (memory.new ≡ over memory.old m.i (digits_of (reg m x)) 3) }
{
    let vx = v(m, x);
    let digits = [vx / 100, vx / 10 % 10, vx % 10];
    put(memory, usize::from(m.i), &digits);
    m.pc += 2;
    m
}

// FX55  Let MI = V0:VX (I = I + X + 1).
pub fn store(m: Machine, x: u8, memory: &mut [u8]) -> Machine
    requires { Within (up_to x) m memory.old }
    ensures { (result ≡ rule.onward (with_i (m.i + up_to x) m))
        × (memory.new ≡ over memory.old m.i (take (up_to x) m.v) (up_to x)) }
{
    let count = up_to(x);
    put(memory, usize::from(m.i), &m.v[..count]);
    let_pointer(m, m.i + count as u16)
}

// FX65  Let V0:VX = MI (I = I + X + 1).
pub fn fetch(mut m: Machine, x: u8, memory: &[u8]) -> Machine
    requires { Within (up_to x) m memory.now }
    ensures { result ≡ rule.onward (with_i (m.i + up_to x) (with_v (part memory.now m.i (up_to x) ++ drop (up_to x) m.v) m)) }
{
    let count = up_to(x);
    let at = usize::from(m.i);
    put(&mut m.v, 0, &memory[at..at + count]);
    let_pointer(m, m.i + count as u16)
}

// 00E0  Erase display (all 0's).
pub fn erase(mut m: Machine, spots: &mut [u8]) -> Machine
    requires { (m.pc ≤ 4094) × AreSpots spots.old × (lit_refusal m.lit (picture_of spots.old) (replicate picture_size 0) ≡ 0) }
    ensures { (result ≡ with_lit (lit_after m.lit (picture_of spots.old) (replicate picture_size 0)) (rule.onward m))
        × (picture_of spots.new ≡ replicate picture_size 0) × AreSpots spots.new }
{
    let before = spots::lit(spots);
    spots::erase(spots);
    m.lit = counted(m.lit, before, 0);
    m.pc += 2;
    m
}

// DXYN  Show n-byte MI pattern at VX-VY coordinates. I unchanged. MI pattern is combined with existing display via EXCLUSIVE-OR function.
// VF = 01 if a 1 in MI pattern matches 1 in existing display. Columns start again at 64 and rows at 32, but only for the corner: what then lies
// past an edge is dropped.
pub fn show(m: Machine, x: u8, y: u8, pattern: &[u8], spots: &mut [u8]) -> Machine
    requires { (m.pc ≤ 4094) × AreSpots spots.old
        × (lit_refusal m.lit (picture_of spots.old) (drawn_by m x y pattern.now (picture_of spots.old)) ≡ 0) }
    ensures { (result ≡ with_lit
        (lit_after m.lit (picture_of spots.old) (drawn_by m x y pattern.now (picture_of spots.old)))
        (rule.onward (with_reg 0xF (pick (nat_lt 0 (darkened_by m x y pattern.now (picture_of spots.old))) 1 0) m)))
        × (picture_of spots.new ≡ drawn_by m x y pattern.now (picture_of spots.old))
        × AreSpots spots.new }
{
    let column = usize::from(v(m, x) % 64);
    let row = usize::from(v(m, y) % 32);
    let touched = spots::darkened(spots, pattern, column, row);
    let before = spots::lit(spots);
    spots::draw(spots, pattern, column, row);
    let lit = counted(m.lit, before, spots::lit(spots));
    Machine {
        lit,
        ..let_v(m, 0xF, u8::from(0 < touched))
    }
}
