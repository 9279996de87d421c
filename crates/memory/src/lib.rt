// Bytes laid into a buffer and cleared, numbers of eight bytes and of two, and the instructions that write and read memory: FX33, FX55 and FX65.
#![tactic(auto)]

ghost use Rattle.std.specs.Prelude.{◌≡◌, ◌++◌, ◌+◌, ◌-◌, ◌/◌, ◌%◌, ◌≤◌, ◌<◌, length, take, drop, replicate};
ghost use Rattle.rules.specs.Memory.{over, digits_of};
ghost use Rattle.rules.specs.Record.{word_at};
ghost use Rattle.rules.specs.Rows.{byte_in, eight_of};

// Lays the bytes of `new` into a buffer, from `at` on. By bytes in a loop: of a length that is known only as it runs `copy_from_slice` is a call,
// and a run that stores and fetches made 0.85 of the hand-tuned engine's steps.
pub fn lay(buffer: &mut [u8], at: usize, new: &[u8])
    requires { at + length new.now ≤ length buffer.old }
    ensures { buffer.new ≡ over buffer.old at new.now (length new.now) }
{
    for i in 0..new.len() {
        buffer[at + i] = new[i];
    }
}

// Zeros from `at` to the end.
pub fn clear(buffer: &mut [u8], at: usize)
    requires { at ≤ length buffer.old }
    ensures { buffer.new ≡ take at buffer.old ++ replicate (length buffer.old - at) 0 }
{
    buffer[at..].fill(0);
}

// ---- a number of eight bytes, the highest first

// Byte j of it.
pub fn byte_in(n: u64, j: usize) -> u8
    requires { j < 8 }
    ensures { result ≡ byte_in j n }
{
    n.to_be_bytes()[j]
}

// Lays all eight into a buffer, from `at` on. They are laid from an array, which the compiler takes for one number: so they are one store.
pub fn lay_eight(buffer: &mut [u8], at: usize, n: u64)
    requires { at + 8 ≤ length buffer.old }
    ensures { buffer.new ≡ over buffer.old at (eight_of n) 8 }
{
    let bytes = n.to_be_bytes();
    lay(buffer, at, &bytes);
}

// The number of two bytes, the high one first.
pub fn word_at(buffer: &[u8], at: usize) -> u16
    requires { at + 1 < length buffer.now }
    ensures { result ≡ word_at buffer.now at }
{
    u16::from_be_bytes([buffer[at], buffer[at + 1]])
}

// ---- the instructions

// FX33: hundreds, tens and ones.
pub fn decimal(memory: &mut [u8], at: usize, n: u8)
    requires { at + 3 ≤ length memory.old }
    ensures { memory.new ≡ over memory.old at (digits_of n) 3 }
{
    let digits = [n / 100, n / 10 % 10, n % 10];
    lay(memory, at, &digits);
}

// FX55: the first `count` registers.
pub fn store(memory: &mut [u8], at: usize, v: &[u8], count: usize)
    requires { (count ≤ length v.now) × (at + count ≤ length memory.old) }
    ensures { memory.new ≡ over memory.old at (take count v.now) count }
{
    lay(memory, at, &v[..count]);
}

// FX65: the first registers are the bytes, and the others stay.
pub fn fetch(v: &mut [u8; 16], bytes: &[u8])
    requires { length bytes.now ≤ 16 }
    ensures { v.new ≡ bytes.now ++ drop (length bytes.now) v.old }
{
    lay(v, 0, bytes);
}
