// The lines of a trace, pushed onto a text or put into a buffer, as in `text`.
#![tactic(auto)]

ghost use Rattle.std.specs.Prelude.{◌≡◌, ◌++◌, ◌+◌, ◌≤◌, length};
ghost use Rattle.arrayvec.specs.ArrayString.{array_string_len};
ghost use Rattle.text.specs.Put.{Put};
ghost use Rattle.line.specs.Line.{header, step_line, stop_line};

use arrayvec::ArrayString;

// ---- onto a text

pub fn push_header<const N: usize>(out: &mut ArrayString<N>)
    requires { array_string_len out.old + 16 ≤ N }
    ensures { out.new.bytes ≡ out.old.bytes ++ header }
{
    out.push_str("n pc op i v0 vf\n");
}

// The line of an accepted step.
#[tactic(auto, unfolding(crate::specs::Line::step_line))]
pub fn push_step<const N: usize>(
    out: &mut ArrayString<N>,
    n: u8,
    pc: u16,
    op: u16,
    i: u16,
    v0: u8,
    vf: u8,
)
    requires { array_string_len out.old + 25 ≤ N }
    ensures bytes { out.new.bytes ≡ out.old.bytes ++ step_line n pc op i v0 vf }
    ensures len { array_string_len out.new ≤ array_string_len out.old + 25 }
{
    text::push_decimal(out, n);
    text::push_wide_hex(out, pc);
    text::push_wide_hex(out, op);
    text::push_wide_hex(out, i);
    text::push_hex(out, v0);
    text::push_hex(out, vf);
    out.push('\n');
}

// The last line: the refusal, 0 for none, and PC.
#[tactic(auto, unfolding(crate::specs::Line::stop_line))]
pub fn push_stop<const N: usize>(out: &mut ArrayString<N>, refusal: u8, pc: u16)
    requires { array_string_len out.old + 17 ≤ N }
    ensures { out.new.bytes ≡ out.old.bytes ++ stop_line refusal pc }
{
    out.push_str("stop ");
    text::push_decimal(out, refusal);
    out.push_str(" at");
    text::push_wide_hex(out, pc);
    out.push('\n');
}

// ---- into a buffer

pub fn put_header(out: &mut [u8], at: usize) -> usize
    requires { at + 16 ≤ length out.old }
    ensures { Put header out.old at out.new result }
{
    let mut line = ArrayString::<16>::new();
    push_header(&mut line);
    text::put(out, at, line.as_bytes())
}

pub fn put_step(out: &mut [u8], at: usize, n: u8, pc: u16, op: u16, i: u16, v0: u8, vf: u8) -> usize
    requires { at + 25 ≤ length out.old }
    ensures put { Put (step_line n pc op i v0 vf) out.old at out.new result }
    ensures upper_bound { result ≤ at + 25 }
{
    let mut line = ArrayString::<25>::new();
    push_step(&mut line, n, pc, op, i, v0, vf);
    text::put(out, at, line.as_bytes())
}

pub fn put_stop(out: &mut [u8], at: usize, refusal: u8, pc: u16) -> usize
    requires { at + 17 ≤ length out.old }
    ensures { Put (stop_line refusal pc) out.old at out.new result }
{
    let mut line = ArrayString::<17>::new();
    push_stop(&mut line, refusal, pc);
    text::put(out, at, line.as_bytes())
}
