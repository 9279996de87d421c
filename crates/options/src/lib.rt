// The words behind a program's name, and what they choose for every program alike.
#![tactic(auto)]

use rules::Machine;
use std::env::Env;

// Whether argument k is that word.
fn is_word(rt: &impl Env, k: usize, word: &[u8]) -> bool {
    let mut given = [0u8; 16];
    let Ok(size) = rt.arg(k, &mut given) else {
        return false;
    };
    &given[..size] == word
}

// The same of one of the three arguments that there can be.
pub fn has_option(rt: &impl Env, word: &[u8]) -> bool {
    (1..4).any(|k| is_word(rt, k, word))
}

// Where memory ends: at 1,696 where the 2K profile is asked for, and else at 4,096.
pub fn end_of_memory(rt: &impl Env) -> u16 {
    if has_option(rt, b"--2k") {
        return Machine::SMALL_END as u16;
    }
    Machine::MEMORY as u16
}
