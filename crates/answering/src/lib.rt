// The numbers that a call of the boundary answers.
#![tactic(auto)]

ghost use Rattle.std.specs.Prelude.{◌≡◌};
ghost use Rattle.answering.specs.Answer.{answered};

// How many numbers an answer has.
pub const ANSWER: usize = 4;

// All four numbers of an answer; one of another length is left alone.
pub fn put_answer(answer: &mut [u64], first: u64, second: u64, third: u64)
    ensures { answer.new ≡ answered first second third answer.old }
{
    if let Some(numbers) = answer.as_mut_array::<{ ANSWER }>() {
        *numbers = [first, second, third, 0];
    }
}
