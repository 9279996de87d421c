// The image after a call, and the numbers that tell of it.
#![tactic(auto)]

ghost use Rattle.std.specs.Prelude.{◌≡◌, eqb};
ghost use Rattle.rules.specs.Number.{pick};
ghost use Rattle.rules.specs.Refusal as refusal;
ghost use Rattle.image.specs.Image.{in_order, image_of};

use image::IMAGE;
use parts::Answer;
use rules::Refusal;

// ---- numbers

// The number of an outcome, as wide as C has it.
pub fn number(o: Result<(), Refusal>) -> u32
    ensures { result ≡ refusal.number o }
{
    u32::from(parts::number(o))
}

// How many steps a step's number tells of.
pub fn accepted_by(told: u32) -> u64
    ensures { result ≡ pick (eqb told 0) 1 0 }
{
    u64::from(told == 0)
}

// ---- the image after a call

// An accepted call writes the image, and a refused one leaves it.
pub fn after_call(image: &mut [u8; IMAGE], answer: Answer) -> u32
    ensures { (result ≡ refusal.number answer.outcome) × (image.new ≡ pick (eqb (refusal.number answer.outcome) 0)
        (image_of answer.machine answer.trail) image.old) }
{
    let n = number(answer.outcome);
    if n == 0 {
        image_writing::write(image, answer.machine, answer.trail);
    }
    n
}

// After a run or a play. One that is refused itself hands back the state as it came, so to write that changes no byte; and an image that
// is not in order, which no call takes, is left.
pub fn after_list(image: &mut [u8; IMAGE], answer: Answer) -> u32
    ensures { (result ≡ refusal.number answer.outcome) × (image.new ≡ pick (in_order image.old)
        (image_of answer.machine answer.trail) image.old) }
{
    let n = number(answer.outcome);
    if image::in_order(image) {
        image_writing::write(image, answer.machine, answer.trail);
    }
    n
}
