// The C boundary: the library's calls on byte buffers and numbers, for hosts in C and Rust. include/card.h says the same to them.
// Each call may be handed anything that its types allow, ends, and leaves what the definitions of specs/Card.antt say.
#![tactic(auto)]

ghost use Rattle.std.specs.Prelude.{◌≡◌, true, List, ℕ, eqb};
ghost use Rattle.rules.specs.Number.{pick};
ghost use Rattle.rules.specs.Past.{PlayTells};
ghost use Rattle.rules.specs.Rows.{bytes_of};
ghost use Rattle.imaged.specs.Imaged.{world_of, Leaves};
ghost use Rattle.imaged_salvage.specs.Salvaged.{LeavesSalvage};
ghost use Rattle.imaged_plain.specs.PlainOn.{LeavesPlain};
ghost use Rattle.answering.specs.Answer.{answers, answered};
ghost use Rattle.card.specs.Card.{sized, LeavesPage, LeavesPanel, LeavesRows, LeavesBytes};
ghost use Rattle.card.specs.Card as spec;

// ---- what a host calls

#[tactic(auto, unfolding(crate::specs::Card::card_load))]
#[unsafe(no_mangle)]
pub extern "C" fn card_load(
    program: &[u8],
    edition: u8,
    end: u16,
    image: &mut [u8],
    memory: &mut [u8],
    rows: &mut [u64],
    history: &mut [u8],
) -> u32
    ensures { Leaves
        (spec.card_load program.now edition end image.old memory.old (bytes_of rows.old)
        history.old) result image.new memory.new (bytes_of rows.new) history.new }
{
    let Some(image) = image.as_mut_array() else {
        return 9;
    };
    imaged::load(program, edition, end, image, memory, rows, history)
}

#[tactic(auto, unfolding(crate::specs::Card::card_step, crate::specs::Card::step_went_dark))]
#[unsafe(no_mangle)]
pub extern "C" fn card_step(
    image: &mut [u8],
    memory: &mut [u8],
    rows: &mut [u64],
    history: &mut [u8],
    keys: u16,
    random: u8,
    answer: &mut [u64],
) -> u32
    ensures leaves { Leaves
        (spec.card_step keys random (answers answer.old) image.old memory.old
        (bytes_of rows.old) history.old) result image.new memory.new (bytes_of rows.new)
        history.new }
    ensures answer_after { answer.new ≡ answered (pick (eqb result 0) 1 0)
        (spec.step_went_dark image.old memory.old (bytes_of rows.old) history.old) 0
        answer.old }
{
    let Some(image) = image.as_mut_array() else {
        answering::put_answer(answer, 0, 0, 0);
        return 9;
    };
    if answer.len() != answering::ANSWER {
        return 9;
    }
    let told = imaged::step(image, memory, rows, history, keys, random);
    answering::put_answer(answer, told.accepted, told.dark, 0);
    told.number
}

#[tactic(auto, unfolding(crate::specs::Card::card_tick))]
#[unsafe(no_mangle)]
pub extern "C" fn card_tick(image: &mut [u8], history: &mut [u8]) -> u32
    ensures { (memory picture : List ℕ) → Leaves (spec.card_tick image.old memory picture history.old) result
        image.new memory picture history.new }
{
    let Some(image) = image.as_mut_array() else {
        return 9;
    };
    imaged::tick(image, history)
}

#[tactic(auto, unfolding(crate::specs::Card::card_back))]
#[unsafe(no_mangle)]
pub extern "C" fn card_back(
    image: &mut [u8],
    memory: &mut [u8],
    rows: &mut [u64],
    history: &[u8],
) -> u32
    ensures { Leaves (spec.card_back image.old memory.old (bytes_of rows.old) history.now)
        result image.new memory.new (bytes_of rows.new) history.now }
{
    let Some(image) = image.as_mut_array() else {
        return 9;
    };
    imaged::back(image, memory, rows, history)
}

#[tactic(auto, unfolding(crate::specs::Card::card_forward))]
#[unsafe(no_mangle)]
pub extern "C" fn card_forward(
    image: &mut [u8],
    memory: &mut [u8],
    rows: &mut [u64],
    history: &mut [u8],
) -> u32
    ensures { Leaves
        (spec.card_forward image.old memory.old (bytes_of rows.old) history.old) result
        image.new memory.new (bytes_of rows.new) history.new }
{
    let Some(image) = image.as_mut_array() else {
        return 9;
    };
    imaged::forward(image, memory, rows, history)
}

#[tactic(auto, unfolding(crate::specs::Card::card_run, crate::specs::Card::run_accepted, crate::specs::Card::run_went_dark, crate::specs::Card::run_has_copied))]
#[unsafe(no_mangle)]
pub extern "C" fn card_run(
    image: &mut [u8],
    memory: &mut [u8],
    rows: &mut [u64],
    history: &mut [u8],
    ticks: &[u8],
    keys: &[u16],
    randoms: &[u8],
    answer: &mut [u64],
) -> u32
    ensures leaves { Leaves
        (spec.card_run ticks.now keys.now randoms.now (answers answer.old)
        image.old memory.old (bytes_of rows.old) history.old) result image.new
        memory.new (bytes_of rows.new) history.new }
    ensures answer_after { answer.new ≡ answered
        (spec.run_accepted ticks.now keys.now randoms.now image.old
        memory.old (bytes_of rows.old) history.old)
        (spec.run_went_dark ticks.now keys.now randoms.now image.old
        memory.old (bytes_of rows.old) history.old)
        (spec.run_has_copied ticks.now keys.now randoms.now image.old
        memory.old (bytes_of rows.old) history.old) answer.old }
{
    let Some(image) = image.as_mut_array() else {
        answering::put_answer(answer, 0, 0, 0);
        return 9;
    };
    if answer.len() != answering::ANSWER {
        return 9;
    }
    let told = imaged_lists::run(image, memory, rows, history, ticks, keys, randoms);
    answering::put_answer(answer, told.accepted, told.dark, told.copied);
    told.number
}

#[tactic(auto, unfolding(crate::specs::Card::card_play))]
#[unsafe(no_mangle)]
pub extern "C" fn card_play(
    image: &mut [u8],
    memory: &mut [u8],
    rows: &mut [u64],
    history: &mut [u8],
    moves: &[u8],
    keys: &[u16],
    randoms: &[u8],
) -> u32
    ensures leaves { Leaves
        (spec.card_play moves.now keys.now randoms.now image.old memory.old
        (bytes_of rows.old) history.old) result image.new memory.new (bytes_of rows.new)
        history.new }
    ensures play_tells { sized image.old ≡ true → PlayTells moves.now keys.now randoms.now
        (world_of image.old memory.old (bytes_of rows.old) history.old)
        (world_of image.new memory.new (bytes_of rows.new) history.new) }
{
    let Some(image) = image.as_mut_array() else {
        return 9;
    };
    imaged_lists::play(image, memory, rows, history, moves, keys, randoms)
}

#[tactic(auto, unfolding(crate::specs::Card::card_salvage))]
#[unsafe(no_mangle)]
pub extern "C" fn card_salvage(
    image: &mut [u8],
    history: &mut [u8],
    list: &mut [u16],
    answer: &mut [u64],
) -> u32
    ensures leaves_salvage { LeavesSalvage image.old
        (spec.card_salvage (answers answer.old) image.old history.old list.old) result
        image.new history.new list.new }
    ensures answer_after { answer.new ≡ answered
        (spec.card_salvage true image.old history.old list.old).kept
        (spec.card_salvage true image.old history.old list.old).cleared 0 answer.old }
{
    let Some(image) = image.as_mut_array() else {
        answering::put_answer(answer, 0, 0, 0);
        return 9;
    };
    if answer.len() != answering::ANSWER {
        return 9;
    }
    let told = imaged_salvage::salvage(image, history, list);
    answering::put_answer(answer, told.kept, told.cleared, 0);
    told.number
}

#[tactic(auto, unfolding(crate::specs::Card::card_plain, crate::specs::Card::plain_accepted))]
#[unsafe(no_mangle)]
pub extern "C" fn card_plain(
    image: &mut [u8],
    memory: &mut [u8],
    spots: &mut [u8],
    ticks: &[u8],
    keys: &[u16],
    randoms: &[u8],
    answer: &mut [u64],
) -> u32
    ensures leaves_plain { LeavesPlain
        (spec.card_plain ticks.now keys.now randoms.now (answers answer.old)
        image.old memory.old spots.old) result image.new memory.new spots.new }
    ensures answer_after { answer.new ≡ answered
        (spec.plain_accepted ticks.now keys.now randoms.now image.old
        memory.old spots.old) 0 0 answer.old }
{
    let Some(image) = image.as_mut_array() else {
        answering::put_answer(answer, 0, 0, 0);
        return 9;
    };
    if answer.len() != answering::ANSWER {
        return 9;
    }
    let told = imaged_plain::run(image, memory, spots, ticks, keys, randoms);
    answering::put_answer(answer, told.accepted, 0, 0);
    told.number
}

#[unsafe(no_mangle)]
pub extern "C" fn card_page(image: &[u8], page: &mut [u8]) -> u32
    ensures { LeavesPage result image.now page.old page.new }
{
    let Some(image) = image.as_array() else {
        return 9;
    };
    image_after::number(stepper::draw(image::read(image).machine, page))
}

#[unsafe(no_mangle)]
pub extern "C" fn card_panel(picture: &[u8], panel: &mut [u8]) -> u32
    ensures { LeavesPanel result picture.now panel.old panel.new }
{
    image_after::number(panel::panel(picture, panel))
}

#[unsafe(no_mangle)]
pub extern "C" fn card_rows(picture: &[u8], rows: &mut [u64]) -> u32
    ensures { LeavesRows result picture.now rows.old rows.new }
{
    image_after::number(chip8::to_rows(picture, rows))
}

#[unsafe(no_mangle)]
pub extern "C" fn card_bytes(rows: &[u64], picture: &mut [u8]) -> u32
    ensures { LeavesBytes result rows.now picture.old picture.new }
{
    image_after::number(chip8::to_bytes(rows, picture))
}
