// The salvage of a worn history beside an image of the right length: the state and the numbers are read, the history is salvaged, and the new
// numbers are written back.
#![tactic(auto)]

ghost use Rattle.std.specs.Prelude.{◌≡◌};
ghost use Rattle.imaged_salvage.specs.Salvaged.{salvage_of, LeavesSalvage};

use image::{IMAGE, Standing};
use salvage::Salvaged;

// What a salvage tells besides what it is lent, in the numbers of C: the refusal number or 0, the records kept, and the places cleared.
#[derive(Clone, Copy)]
pub struct Told {
    pub number: u32,
    pub kept: u64,
    pub cleared: u64,
}

pub fn salvage(image: &mut [u8; IMAGE], history: &mut [u8], list: &mut [u16]) -> Told
    ensures leaves_salvage { LeavesSalvage image.old (salvage_of image.old history.old list.old)
        result.number image.new history.new list.new }
    ensures kept_value { (result.kept ≡ (salvage_of image.old history.old list.old).kept)
        × (result.cleared ≡ (salvage_of image.old history.old list.old).cleared) }
{
    let Standing { machine, mut trail } = image::read(image);
    match salvage::salvage(machine, &mut trail, history, list) {
        Ok(Salvaged { kept, cleared }) => {
            image_writing::write(image, machine, trail);
            Told {
                number: 0,
                kept: kept as u64,
                cleared: cleared as u64,
            }
        }
        Err(why) => Told {
            number: u32::from(u8::from(why)),
            kept: 0,
            cleared: 0,
        },
    }
}
