// The dots of the glass as block characters. A spot fills two by two dots, and a character shows a spot and the spot below it.
ghost use Rattle.std.specs.Prelude.{◌<◌};

use arrayvec::ArrayString;
use rules::Refusal;
use std::{fmt, io};

// How many bytes two rows of spots have: four rows of dots, sixteen bytes each.
const TWO: usize = 64;

// Whether the spot in column x of the upper row, or the lower, is lit, by its upper left dot.
fn is_lit(dots: &[u8; TWO], x: usize, lower: bool) -> bool
    requires { x < 64 }
{
    let row = if lower { 32 } else { 0 };
    dots[row + x / 4] & (0x80 >> (2 * (x % 4))) != 0
}

// The character of a spot and the spot below it.
fn block(upper: bool, lower: bool) -> char {
    match (upper, lower) {
        (true, true) => '█',
        (true, false) => '▀',
        (false, true) => '▄',
        (false, false) => ' ',
    }
}

// Two rows of spots, as a row of characters.
#[derive(Drop)]
struct Row<'a>(&'a [u8; TWO]);

impl<'a> fmt::Display for Row<'a> {
    fn fmt<W: fmt::Write>(&self, f: &mut fmt::Formatter<W>) -> fmt::Result {
        for x in 0..64 {
            f.write_char(block(is_lit(self.0, x, false), is_lit(self.0, x, true)))?;
        }
        Ok(())
    }
}

// Row y of characters.
fn row_of(glass: &[u8; 1024], y: usize) -> Row<'_>
    requires { y < 16 }
{
    Row(glass[TWO * y..].first_chunk().unwrap())
}

// The game's picture in sixteen lines, from the top rows on, with the page of variables beside it where there is one.
pub fn write(rt: &impl Print, game: &[u8; 1024], variables: Option<&[u8; 1024]>) -> io::Result<()> {
    for y in 0..16 {
        let left = row_of(game, y);
        match variables {
            None => println!(rt; "{left}")?,
            Some(page) => {
                let right = row_of(page, y);
                println!(rt; "{left}  {right}")?
            }
        }
    }
    Ok(())
}

// How many spots are lit, by the machine's own number.
pub fn write_lit(rt: &impl Print, lit: u16) -> io::Result<()> {
    println!(rt; "lit {lit}")
}

// Why it stopped, and where.
pub fn write_stop(rt: &impl Print, outcome: Result<(), Refusal>, pc: u16) -> io::Result<()> {
    let mut line = ArrayString::<17>::new();
    line::push_stop(&mut line, parts::number(outcome), pc);
    rt.print(line)
}
