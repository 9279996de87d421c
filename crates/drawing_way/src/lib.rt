// The way of a drawing through a step of a tested world. It is judged, and its record is kept while it is drawn.
#![tactic(auto)]

ghost use Rattle.rules.specs.World.{world};
ghost use Rattle.rules.specs.Rows.{bytes_of};
ghost use Rattle.parts.specs.Whole.{whole};
ghost use Rattle.rules.specs.declared.Op.TheVariants.{Draw};
ghost use Rattle.ways.specs.Steps.{Reached, Steps};

use parts::Core;
use rules::{Action, Machine, Refusal, Trail};
use ways::{Counts, Stepped};

// A drawing keeps the rows in the pass in which it turns them over. The verdict, the record and the drawing share one column and one row.
pub fn drawing_step(
    x: u8,
    y: u8,
    n: u8,
    c: Core,
    v: &mut [u8; 16],
    stack: &[u16; Machine::STACK],
    trail: Trail,
    memory: &[u8; Machine::MEMORY],
    rows: &mut [u64; Machine::ROWS],
    history: &mut [u8],
    keys: u16,
    random: u8,
) -> Result<Stepped, Refusal>
    requires { Reached (Draw x y n) (world (whole c v.old stack.now) trail memory.now (bytes_of rows.old) history.old) }
    ensures { Steps keys random
        (world (whole c v.old stack.now) trail memory.now (bytes_of rows.old)
        history.old) result v.new stack.now memory.now (bytes_of rows.new) history.new }
{
    let column = transfers::column_of(v, x) as usize;
    let row = transfers::row_of(v, y);
    verdict::drawable(c, column, row as usize, n, memory, rows)?;
    let places = fitting::places(history);
    let change = transfers::rows_change(n, row);
    keeping::keep(
        history,
        trail.next,
        c,
        v,
        stack,
        change,
        Action::Step(keys, random),
    );
    let at = keeping::PLACE * trail.next;
    let pattern = transfers::pattern(c.i, n, memory);
    let acted = transfers::draw(
        c,
        v,
        column,
        row as usize,
        pattern,
        rows,
        &mut history[at..at + keeping::PLACE],
        keeping::AT_OLD,
    );
    Ok(Stepped {
        core: acted.core,
        trail: trail::grown(trail, places),
        counts: Counts {
            dark: acted.dark,
            copied: fields::count_of(change) as usize,
        },
    })
}
