// Walks with a number set wrong: "from any other state a call only has to finish". Here a go-on then does nothing. After 5 ends the walk
// has two entries of the stack, from word 504 on: two dropped ends (ends 6 and 7), and the branch in which event 0 fails, of 400
// thousandths.
ghost use Rattle.std.specs.Prelude.{IfOk};
ghost use Rattle.trials_panel_vectors.specs.Table.{begun_with, LeftBy};

use panel::Quota;
use std::io;
use trials_panel_vectors::{WHOLE, answered, begun, same_walk, went_on};
use walk_state::Walk;

pub const THRESHOLD: u64 = 56_000_000_000_000_000;

pub const MASS: u64 = 507_000_000_000_000_000;

// The walk after 5 ends.
pub fn half(rt: &impl Print) -> io::Result<Walk>
    ensures { IfOk result (λ w. LeftBy (begun_with 100) (record { left = 5 }) 5 w) }
{
    let mut w = begun(rt, 100)?;
    let mut quota = Quota { left: 5 };
    went_on(rt, b"half", &mut w, &mut quota, 5, 0, 5, 5, 0)?;
    Ok(w)
}

// Holds a go-on to number 0, no end, and a walk and a quota that are as they were; with an empty quota too.
fn stays(rt: &impl Print, label: &[u8], w: Walk) -> io::Result<()> {
    let mut same = w;
    let mut quota = Quota { left: 100 };
    let answer = panel::go_on(&mut same, &mut quota, 5);
    answered(rt, label, 5, answer, quota, 0, 0, 100)?;
    same_walk(rt, label, same, w)?;
    let mut dry = Quota { left: 0 };
    let answer = panel::go_on(&mut same, &mut dry, 5);
    answered(rt, label, 5, answer, dry, 0, 0, 0)
}

// The walk with these numbers in its header.
fn with_header(
    rt: &impl Print,
    nodes: u64,
    links: u64,
    events: u64,
    threshold: u64,
    cap: u64,
) -> io::Result<Walk> {
    let mut w = half(rt)?;
    let h = trials_vectors::header(nodes, links, events, threshold, cap);
    w.header = h;
    Ok(w)
}

// The walk with these numbers.
fn with_numbers(
    rt: &impl Print,
    at: usize,
    reached: u64,
    count: u64,
    mass: u64,
) -> io::Result<Walk> {
    let mut w = half(rt)?;
    w.at = at;
    w.reached = reached;
    w.count = count;
    w.mass = mass;
    Ok(w)
}

// With the right numbers it goes on, so it is the wrong ones that stop it below.
pub fn right(rt: &impl Print) -> io::Result<()> {
    let mut w = with_header(rt, 3, 3, 4, THRESHOLD, 100)?;
    let mut quota = Quota { left: 100 };
    went_on(rt, b"the right header", &mut w, &mut quota, 5, 0, 5, 10, 95)?;
    let mut x = with_numbers(rt, 504, 5, 4, MASS)?;
    let mut other = Quota { left: 100 };
    went_on(
        rt,
        b"the right numbers",
        &mut x,
        &mut other,
        5,
        0,
        5,
        10,
        95,
    )
}

pub fn counts(rt: &impl Print) -> io::Result<()> {
    stays(rt, b"65 nodes", with_header(rt, 65, 3, 4, THRESHOLD, 100)?)?;
    stays(rt, b"no node", with_header(rt, 0, 3, 4, THRESHOLD, 100)?)?;
    stays(
        rt,
        b"129 links",
        with_header(rt, 3, 129, 4, THRESHOLD, 100)?,
    )
}

// Five ends are reached: a cap of 4 is too low.
pub fn header_numbers(rt: &impl Print) -> io::Result<()> {
    stays(rt, b"t = 0", with_header(rt, 3, 3, 4, 0, 100)?)?;
    stays(rt, b"cap 0", with_header(rt, 3, 3, 4, THRESHOLD, 0)?)?;
    stays(rt, b"cap 4", with_header(rt, 3, 3, 4, THRESHOLD, 4)?)?;
    stays(
        rt,
        b"cap 1,000,001",
        with_header(rt, 3, 3, 4, THRESHOLD, 1_000_001)?,
    )
}

// Entries have four words, and the stack has 512.
pub fn places(rt: &impl Print) -> io::Result<()> {
    stays(rt, b"at 3", with_numbers(rt, 3, 5, 4, MASS)?)?;
    stays(rt, b"at 516", with_numbers(rt, 516, 5, 4, MASS)?)?;
    stays(
        rt,
        b"at 2^64 - 4",
        with_numbers(rt, 18_446_744_073_709_551_612, 5, 4, MASS)?,
    )
}

pub fn tallies(rt: &impl Print) -> io::Result<()> {
    stays(
        rt,
        b"reached above the cap",
        with_numbers(rt, 504, 101, 4, MASS)?,
    )?;
    stays(
        rt,
        b"count above reached",
        with_numbers(rt, 504, 5, 6, MASS)?,
    )
}

// The branch that is to come has 400 thousandths: 600 and one unit more are too much; the sums of the pairs are above 0.
pub fn masses(rt: &impl Print) -> io::Result<()> {
    stays(
        rt,
        b"mass above the whole",
        with_numbers(rt, 504, 5, 4, WHOLE + 1)?,
    )?;
    stays(
        rt,
        b"mass above what is left",
        with_numbers(rt, 504, 5, 4, 600_000_000_000_000_001)?,
    )?;
    stays(rt, b"mass below a sum", with_numbers(rt, 504, 5, 4, 0)?)
}
