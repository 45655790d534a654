// Looks at damaged walks. A look tests what it shows, and nothing else: for a pair the node count, E and the pair's own sum. Where these
// are not those of a walk, nothing is known of the pair: 0 and one whole. In thousandths 0-1 has 84 and 577, 0-2 has 63 and 556, 1-2 has
// 147 and 640 (row 5 of the table).
use crate::states::{MASS, THRESHOLD, half};
use std::io;
use trials_panel_vectors::{WHOLE, bounds, shown};
use walk_state::Walk;

// The largest number.
const ALL: u64 = 18_446_744_073_709_551_615;

fn with_sum(rt: &impl Print, i: usize, sum: u64) -> io::Result<Walk> {
    let mut w = half(rt)?;
    if i < 2016 {
        w.sums[i] = sum;
    }
    Ok(w)
}

fn with_nodes(rt: &impl Print, nodes: u64) -> io::Result<Walk> {
    let mut w = half(rt)?;
    let h = trials_vectors::header(nodes, 3, 4, THRESHOLD, 100);
    w.header = h;
    Ok(w)
}

fn with_mass(rt: &impl Print, mass: u64) -> io::Result<Walk> {
    let mut w = half(rt)?;
    w.mass = mass;
    Ok(w)
}

// Holds a pair to the bounds of which nothing is known.
fn unknown(rt: &impl Print, label: &[u8], w: Walk, v: u64, x: u64) -> io::Result<()> {
    bounds(rt, label, 5, w, v, x, 0, 0, WHOLE)
}

// The sum of 0-1 is one unit above E: nothing is known of 0-1. At E itself, 1,000 - 507 + 507 is the whole.
pub fn own_sum(rt: &impl Print) -> io::Result<()> {
    let w = with_sum(rt, 0, MASS + 1)?;
    unknown(rt, b"its own sum above E", w, 0, 1)?;
    let x = with_sum(rt, 0, MASS)?;
    bounds(rt, b"its own sum is E", 5, x, 0, 1, 0, MASS, WHOLE)?;
    let y = with_sum(rt, 2, ALL)?;
    unknown(rt, b"its own sum 2^64 - 1", y, 1, 2)
}

// The bounds of the other pairs are right beside it.
pub fn other_sums(rt: &impl Print) -> io::Result<()> {
    let w = with_sum(rt, 0, MASS + 1)?;
    bounds(
        rt,
        b"the sum of 0-1 above E",
        5,
        w,
        0,
        2,
        0,
        63_000_000_000_000_000,
        556_000_000_000_000_000,
    )?;
    bounds(
        rt,
        b"the sum of 0-1 above E",
        5,
        w,
        1,
        2,
        0,
        147_000_000_000_000_000,
        640_000_000_000_000_000,
    )
}

// So it is beside the sum of 0-2.
pub fn first_pair(rt: &impl Print) -> io::Result<()> {
    let x = with_sum(rt, 1, ALL)?;
    bounds(
        rt,
        b"the sum of 0-2 above E",
        5,
        x,
        0,
        1,
        0,
        84_000_000_000_000_000,
        577_000_000_000_000_000,
    )
}

fn none_known(rt: &impl Print, label: &[u8], w: Walk) -> io::Result<()> {
    unknown(rt, label, w, 0, 1)?;
    unknown(rt, label, w, 0, 2)?;
    unknown(rt, label, w, 1, 2)
}

// An E above the whole, or below the sums.
pub fn masses(rt: &impl Print) -> io::Result<()> {
    none_known(rt, b"E above the whole", with_mass(rt, WHOLE + 1)?)?;
    none_known(rt, b"E 2^64 - 1", with_mass(rt, ALL)?)?;
    none_known(rt, b"E 0", with_mass(rt, 0)?)
}

// More nodes than a plan has: 13 is tested with that count.
pub fn many_nodes(rt: &impl Print) -> io::Result<()> {
    let w = with_nodes(rt, 65)?;
    none_known(rt, b"65 nodes", w)?;
    unknown(rt, b"65 nodes", w, 63, 64)?;
    bounds(rt, b"65 nodes", 5, w, 64, 65, 13, 0, 0)
}

pub fn most_nodes(rt: &impl Print) -> io::Result<()> {
    let x = with_nodes(rt, ALL)?;
    unknown(rt, b"2^64 - 1 nodes", x, ALL - 2, ALL - 1)?;
    bounds(rt, b"2^64 - 1 nodes", 5, x, 0, ALL, 13, 0, 0)
}

// Other counts that a plan may have: of two nodes the only pair is the first, as of three; of 64 the last pair has sum 0, so its upper
// bound is 1,000 - 507.
pub fn nodes_of_a_plan(rt: &impl Print) -> io::Result<()> {
    let w = with_nodes(rt, 2)?;
    bounds(
        rt,
        b"2 nodes",
        5,
        w,
        0,
        1,
        0,
        84_000_000_000_000_000,
        577_000_000_000_000_000,
    )?;
    bounds(rt, b"2 nodes", 5, w, 0, 2, 13, 0, 0)?;
    bounds(rt, b"no node", 5, with_nodes(rt, 0)?, 0, 1, 13, 0, 0)?;
    bounds(
        rt,
        b"64 nodes",
        5,
        with_nodes(rt, 64)?,
        62,
        63,
        0,
        0,
        493_000_000_000_000_000,
    )
}

// The walk with wrong words that no look shows: the depth of a branch, a sum past the pairs, a probability, a link end, the ends reached, t
// and the cap.
fn damaged(rt: &impl Print) -> io::Result<Walk> {
    let mut w = half(rt)?;
    w.stack[508] = 5;
    w.sums[3] = ALL;
    w.events[0] = ALL;
    w.links[0] = 255;
    w.reached = ALL;
    let h = trials_vectors::header(3, 129, 129, 0, 0);
    w.header = h;
    Ok(w)
}

pub fn other_fields(rt: &impl Print) -> io::Result<()> {
    shown(rt, b"what no look shows", damaged(rt)?, 5)
}
