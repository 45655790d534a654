// The conditional figure, its floats by their bits: document 01, "Further readings of a plan".
ghost use Rattle.std.specs.Prelude.{not, T};
ghost use Rattle.std.specs.Float.Ieee.{is_nan};

use plan::Header;
use readings::Shares;
use std::io;
use trials_vectors::{header, same, same_part};

const TENTH: u64 = 100_000_000_000_000_000;

const WHOLE: u64 = 1_000_000_000_000_000_000;

// The bits of 0 and of 1.
const ZERO: u64 = 0;

const ONE: u64 = 0x3ff0_0000_0000_0000;

// Holds the floats of a figure that was given to their bits.
fn same_bits(
    rt: &impl Print,
    label: &[u8],
    shares: Shares,
    disconnected: u64,
    examined: u64,
) -> io::Result<()>
    requires { T (not (is_nan shares.disconnected)) × T (not (is_nan shares.examined)) }
{
    same_part(
        rt,
        label,
        b"disconnected",
        f64::to_bits(shares.disconnected),
        disconnected,
    )?;
    same_part(
        rt,
        label,
        b"examined",
        f64::to_bits(shares.examined),
        examined,
    )
}

fn same_case(
    rt: &impl Print,
    label: &[u8],
    number: u64,
    wanted_number: u64,
    given: u64,
    wanted: u64,
) -> io::Result<()> {
    same(rt, label, number, wanted_number)?;
    same_part(rt, label, b"given", given, wanted)
}

// Holds a figure to its number, to whether it is given (1 or 0), and to the bits of its floats.
fn bits(
    rt: &impl Print,
    label: &[u8],
    h: Header,
    links: &[u8],
    events: &[u64],
    v: u64,
    w: u64,
    number: u64,
    given: u64,
    disconnected: u64,
    examined: u64,
) -> io::Result<()> {
    match readings::figure(h, links, events, v, w) {
        Err(refusal) => same_case(rt, label, u32::from(refusal) as u64, number, 0, given),
        Ok(None) => same_case(rt, label, 0, number, 0, given),
        Ok(Some(shares)) => {
            same_bits(rt, label, shares, disconnected, examined)?;
            same_case(rt, label, 0, number, 1, given)
        }
    }
}

// A single link with one event on it.
fn on_link(
    rt: &impl Print,
    label: &[u8],
    q: u64,
    threshold: u64,
    cap: u64,
    v: u64,
    w: u64,
    number: u64,
    given: u64,
    disconnected: u64,
    examined: u64,
) -> io::Result<()> {
    let links = [0u8, 1];
    let events = [q, 0, 1, 0];
    let h = header(2, 1, 1, threshold, cap);
    bits(
        rt,
        label,
        h,
        &links,
        &events,
        v,
        w,
        number,
        given,
        disconnected,
        examined,
    )
}

// Marked plans 2, 4 and 9: an event of 1/10, or of 1/2.
pub fn marked_figures(rt: &impl Print) -> io::Result<()> {
    on_link(
        rt,
        b"marked plan 2, 0.1 and 1",
        100_000_000,
        TENTH,
        100,
        0,
        1,
        0,
        1,
        0x3fb9_9999_9999_999a,
        ONE,
    )?;
    on_link(
        rt,
        b"marked plan 4, 0 and 0.9",
        100_000_000,
        1,
        1,
        0,
        1,
        0,
        1,
        ZERO,
        0x3fec_cccc_cccc_cccd,
    )?;
    on_link(
        rt,
        b"marked plan 9, no figure",
        500_000_000,
        WHOLE,
        100,
        0,
        1,
        0,
        0,
        0,
        0,
    )
}

// Two events on the only link, q = 333,333,333 and 111,111,111: masses 592592592962962963 (none fails), 74074074037037037 (the second),
// 296296296037037037 (the first) and 37037036962962963 (both).
fn two_events(
    rt: &impl Print,
    label: &[u8],
    threshold: u64,
    disconnected: u64,
    examined: u64,
) -> io::Result<()> {
    let links = [0u8, 1];
    let events = [333_333_333u64, 0, 1, 0, 111_111_111, 0, 1, 0];
    let h = header(2, 1, 2, threshold, 100);
    bits(
        rt,
        label,
        h,
        &links,
        &events,
        0,
        1,
        0,
        1,
        disconnected,
        examined,
    )
}

// The triangle has E = 10^18 - 4, which rounds to 10^18.
fn triangle(rt: &impl Print) -> io::Result<()> {
    let links = [0u8, 1, 0, 2, 1, 2];
    let events = [1u64, 0, 1, 0, 1, 0, 2, 0, 1, 0, 4, 0];
    let h = header(3, 3, 3, 1, 100);
    bits(
        rt,
        b"the triangle",
        h,
        &links,
        &events,
        1,
        2,
        0,
        1,
        ZERO,
        ONE,
    )
}

// All four are examined at t = 1: lower is 407407407037037037, of one whole. Two are at t = 10^17: lower is 296296296037037037, of
// 888888889000000000.
pub fn rounded_figures(rt: &impl Print) -> io::Result<()> {
    two_events(
        rt,
        b"two events, all examined",
        1,
        0x3fda_12f6_8457_d2b0,
        ONE,
    )?;
    two_events(
        rt,
        b"two events, two examined",
        TENTH,
        0x3fd5_5555_54f9_b516,
        0x3fec_71c7_1c81_0c7c,
    )?;
    triangle(rt)
}

// The lists' refusals and then 13 come first, also where E = 0.
pub fn refused_figures(rt: &impl Print) -> io::Result<()> {
    on_link(
        rt,
        b"13 for equal nodes where E = 0",
        500_000_000,
        WHOLE,
        100,
        1,
        1,
        13,
        0,
        0,
        0,
    )?;
    on_link(
        rt,
        b"13 for a node past the last",
        500_000_000,
        WHOLE,
        100,
        0,
        2,
        13,
        0,
        0,
        0,
    )?;
    on_link(rt, b"5 before 13", 500_000_000, 0, 100, 1, 0, 5, 0, 0, 0)
}
