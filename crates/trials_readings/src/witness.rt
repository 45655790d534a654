// The witness: document 01, "Further readings of a plan", and document 02, request U5.
use plan::Header;
use std::io;
use trials_vectors::{header, same, same_part};

const TENTH: u64 = 100_000_000_000_000_000;

const WHOLE: u64 = 1_000_000_000_000_000_000;

pub fn witness(rt: &impl Print) -> io::Result<()> {
    marked(rt)?;
    denied(rt)?;
    high_word(rt)?;
    several(rt)?;
    refused(rt)
}

// Holds a witness to its number and to the two words of its failing events.
fn failing(
    rt: &impl Print,
    label: &[u8],
    h: Header,
    links: &[u8],
    events: &[u64],
    v: u64,
    w: u64,
    number: u64,
    low: u64,
    high: u64,
) -> io::Result<()> {
    match readings::witness(h, links, events, v, w) {
        Err(refusal) => same(rt, label, u32::from(refusal) as u64, number),
        Ok(set) => {
            same(rt, label, 0, number)?;
            same_part(rt, label, b"low", set.low, low)?;
            same_part(rt, label, b"high", set.high, high)
        }
    }
}

// A single link with one event, on the link or on node 0.
fn on_link(
    rt: &impl Print,
    label: &[u8],
    q: u64,
    nodes: u64,
    links: u64,
    threshold: u64,
    cap: u64,
    v: u64,
    w: u64,
    number: u64,
    low: u64,
) -> io::Result<()> {
    let bytes = [0u8, 1];
    let events = [q, nodes, links, 0];
    failing(
        rt,
        label,
        header(2, 1, 1, threshold, cap),
        &bytes,
        &events,
        v,
        w,
        number,
        low,
        0,
    )
}

// Marked plan 1: no link, so nothing has to fail.
fn no_link(rt: &impl Print) -> io::Result<()> {
    let links = [0u8; 1];
    let events = [0u64; 1];
    failing(
        rt,
        b"marked plan 1",
        header(2, 0, 0, WHOLE, 100),
        &links,
        &events,
        0,
        1,
        0,
        0,
        0,
    )
}

// Marked plan 6: two parallel links, so both events have to fail.
fn parallel(rt: &impl Print) -> io::Result<()> {
    let links = [0u8, 1, 0, 1];
    let events = [100_000_000u64, 0, 1, 0, 100_000_000, 0, 2, 0];
    failing(
        rt,
        b"marked plan 6",
        header(2, 2, 2, 1, 100),
        &links,
        &events,
        0,
        1,
        0,
        3,
        0,
    )
}

// Marked plans 2 and 8 beside them: the link fails, and node 0 does.
fn marked(rt: &impl Print) -> io::Result<()> {
    no_link(rt)?;
    parallel(rt)?;
    on_link(
        rt,
        b"marked plan 2",
        100_000_000,
        0,
        1,
        TENTH,
        100,
        0,
        1,
        0,
        1,
    )?;
    on_link(
        rt,
        b"marked plan 8",
        1_000_000_000,
        1,
        0,
        WHOLE,
        100,
        0,
        1,
        0,
        1,
    )
}

// 14: marked plans 3 (the scenario is dropped), 4 (it comes after the cap), 7 (it disconnects nothing) and 9 (nothing is examined).
fn denied(rt: &impl Print) -> io::Result<()> {
    on_link(
        rt,
        b"marked plan 3",
        100_000_000,
        0,
        1,
        TENTH + 1,
        100,
        0,
        1,
        14,
        0,
    )?;
    on_link(rt, b"marked plan 4", 100_000_000, 0, 1, 1, 1, 0, 1, 14, 0)?;
    on_link(rt, b"marked plan 7", 100_000_000, 0, 0, 1, 100, 0, 1, 14, 0)?;
    on_link(
        rt,
        b"marked plan 9",
        500_000_000,
        0,
        1,
        WHOLE,
        100,
        0,
        1,
        14,
        0,
    )
}

// Events 0 to 63 have the probability q and no member, event 64, of 1/10, is on the link.
fn many_events(q: u64) -> [u64; 260] {
    let mut events = [0u64; 260];
    for i in 0..64 {
        events[4 * i] = q;
    }
    events[256] = 100_000_000;
    events[258] = 1;
    events
}

// Events 0 to 63 are certain: 64 ends are dropped, end 65 is the scenario where event 64 works, and end 66 the one where it fails.
fn event_64(rt: &impl Print, label: &[u8], cap: u64, number: u64) -> io::Result<()> {
    let links = [0u8, 1];
    let events = many_events(1_000_000_000);
    failing(
        rt,
        label,
        header(2, 1, 65, 1, cap),
        &links,
        &events,
        0,
        1,
        number,
        18_446_744_073_709_551_615,
        1,
    )
}

fn high_word(rt: &impl Print) -> io::Result<()> {
    event_64(rt, b"event 64", 66, 0)?;
    event_64(rt, b"event 64 past the cap", 65, 14)
}

// Two events on the link, of 1/2 and 1/10. The four ends: nothing fails, event 1 alone (1/20), event 0 alone (9/20), both (1/20).
fn two_events(
    rt: &impl Print,
    label: &[u8],
    threshold: u64,
    cap: u64,
    number: u64,
    low: u64,
) -> io::Result<()> {
    let links = [0u8, 1];
    let events = [500_000_000u64, 0, 1, 0, 100_000_000, 0, 1, 0];
    failing(
        rt,
        label,
        header(2, 1, 2, threshold, cap),
        &links,
        &events,
        0,
        1,
        number,
        low,
        0,
    )
}

// Nothing joins the two nodes: each of the two ends cuts.
fn each_end_cuts(rt: &impl Print) -> io::Result<()> {
    let links = [0u8; 1];
    let events = [500_000_000u64, 0, 0, 0];
    failing(
        rt,
        b"the first end",
        header(2, 0, 1, 1, 100),
        &links,
        &events,
        0,
        1,
        0,
        0,
        0,
    )
}

// Events 0 and 64 are on the link: event 64 alone is the second end, though event 0 alone is the smaller number.
fn low_and_high(rt: &impl Print) -> io::Result<()> {
    let links = [0u8, 1];
    let mut events = many_events(100_000_000);
    events[2] = 1;
    failing(
        rt,
        b"event 64 before event 0",
        header(2, 1, 65, 1, 100),
        &links,
        &events,
        0,
        1,
        0,
        0,
        1,
    )
}

// Several scenarios cut the pair: the first of the walk is given, not the likeliest (event 0 alone) and not the last; a dropped one is
// passed over, and is an end all the same.
fn several(rt: &impl Print) -> io::Result<()> {
    two_events(rt, b"the first of three", 1, 100, 0, 2)?;
    two_events(rt, b"at the threshold", TENTH / 2, 2, 0, 2)?;
    two_events(rt, b"below the threshold", TENTH / 2 + 1, 3, 0, 1)?;
    two_events(rt, b"a dropped end is not shown", TENTH / 2 + 1, 2, 14, 0)?;
    each_end_cuts(rt)?;
    low_and_high(rt)
}

// The lists' refusals come before 13, and 13 before 14.
fn refused(rt: &impl Print) -> io::Result<()> {
    on_link(
        rt,
        b"13 for equal nodes",
        500_000_000,
        0,
        1,
        WHOLE,
        100,
        0,
        0,
        13,
        0,
    )?;
    on_link(
        rt,
        b"13 for nodes that fall",
        500_000_000,
        0,
        1,
        WHOLE,
        100,
        1,
        0,
        13,
        0,
    )?;
    on_link(
        rt,
        b"13 for a node past the last",
        500_000_000,
        0,
        1,
        WHOLE,
        100,
        1,
        2,
        13,
        0,
    )?;
    on_link(rt, b"6 before 13", 500_000_000, 0, 1, 1, 0, 1, 0, 6, 0)?;
    on_link(rt, b"8 before 13", 1_000_000_001, 0, 1, 1, 1, 1, 0, 8, 0)
}
