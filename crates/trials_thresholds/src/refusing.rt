// What the call refuses.
use std::io;
use thresholds::CommonHeader;
use trials_threshold_vectors::refused;
use trials_vectors::WORD;

// Where the lists of bounds have room for 17 blocks of three pairs.
fn with_room(
    rt: &impl Print,
    label: &[u8],
    h: CommonHeader,
    links: &[u8],
    events: &[u64],
    list: &[u64],
    number: u64,
) -> io::Result<()> {
    let mut lower = [WORD; 51];
    let mut upper = [WORD; 51];
    let a = thresholds::thresholds(h, links, events, list, &mut lower, &mut upper);
    refused(rt, label, a, &lower, &upper, number)
}

// Where neither has room for one block.
fn without_room(
    rt: &impl Print,
    label: &[u8],
    h: CommonHeader,
    links: &[u8],
    events: &[u64],
    list: &[u64],
    number: u64,
) -> io::Result<()> {
    let mut lower = [WORD; 2];
    let mut upper = [WORD; 2];
    let a = thresholds::thresholds(h, links, events, list, &mut lower, &mut upper);
    refused(rt, label, a, &lower, &upper, number)
}

// A plan that is refused, with good thresholds and room, and where a threshold is 0 and there is no room.
pub fn plan(
    rt: &impl Print,
    label: &[u8],
    nodes: u64,
    links: u64,
    events: u64,
    cap: u64,
    bytes: &[u8],
    words: &[u64],
    number: u64,
) -> io::Result<()> {
    let h = CommonHeader {
        nodes,
        links,
        events,
        cap,
    };
    let good = [2u64, 1];
    let zero = [0u64];
    with_room(rt, label, h, bytes, words, &good, number)?;
    without_room(rt, label, h, bytes, words, &zero, number)
}

// Three nodes, no link and no event.
fn three_nodes() -> CommonHeader {
    CommonHeader {
        nodes: 3,
        links: 0,
        events: 0,
        cap: 100,
    }
}

// 23 for a list of thresholds, before 12.
fn wrong(rt: &impl Print, label: &[u8], list: &[u64]) -> io::Result<()> {
    let bytes = [7u8];
    let words = [7u64];
    let h = three_nodes();
    with_room(rt, label, h, &bytes, &words, list, 23)?;
    without_room(rt, label, h, &bytes, &words, list, 23)
}

fn alone(rt: &impl Print, label: &[u8], t: u64) -> io::Result<()> {
    let list = [t];
    wrong(rt, label, &list)
}

fn couple(rt: &impl Print, label: &[u8], first: u64, second: u64) -> io::Result<()> {
    let list = [first, second];
    wrong(rt, label, &list)
}

// No threshold, one more than 16, and the last of 16 above the one before.
pub fn lengths(rt: &impl Print) -> io::Result<()> {
    let list = [17u64, 16, 15, 14, 13, 12, 11, 10, 9, 8, 7, 6, 5, 4, 3, 2, 1];
    wrong(rt, b"23 for an empty list", &list[0..0])?;
    wrong(rt, b"23 for 17 thresholds", &list)?;
    let last = [16u64, 15, 14, 13, 12, 11, 10, 9, 8, 7, 6, 5, 4, 2, 1, 3];
    wrong(rt, b"23 for the last of 16", &last)
}

// One outside 1 to 10^18, or one that doesn't fall.
pub fn values(rt: &impl Print, label: &[u8]) -> io::Result<()> {
    alone(rt, label, 0)?;
    alone(rt, label, 1_000_000_000_000_000_001)?;
    couple(rt, label, 1, 0)?;
    couple(
        rt,
        label,
        1_000_000_000_000_000_001,
        1_000_000_000_000_000_000,
    )?;
    couple(rt, label, 5, 5)?;
    couple(rt, label, 5, 6)
}

// Two thresholds and three pairs: 12 for a list of five entries.
pub fn lower_room(rt: &impl Print) -> io::Result<()> {
    let bytes = [7u8];
    let words = [7u64];
    let list = [2u64, 1];
    let mut lower = [WORD; 5];
    let mut upper = [WORD; 6];
    let h = three_nodes();
    let a = thresholds::thresholds(h, &bytes, &words, &list, &mut lower, &mut upper);
    refused(rt, b"12 for the lower bounds", a, &lower, &upper, 12)
}

pub fn upper_room(rt: &impl Print) -> io::Result<()> {
    let bytes = [7u8];
    let words = [7u64];
    let list = [2u64, 1];
    let mut lower = [WORD; 6];
    let mut upper = [WORD; 5];
    let h = three_nodes();
    let a = thresholds::thresholds(h, &bytes, &words, &list, &mut lower, &mut upper);
    refused(rt, b"12 for the upper bounds", a, &lower, &upper, 12)
}
