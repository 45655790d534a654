// The run with windows: document 02, request U7. A window is five words: start, end, nodes, links 0 to 63, links 64 to 127.
use crate::totals;
use std::io;
use trials_vectors::{header, same_list};

const WHOLE: u64 = 1_000_000_000_000_000_000;

const TENTH: u64 = 100_000_000_000_000_000;

pub fn windows(rt: &impl Print) -> io::Result<()> {
    edges_of_the_week(rt)?;
    edges_of_a_window(rt)?;
    several_windows(rt)?;
    elements(rt)?;
    ranges(rt)?;
    bits(rt)?;
    tails(rt)?;
    order(rt)
}

// A triangle, links 0 (0-1), 1 (0-2) and 2 (1-2), with an event of 1/10 on link 0: held to its number and to the bounds of the pairs 0-1,
// 0-2 and 1-2. Both scenarios are examined, so the two bounds of a pair are equal. The entry past the last pair stays.
fn at(
    rt: &impl Print,
    label: &[u8],
    windows: &[u64],
    minute: u64,
    number: u64,
    first: u64,
    second: u64,
    third: u64,
) -> io::Result<()> {
    let links = [0u8, 1, 0, 2, 1, 2];
    let events = [100_000_000u64, 0, 1, 0];
    let mut lower = [7u64; 4];
    let mut upper = [7u64; 4];
    let h = header(3, 3, 1, 1, 100);
    totals(
        rt,
        label,
        bounds::run_at(h, &links, &events, windows, minute, &mut lower, &mut upper),
        number,
        2,
        1,
        WHOLE,
    )?;
    let bounds = [first, second, third, 7];
    same_list(rt, label, &lower, &bounds)?;
    same_list(rt, label, &upper, &bounds)
}

// Nothing is out: no pair is ever cut off.
fn whole(rt: &impl Print, label: &[u8], windows: &[u64], minute: u64) -> io::Result<()> {
    at(rt, label, windows, minute, 0, 0, 0, 0)
}

// Link 1 is out: the pairs 0-1 and 0-2 are cut off where link 0 fails.
fn open(rt: &impl Print, label: &[u8], windows: &[u64], minute: u64) -> io::Result<()> {
    at(rt, label, windows, minute, 0, TENTH, TENTH, 0)
}

// A refusal leaves both lists as they were.
fn refused(
    rt: &impl Print,
    label: &[u8],
    windows: &[u64],
    minute: u64,
    number: u64,
) -> io::Result<()> {
    at(rt, label, windows, minute, number, 7, 7, 7)
}

fn edges_of_the_week(rt: &impl Print) -> io::Result<()> {
    let week = [0u64, 10_080, 0, 2, 0];
    open(rt, b"the whole week at minute 0", &week, 0)?;
    open(rt, b"the whole week at minute 10,079", &week, 10_079)?;
    refused(rt, b"22 for minute 10,080", &week, 10_080, 22)?;
    whole(rt, b"no window at minute 0", &week[0..0], 0)?;
    whole(rt, b"no window at minute 10,079", &week[0..0], 10_079)?;
    refused(rt, b"22 where the list is empty", &week[0..0], 10_080, 22)?;
    refused(
        rt,
        b"22 for the largest minute",
        &week[0..0],
        18_446_744_073_709_551_615,
        22,
    )
}

// Start is included, end is not.
fn edges_of_a_window(rt: &impl Print) -> io::Result<()> {
    let hour = [600u64, 660, 0, 2, 0];
    whole(rt, b"the minute before a window", &hour, 599)?;
    open(rt, b"the first minute of a window", &hour, 600)?;
    open(rt, b"the last minute of a window", &hour, 659)?;
    whole(rt, b"the end of a window", &hour, 660)?;
    let minute = [600u64, 601, 0, 2, 0];
    whole(rt, b"before a window of one minute", &minute, 599)?;
    open(rt, b"a window of one minute", &minute, 600)?;
    whole(rt, b"after a window of one minute", &minute, 601)
}

// Link 1 in the first window, node 2 in the second.
fn several_windows(rt: &impl Print) -> io::Result<()> {
    let touching = [0u64, 600, 0, 2, 0, 600, 1200, 4, 0, 0];
    open(
        rt,
        b"the last minute before the next window",
        &touching,
        599,
    )?;
    at(
        rt,
        b"the minute where two touch",
        &touching,
        600,
        0,
        TENTH,
        WHOLE,
        WHOLE,
    )?;
    whole(rt, b"after both", &touching, 1200)?;
    // links 1 and 2 are out together: node 2 is cut off, and 0-1 where link 0 fails
    let overlapping = [0u64, 600, 0, 2, 0, 500, 1200, 0, 4, 0];
    open(rt, b"in the first alone", &overlapping, 499)?;
    at(rt, b"in both", &overlapping, 500, 0, TENTH, WHOLE, WHOLE)?;
    // link 2 is out: the pairs 0-1 and 1-2 are cut off where link 0 fails
    at(
        rt,
        b"in the second alone",
        &overlapping,
        600,
        0,
        TENTH,
        0,
        TENTH,
    )
}

// What a window takes out: a node with its links, all of them, nothing.
fn elements(rt: &impl Print) -> io::Result<()> {
    let node = [0u64, 10, 2, 0, 0];
    at(rt, b"node 1 is out", &node, 0, 0, WHOLE, 0, WHOLE)?;
    let all = [0u64, 10, 7, 7, 0];
    at(rt, b"everything is out", &all, 0, 0, WHOLE, WHOLE, WHOLE)?;
    let nothing = [0u64, 10, 0, 0, 0];
    whole(rt, b"a window that takes nothing out", &nothing, 0)
}

// 21: not start < end <= 10,080.
fn ranges(rt: &impl Print) -> io::Result<()> {
    let empty = [600u64, 600, 0, 2, 0];
    refused(rt, b"21 for start = end", &empty, 0, 21)?;
    let reversed = [601u64, 600, 0, 2, 0];
    refused(rt, b"21 for start after end", &reversed, 0, 21)?;
    let past = [0u64, 10_081, 0, 2, 0];
    refused(rt, b"21 for an end past the week", &past, 0, 21)?;
    let last = [10_079u64, 10_080, 0, 2, 0];
    open(rt, b"the last minute of the week", &last, 10_079)?;
    let largest = [0u64, 18_446_744_073_709_551_615, 0, 2, 0];
    refused(rt, b"21 for the largest end", &largest, 0, 21)
}

// 21: a bit at or past the count, also in a window that does not hold the minute.
fn bits(rt: &impl Print) -> io::Result<()> {
    let node = [100u64, 200, 8, 0, 0];
    refused(rt, b"21 for node 3 of three", &node, 0, 21)?;
    let link = [100u64, 200, 0, 8, 0];
    refused(rt, b"21 for link 3 of three", &link, 0, 21)?;
    let high = [100u64, 200, 0, 0, 1];
    refused(rt, b"21 for link 64 of three", &high, 0, 21)?;
    let second = [0u64, 10, 0, 2, 0, 100, 200, 8, 0, 0];
    refused(rt, b"21 for the second window", &second, 0, 21)
}

// 12: words at the tail that make no whole window.
fn tails(rt: &impl Print) -> io::Result<()> {
    let windows = [0u64, 10, 0, 2, 0, 0, 10, 0, 2, 0];
    refused(rt, b"12 for a tail of 1 word", &windows[0..6], 0, 12)?;
    refused(rt, b"12 for a tail of 2 words", &windows[0..7], 0, 12)?;
    refused(rt, b"12 for a tail of 3 words", &windows[0..8], 0, 12)?;
    refused(rt, b"12 for a tail of 4 words", &windows[0..9], 0, 12)?;
    refused(rt, b"12 for a tail alone", &windows[0..4], 0, 12)?;
    open(rt, b"two whole windows", &windows, 9)
}

// 12, then 21, then 22.
fn order(rt: &impl Print) -> io::Result<()> {
    let bad = [600u64, 600, 0, 2, 0, 0];
    refused(rt, b"12 before 21 and 22", &bad, 10_080, 12)?;
    refused(rt, b"21 before 22", &bad[0..5], 10_080, 21)?;
    let good = [600u64, 601, 0, 2, 0];
    refused(rt, b"22 after a good window", &good, 10_080, 22)
}
