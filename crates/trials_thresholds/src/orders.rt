// The tests of the plan, in their order: in each vector something of the plan that is tested later is wrong too. Every plan is refused with good
// thresholds and room for the bounds, and with a threshold of 0 and no room. There is no 5.
use crate::refusing::plan;
use std::io;

// 4, 6, then 12: the list of links lacks a byte, that of events a word, link 0 falls, and event 0 is above 10^9.
fn header(
    rt: &impl Print,
    label: &[u8],
    nodes: u64,
    links: u64,
    events: u64,
    cap: u64,
    number: u64,
) -> io::Result<()> {
    let bytes = [1u8, 0, 1];
    let words = [1_000_000_001u64, 8, 0, 0, 10_000_000, 0, 2];
    plan(rt, label, nodes, links, events, cap, &bytes, &words, number)
}

pub fn headers(rt: &impl Print, label: &[u8]) -> io::Result<()> {
    // 4 for 0 nodes
    header(rt, label, 0, 2, 2, 0, 4)?;
    // 4 for 129 events
    header(rt, label, 3, 2, 129, 0, 4)?;
    // 6 for cap 0
    header(rt, label, 3, 2, 2, 0, 6)?;
    // with one event the list of events is long enough, and with one link that of links
    // 12 for the links
    header(rt, label, 3, 2, 1, 1, 12)?;
    // 12 for the events
    header(rt, label, 3, 1, 2, 1, 12)
}

// 7: a link that falls, before an event that is above 10^9.
pub fn link(rt: &impl Print, label: &[u8]) -> io::Result<()> {
    let bytes = [0u8, 1, 2, 1];
    let words = [1_000_000_001u64, 8, 0, 0, 10_000_000, 0, 2, 0];
    plan(rt, label, 3, 2, 2, 100, &bytes, &words, 7)
}
