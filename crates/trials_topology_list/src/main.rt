// The test program of the topology list. A word of a list is 7 before the call. Each expected value stands beside its vector, worked out
// by hand; a difference is printed, and `trials ended` is the last line. The stored output is that line alone.
#![tactic(auto)]

use mass::Refusal;
use plan::Header;
use std::io;
use trials_vectors::{header, many_links, same, same_list, same_part};

fn main(rt: HostRuntime) -> io::Result<()> {
    equal(&rt)?;
    node_down(&rt)?;
    high_links(&rt)?;
    first_end(&rt)?;
    nothing(&rt)?;
    full(&rt)?;
    no_entry(&rt)?;
    no_word(&rt)?;
    refused_lists(&rt)?;
    println!(rt; "trials ended")
}

// Holds an answer to its number and its number of entries.
fn answered(
    rt: &impl Print,
    label: &[u8],
    answer: Result<usize, Refusal>,
    number: u64,
    count: u64,
) -> io::Result<()> {
    match answer {
        Err(refusal) => same(rt, label, u32::from(refusal) as u64, number),
        Ok(n) => {
            same(rt, label, 0, number)?;
            same_part(rt, label, b"entries", n as u64, count)
        }
    }
}

// Holds the topology list of a plan to its number, its number of entries and the words of the lent list.
fn listed(
    rt: &impl Print,
    label: &[u8],
    h: Header,
    links: &[u8],
    events: &[u64],
    list: &mut [u64],
    number: u64,
    count: u64,
    want: &[u64],
) -> io::Result<()> {
    let answer = topology_list::topologies(h, links, events, list);
    answered(rt, label, answer, number, count)?;
    same_list(rt, label, list, want)
}

// One link, an event of 1/2 on it, and an event of 1/2 without members. Both work, or only the second fails: the link works, 1/4 and 1/4.
// The first fails: it does not, 1/4 and 1/4. Node 0 and node 1 are 3, link 0 is 1.
fn two_halves(
    rt: &impl Print,
    label: &[u8],
    cap: u64,
    list: &mut [u64],
    number: u64,
    count: u64,
    want: &[u64],
) -> io::Result<()> {
    let links = [0u8, 1];
    let events = [500_000_000u64, 0, 1, 0, 500_000_000, 0, 0, 0];
    let h = header(2, 1, 2, 1, cap);
    listed(rt, label, h, &links, &events, list, number, count, want)
}

// Three words are left at the tail.
fn equal(rt: &impl Print) -> io::Result<()> {
    let mut list = [7u64; 11];
    let want = [
        3u64,
        1,
        0,
        500_000_000_000_000_000,
        3,
        0,
        0,
        500_000_000_000_000_000,
        7,
        7,
        7,
    ];
    two_halves(rt, b"equal topologies", 100, &mut list, 0, 2, &want)
}

// Links 0-1 and 1-2, and an event of 1/10 on node 1, which takes both links with it. All three nodes are 7, nodes 0 and 2 are 5.
fn node_down(rt: &impl Print) -> io::Result<()> {
    let links = [0u8, 1, 1, 2];
    let events = [100_000_000u64, 2, 0, 0];
    let mut list = [7u64; 8];
    let h = header(3, 2, 1, 1, 100);
    let want = [
        7u64,
        3,
        0,
        900_000_000_000_000_000,
        5,
        0,
        0,
        100_000_000_000_000_000,
    ];
    listed(
        rt,
        b"a node down",
        h,
        &links,
        &events,
        &mut list,
        0,
        2,
        &want,
    )
}

// 64 nodes and 128 links, and an event of 1 on link 64, the lowest of the second word of links: it always fails.
fn high_links(rt: &impl Print) -> io::Result<()> {
    let links = many_links();
    let events = [1_000_000_000u64, 0, 0, 1];
    let mut list = [7u64; 5];
    let h = header(64, 128, 1, 1_000_000_000_000_000_000, 100);
    let want = [
        18_446_744_073_709_551_615u64,
        18_446_744_073_709_551_615,
        18_446_744_073_709_551_614,
        1_000_000_000_000_000_000,
        7,
    ];
    listed(rt, b"link 64", h, &links, &events, &mut list, 0, 1, &want)
}

// At cap 1: the first end alone, in which both events work.
fn first_end(rt: &impl Print) -> io::Result<()> {
    let mut list = [7u64; 4];
    let want = [3u64, 1, 0, 250_000_000_000_000_000];
    two_halves(rt, b"cap 1", 1, &mut list, 0, 1, &want)
}

// Marked plan 9: an event of 1/2 and t = 10^18, so nothing is examined. The lent list is empty: 0 entries, and neither 12 nor 15.
fn nothing(rt: &impl Print) -> io::Result<()> {
    let links = [0u8, 1];
    let events = [500_000_000u64, 0, 1, 0];
    let mut list = [7u64; 1];
    let h = header(2, 1, 1, 1_000_000_000_000_000_000, 100);
    let answer = topology_list::topologies(h, &links, &events, &mut list[0..0]);
    answered(rt, b"nothing examined", answer, 0, 0)?;
    same(rt, b"nothing examined, list", list[0], 7)
}

// Seven words have room for one entry: the first two scenarios have one topology, 1/4 and 1/4, and the third has another: 15, and the list
// holds what the first two gave.
fn full(rt: &impl Print) -> io::Result<()> {
    let mut list = [7u64; 7];
    let want = [3u64, 1, 0, 500_000_000_000_000_000, 7, 7, 7];
    two_halves(rt, b"15", 100, &mut list, 15, 0, &want)
}

// No event: the one scenario finds no whole entry in three words: 15, not 12.
fn no_entry(rt: &impl Print) -> io::Result<()> {
    let none = [0u8; 1];
    let words = [0u64; 1];
    let mut list = [7u64; 3];
    let h = header(1, 0, 0, 1, 1);
    listed(
        rt,
        b"15 in three words",
        h,
        &none,
        &words,
        &mut list,
        15,
        0,
        &[7, 7, 7],
    )
}

// And none in an empty list.
fn no_word(rt: &impl Print) -> io::Result<()> {
    let none = [0u8; 1];
    let words = [0u64; 1];
    let mut list = [7u64; 1];
    let h = header(1, 0, 0, 1, 1);
    let answer = topology_list::topologies(h, &none, &words, &mut list[0..0]);
    answered(rt, b"15 in no words", answer, 15, 0)?;
    same(rt, b"15 in no words, list", list[0], 7)
}

// A plan of one event whose lists are refused: the tests of the lists come before 15, and leave the three words of the list.
fn refused(
    rt: &impl Print,
    label: &[u8],
    threshold: u64,
    links: &[u8],
    events: &[u64],
    number: u64,
) -> io::Result<()> {
    let mut list = [7u64; 3];
    let h = header(2, 1, 1, threshold, 100);
    listed(
        rt,
        label,
        h,
        links,
        events,
        &mut list,
        number,
        0,
        &[7, 7, 7],
    )
}

// 5 for t = 0, 12 for an event list of three words, 7 for a link from 1 to 0.
fn refused_lists(rt: &impl Print) -> io::Result<()> {
    let links = [0u8, 1];
    let wrong = [1u8, 0];
    let events = [500_000_000u64, 0, 1, 0];
    refused(rt, b"5 before 15", 0, &links, &events, 5)?;
    refused(rt, b"12 before 15", 1, &links, &events[0..3], 12)?;
    refused(rt, b"7 before 15", 1, &wrong, &events, 7)
}
