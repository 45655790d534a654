// What the writer refuses: document 01, "Refused". The output is left as it was.
use plan::Header;
use std::io;
use trials_vectors::{BYTE, all_same, header, large_events, many_links};

// Holds the answer of a writing to the number of a refusal, and the output to the pattern.
fn refused_into(
    rt: &impl Print,
    label: &[u8],
    h: Header,
    links: &[u8],
    events: &[u64],
    out: &mut [u8],
    want: u64,
) -> io::Result<()> {
    let answer = plan_writing::write(h, links, events, out);
    trials_vectors::refused(rt, label, answer, want)?;
    all_same(rt, label, out, BYTE)
}

// The same with an output that has room for each of these plans.
fn refused(
    rt: &impl Print,
    label: &[u8],
    h: Header,
    links: &[u8],
    events: &[u64],
    want: u64,
) -> io::Result<()> {
    let mut out = [BYTE; 400];
    refused_into(rt, label, h, links, events, &mut out, want)
}

// The triangle's lists, with numbers of its header that are out of range.
fn numbers(
    rt: &impl Print,
    label: &[u8],
    nodes: u64,
    links: u64,
    events: u64,
    threshold: u64,
    cap: u64,
    want: u64,
) -> io::Result<()> {
    let h = header(nodes, links, events, threshold, cap);
    let bytes = b"\x00\x01\x00\x02\x01\x02";
    let words = [1, 0, 1, 0, 1, 0, 2, 0, 1, 0, 4, 0];
    refused(rt, label, h, bytes, &words, want)
}

pub fn counts(rt: &impl Print) -> io::Result<()> {
    numbers(rt, b"write no node", 0, 3, 3, 1, 100, 4)?;
    numbers(rt, b"write 65 nodes", 65, 3, 3, 1, 100, 4)?;
    numbers(rt, b"write 256 + 3 nodes", 259, 3, 3, 1, 100, 4)?;
    numbers(rt, b"write 129 links", 3, 129, 3, 1, 100, 4)?;
    numbers(rt, b"write 256 + 3 links", 3, 259, 3, 1, 100, 4)?;
    numbers(rt, b"write 129 events", 3, 3, 129, 1, 100, 4)?;
    numbers(
        rt,
        b"write 2^64 - 1 events",
        3,
        3,
        18_446_744_073_709_551_615,
        1,
        100,
        4,
    )?;
    numbers(rt, b"write: 4 before 5", 0, 3, 3, 0, 100, 4)
}

pub fn threshold_and_cap(rt: &impl Print) -> io::Result<()> {
    numbers(rt, b"write threshold 0", 3, 3, 3, 0, 100, 5)?;
    numbers(
        rt,
        b"write threshold 10^18 + 1",
        3,
        3,
        3,
        1_000_000_000_000_000_001,
        100,
        5,
    )?;
    numbers(rt, b"write: 5 before 6", 3, 3, 3, 0, 0, 5)?;
    numbers(rt, b"write cap 0", 3, 3, 3, 1, 0, 6)?;
    numbers(rt, b"write cap 1,000,001", 3, 3, 3, 1, 1_000_001, 6)?;
    // 4,294,967,296 is 2^32: the low four bytes alone would be a cap of 100
    numbers(rt, b"write cap 2^32 + 100", 3, 3, 3, 1, 4_294_967_396, 6)
}

// 12 for a list: 3 links take 6 bytes and 3 events 12 words.
pub fn short_lists(rt: &impl Print) -> io::Result<()> {
    let h = header(3, 3, 3, 1, 100);
    let links = b"\x00\x01\x00\x02\x01\x02";
    let events = [1, 0, 1, 0, 1, 0, 2, 0, 1, 0, 4, 0];
    refused(
        rt,
        b"write 3 links of 5 bytes",
        h,
        b"\x00\x01\x00\x02\x01",
        &events,
        12,
    )?;
    refused(
        rt,
        b"write 3 events of 11 words",
        h,
        links,
        &[1, 0, 1, 0, 1, 0, 2, 0, 1, 0, 4],
        12,
    )?;
    refused(
        rt,
        b"write: 6 before 12",
        header(3, 3, 3, 1, 0),
        b"\x00",
        &events,
        6,
    )?;
    refused(
        rt,
        b"write: 12 for the events before 7",
        h,
        b"\x01\x00\x00\x02\x01\x02",
        &[1, 0, 1, 0],
        12,
    )
}

// 12 for the output, which is one byte short: the triangle takes 47 bytes.
pub fn short_output(rt: &impl Print) -> io::Result<()> {
    let mut out = [BYTE; 46];
    refused_into(
        rt,
        b"write the triangle into 46 bytes",
        header(3, 3, 3, 1, 100),
        b"\x00\x01\x00\x02\x01\x02",
        &[1, 0, 1, 0, 1, 0, 2, 0, 1, 0, 4, 0],
        &mut out,
        12,
    )
}

// The large plan takes 302 bytes.
pub fn short_large_output(rt: &impl Print) -> io::Result<()> {
    let mut out = [BYTE; 301];
    refused_into(
        rt,
        b"write the large plan into 301 bytes",
        header(64, 128, 2, 1_000_000_000_000_000_000, 1_000_000),
        &many_links(),
        &large_events(),
        &mut out,
        12,
    )
}

// The third event names link 3 of 3.
pub fn no_output(rt: &impl Print) -> io::Result<()> {
    let mut out = [BYTE; 0];
    refused_into(
        rt,
        b"write: 10 before 12 for the output",
        header(3, 3, 3, 1, 100),
        b"\x00\x01\x00\x02\x01\x02",
        &[1, 0, 1, 0, 1, 0, 2, 0, 1, 0, 8, 0],
        &mut out,
        10,
    )
}

// 7 in the last of three links, from a to b, with an event of probability q.
fn last_link(rt: &impl Print, label: &[u8], a: u8, b: u8, q: u64) -> io::Result<()> {
    let links = [0, 1, 0, 2, a, b];
    let events = [q, 0, 0, 0];
    refused(rt, label, header(3, 3, 1, 1, 100), &links, &events, 7)
}

pub fn ends(rt: &impl Print) -> io::Result<()> {
    last_link(rt, b"write a link to N", 1, 3, 1)?;
    last_link(rt, b"write a link from a node to itself", 2, 2, 1)?;
    last_link(rt, b"write a link with the larger end first", 2, 1, 1)?;
    last_link(rt, b"write: 7 before 8", 2, 1, 1_000_000_001)
}

// Two nodes, one link and two events, of which the first is right: q = 5 and no member.
fn second(
    rt: &impl Print,
    label: &[u8],
    q: u64,
    nodes: u64,
    low: u64,
    high: u64,
    want: u64,
) -> io::Result<()> {
    refused(
        rt,
        label,
        header(2, 1, 2, 1, 100),
        b"\x00\x01",
        &[5, 0, 0, 0, q, nodes, low, high],
        want,
    )
}

pub fn probabilities(rt: &impl Print) -> io::Result<()> {
    second(rt, b"write q = 10^9 + 1", 1_000_000_001, 0, 0, 0, 8)?;
    second(
        rt,
        b"write q = 2^64 - 1",
        18_446_744_073_709_551_615,
        0,
        0,
        0,
        8,
    )?;
    // 4,294,967,296 is 2^32: the low four bytes alone would be a probability of 5
    second(rt, b"write q = 2^32 + 5", 4_294_967_301, 0, 0, 0, 8)?;
    second(rt, b"write q = 6 after 5", 6, 0, 0, 0, 9)?;
    second(rt, b"write: 8 before 10", 1_000_000_001, 4, 0, 0, 8)?;
    second(rt, b"write: 9 before 10", 6, 4, 0, 0, 9)
}

// 64 nodes, and an event whose links 64 to 127 are a set that is past the count of links.
fn past_the_links(rt: &impl Print, label: &[u8], count: u64, high: u64) -> io::Result<()> {
    let events = [5, 0, 0, high];
    refused(
        rt,
        label,
        header(64, count, 1, 1, 100),
        &many_links(),
        &events,
        10,
    )
}

// 10: N = 2, so that bit 2 of the nodes is past the count, and one link, so that bit 1 of the links is.
pub fn sets(rt: &impl Print) -> io::Result<()> {
    second(rt, b"write node bit 2 of 2 nodes", 5, 4, 0, 0, 10)?;
    second(
        rt,
        b"write node bit 63 of 2 nodes",
        5,
        9_223_372_036_854_775_808,
        0,
        0,
        10,
    )?;
    second(rt, b"write link bit 1 of 1 link", 5, 0, 2, 0, 10)?;
    second(rt, b"write link bit 64 of 1 link", 5, 0, 0, 1, 10)?;
    past_the_links(rt, b"write link bit 64 of 64 links", 64, 1)?;
    past_the_links(
        rt,
        b"write link bit 127 of 127 links",
        127,
        9_223_372_036_854_775_808,
    )
}
