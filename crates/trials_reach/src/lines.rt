// Lines of nodes: document 02, request U3. A set has node or link i as its bit i, of value 2^i.
use std::io;
use trials_network_vectors::{failed, links, parts};

// Links 0-1, 1-2: "the end of a line of three nodes gives 3, its middle gives 2".
pub fn three(rt: &impl Print) -> io::Result<()> {
    let l = links(b"\x00\x01\x01\x02");
    parts(
        rt,
        b"line of three",
        3,
        &l,
        2,
        failed(0, 0, 0),
        0,
        &[7, 7, 7],
        b"\x03\x02\x03",
    )
}

// The same line in parts: "a node that is alone or down gives 1".
pub fn three_cut(rt: &impl Print) -> io::Result<()> {
    let l = links(b"\x00\x01\x01\x02");
    // node 1 down: it reaches nothing, and nodes 0 and 2 are alone
    parts(
        rt,
        b"line of three, its middle down",
        3,
        &l,
        2,
        failed(2, 0, 0),
        0,
        &[1, 0, 4],
        b"\x01\x01\x01",
    )?;
    // link 1-2 down: node 2 is alone
    parts(
        rt,
        b"line of three, a link down",
        3,
        &l,
        2,
        failed(0, 2, 0),
        0,
        &[3, 3, 4],
        b"\x02\x02\x01",
    )
}

// The 63 links i-(i + 1).
fn line() -> [u8; 256] {
    let mut links = [0u8; 256];
    for i in 0..63 {
        links[2 * i] = i as u8;
        links[2 * i + 1] = (i + 1) as u8;
    }
    links
}

// The numbers of rounds from the nodes of that line: from node v the farthest node is 0, after v links, or 63, after 63 - v, and the
// number is one more than the larger of them.
fn line_rounds() -> [u8; 64] {
    let mut rounds = [0u8; 64];
    for v in 0..32 {
        rounds[v] = (64 - v) as u8;
        rounds[63 - v] = (64 - v) as u8;
    }
    rounds
}

// That line: every node reaches all 64 (2^64 - 1), and both ends have as many rounds as there are nodes.
pub fn longest(rt: &impl Print) -> io::Result<()> {
    let l = line();
    parts(
        rt,
        b"line of 64",
        64,
        &l,
        63,
        failed(0, 0, 0),
        0,
        &[18_446_744_073_709_551_615; 64],
        &line_rounds(),
    )
}
