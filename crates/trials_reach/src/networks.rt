// Networks of two and three nodes: document 01, "Effective topology". A set has node or link i as its bit i, of value 2^i. The number of
// rounds is one more than the links to the farthest node that is reached, and 1 at a node that is alone or down.
use std::io;
use trials_network_vectors::{failed, links, parts};

// Links 0-1, 0-2, 1-2.
pub fn triangle(rt: &impl Print) -> io::Result<()> {
    let l = links(b"\x00\x01\x00\x02\x01\x02");
    parts(
        rt,
        b"triangle",
        3,
        &l,
        3,
        failed(0, 0, 0),
        0,
        &[7, 7, 7],
        b"\x02\x02\x02",
    )?;
    // link 0-1 down: the path goes by node 2, the middle of a line of three
    parts(
        rt,
        b"triangle, a link down",
        3,
        &l,
        3,
        failed(0, 1, 0),
        0,
        &[7, 7, 7],
        b"\x03\x03\x02",
    )?;
    // links 0-1 and 0-2 down: node 0 is alone, and 1 and 2 are joined
    parts(
        rt,
        b"triangle, two links down",
        3,
        &l,
        3,
        failed(0, 3, 0),
        0,
        &[1, 6, 6],
        b"\x01\x02\x02",
    )
}

// The triangle with end nodes down.
pub fn end_nodes(rt: &impl Print) -> io::Result<()> {
    let l = links(b"\x00\x01\x00\x02\x01\x02");
    // node 2 down: links 0-2 and 1-2 are down with it
    parts(
        rt,
        b"triangle, node 2 down",
        3,
        &l,
        3,
        failed(4, 0, 0),
        0,
        &[3, 3, 0],
        b"\x02\x02\x01",
    )?;
    // node 2 and link 0-1 down: no link is left
    parts(
        rt,
        b"triangle, node 2 and link 0 down",
        3,
        &l,
        3,
        failed(4, 1, 0),
        0,
        &[1, 2, 0],
        b"\x01\x01\x01",
    )
}

// Two links 0-1.
pub fn parallel(rt: &impl Print) -> io::Result<()> {
    let l = links(b"\x00\x01\x00\x01");
    parts(
        rt,
        b"parallel, one link down",
        2,
        &l,
        2,
        failed(0, 1, 0),
        0,
        &[3, 3],
        b"\x02\x02",
    )?;
    parts(
        rt,
        b"parallel, both down",
        2,
        &l,
        2,
        failed(0, 3, 0),
        0,
        &[1, 2],
        b"\x01\x01",
    )
}

// Links 0-1, 1-2 and 0-1 again: links 0 and 2 are parallel.
pub fn parallel_end(rt: &impl Print) -> io::Result<()> {
    let l = links(b"\x00\x01\x01\x02\x00\x01");
    // link 0 and node 1 down: link 2 is down with its end
    parts(
        rt,
        b"first of two and an end down",
        3,
        &l,
        3,
        failed(2, 1, 0),
        0,
        &[1, 0, 4],
        b"\x01\x01\x01",
    )
}
