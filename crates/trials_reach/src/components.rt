// Networks of several components, and the last node and link: document 01, "Effective topology". A set has node or link i as its bit i, of
// value 2^i.
use plan_lists::copy_first;
use std::io;
use trials_network_vectors::{failed, links, parts};
use trials_vectors::many_links;

// No link: every node that works is alone. What stands in the array past the count, here 0-1, joins nothing.
pub fn without_links(rt: &impl Print) -> io::Result<()> {
    let l = links(b"\x00\x01");
    parts(rt, b"one node", 1, &l, 0, failed(0, 0, 0), 0, &[1], b"\x01")?;
    parts(
        rt,
        b"one node, down",
        1,
        &l,
        0,
        failed(1, 0, 0),
        0,
        &[0],
        b"\x01",
    )?;
    parts(
        rt,
        b"three nodes",
        3,
        &l,
        0,
        failed(0, 0, 0),
        0,
        &[1, 2, 4],
        b"\x01\x01\x01",
    )
}

// Links 0-1, 1-2, 2-3, 3-4, 4-5, 0-5. The number of rounds is one more than the links to the farthest node that is reached.
pub fn ring(rt: &impl Print) -> io::Result<()> {
    let l = links(b"\x00\x01\x01\x02\x02\x03\x03\x04\x04\x05\x00\x05");
    // 0-1 down: the line 1, 2, 3, 4, 5, 0
    parts(
        rt,
        b"ring, one link down",
        6,
        &l,
        6,
        failed(0, 1, 0),
        0,
        &[63, 63, 63, 63, 63, 63],
        b"\x06\x06\x05\x04\x04\x05",
    )?;
    // 0-1 and 3-4 down: the lines 1, 2, 3 (2 + 4 + 8 = 14) and 4, 5, 0 (1 + 16 + 32 = 49)
    parts(
        rt,
        b"ring, two links down",
        6,
        &l,
        6,
        failed(0, 9, 0),
        0,
        &[49, 14, 14, 14, 49, 49],
        b"\x03\x03\x02\x03\x03\x02",
    )
}

// The ring with nodes down.
pub fn ring_nodes(rt: &impl Print) -> io::Result<()> {
    let l = links(b"\x00\x01\x01\x02\x02\x03\x03\x04\x04\x05\x00\x05");
    // nodes 0 and 3 down: links 1-2 and 4-5 are left, with nodes 1, 2 (6) and 4, 5 (48)
    parts(
        rt,
        b"ring, two nodes down",
        6,
        &l,
        6,
        failed(9, 0, 0),
        0,
        &[0, 6, 6, 0, 48, 48],
        b"\x01\x02\x02\x01\x02\x02",
    )
}

// Links 0-2, 2-4 and 1-3: nodes 0, 2, 4 (1 + 4 + 16 = 21) and 1, 3 (2 + 8 = 10).
pub fn islands(rt: &impl Print) -> io::Result<()> {
    let l = links(b"\x00\x02\x02\x04\x01\x03");
    parts(
        rt,
        b"islands",
        5,
        &l,
        3,
        failed(0, 0, 0),
        0,
        &[21, 10, 21, 10, 21],
        b"\x03\x02\x02\x02\x03",
    )
}

// The 128 links of `many_links`, of which link 127 is 62-63 here. All nodes but 62 and 63 are down (2^62 - 1), so that it alone is left:
// 2^62 + 2^63 = 13,835,058,055,282,163,712.
pub fn top_bits(rt: &impl Print) -> io::Result<()> {
    let mut l = many_links();
    copy_first(b"\x3e\x3f", &mut l, 254, 2);
    let down = 4_611_686_018_427_387_903;
    parts(
        rt,
        b"node 63 and link 127",
        64,
        &l,
        128,
        failed(down, 0, 0),
        62,
        &[13_835_058_055_282_163_712, 13_835_058_055_282_163_712],
        b"\x02\x02",
    )?;
    parts(
        rt,
        b"node 63, link 127 down",
        64,
        &l,
        128,
        failed(down, 0, 9_223_372_036_854_775_808),
        62,
        &[4_611_686_018_427_387_904, 9_223_372_036_854_775_808],
        b"\x01\x01",
    )
}
