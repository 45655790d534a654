// Working nodes and links of networks, and what has failed in a scenario: document 01, "Effective topology". A set has node or link i as
// its bit i, of value 2^i.
use crate::working::works;
use plan_lists::copy_first;
use std::io;
use trials_network_vectors::{failed, links};
use trials_vectors::{many_links, same};

// Links 0-1, 0-2, 1-2.
pub fn triangle(rt: &impl Print) -> io::Result<()> {
    let l = links(b"\x00\x01\x00\x02\x01\x02");
    works(rt, b"triangle", 3, &l, 3, failed(0, 0, 0), 7, 7, 0)?;
    // link 0-1 down: links 0-2 and 1-2 are left (2 + 4 = 6)
    works(
        rt,
        b"triangle, a link down",
        3,
        &l,
        3,
        failed(0, 1, 0),
        7,
        6,
        0,
    )
}

// The triangle with end nodes down.
pub fn end_nodes(rt: &impl Print) -> io::Result<()> {
    let l = links(b"\x00\x01\x00\x02\x01\x02");
    // node 2 down: links 0-2 and 1-2 are down with it
    works(
        rt,
        b"triangle, node 2 down",
        3,
        &l,
        3,
        failed(4, 0, 0),
        3,
        1,
        0,
    )?;
    // node 2 and link 0-1 down: no link is left
    works(
        rt,
        b"triangle, node 2 and link 0 down",
        3,
        &l,
        3,
        failed(4, 1, 0),
        3,
        0,
        0,
    )
}

// Two links 0-1.
pub fn parallel(rt: &impl Print) -> io::Result<()> {
    let l = links(b"\x00\x01\x00\x01");
    works(
        rt,
        b"parallel, one link down",
        2,
        &l,
        2,
        failed(0, 1, 0),
        3,
        2,
        0,
    )
}

// No link. What stands in the array past the count, here 0-1, is none.
pub fn without_links(rt: &impl Print) -> io::Result<()> {
    let l = links(b"\x00\x01");
    works(rt, b"one node", 1, &l, 0, failed(0, 0, 0), 1, 0, 0)?;
    // failed bits at or past a count change nothing
    works(rt, b"past the counts", 2, &l, 1, failed(12, 2, 1), 3, 1, 0)
}

// Links 0-1, 1-2, 2-3, 3-4, 4-5, 0-5.
pub fn ring_nodes(rt: &impl Print) -> io::Result<()> {
    let l = links(b"\x00\x01\x01\x02\x02\x03\x03\x04\x04\x05\x00\x05");
    // nodes 0 and 3 down: links 1-2 and 4-5 are left (2 + 16 = 18), with nodes 1, 2, 4, 5 (2 + 4 + 16 + 32 = 54)
    works(
        rt,
        b"ring, two nodes down",
        6,
        &l,
        6,
        failed(9, 0, 0),
        54,
        18,
        0,
    )
}

// The 128 links of `many_links`, of which link 127 is 62-63 here. All nodes but 62 and 63 are down (2^62 - 1), so that it alone is left:
// 2^62 + 2^63 = 13,835,058,055,282,163,712.
pub fn top_bits(rt: &impl Print) -> io::Result<()> {
    let mut l = many_links();
    copy_first(b"\x3e\x3f", &mut l, 254, 2);
    let down = 4_611_686_018_427_387_903;
    works(
        rt,
        b"node 63 and link 127",
        64,
        &l,
        128,
        failed(down, 0, 0),
        13_835_058_055_282_163_712,
        0,
        9_223_372_036_854_775_808,
    )
}

// Links 63 (21-43) and 64 (21-44) of `many_links`, the last of the low word and the first of the high word, with nodes 21, 43 and 44 alone
// up: 2^21 + 2^43 + 2^44 = 26,388,281,163,776, and 2^64 - 1 less that is 18,446,717,685,428,387,839.
pub fn word_ends(rt: &impl Print) -> io::Result<()> {
    let l = many_links();
    let down = 18_446_717_685_428_387_839;
    works(
        rt,
        b"links 63 and 64",
        64,
        &l,
        128,
        failed(down, 0, 0),
        26_388_281_163_776,
        9_223_372_036_854_775_808,
        1,
    )
}

// What has failed, over the failing events and beside what had failed at the start.
pub fn outages(rt: &impl Print) -> io::Result<()> {
    let mut events = [0u64; 512];
    copy_first(&[9, 1, 6, 0, 8, 2, 8, 0, 7, 4, 2, 1], &mut events, 0, 12);
    // events 0 and 2 of three, beside node 5: nodes 0, 2, 5 (1 + 4 + 32), links 1, 2 (2 + 4) and 64
    let two = network::failed_by(&events, 3, 5, 0, failed(32, 0, 0));
    same(rt, b"nodes of events 0 and 2", two.nodes, 37)?;
    same(rt, b"links 0 to 63 of events 0 and 2", two.low, 6)?;
    same(rt, b"links 64 to 127 of events 0 and 2", two.high, 1)?;
    // event 127 of 128: node 63 and link 127
    events[509] = 9_223_372_036_854_775_808;
    events[511] = 9_223_372_036_854_775_808;
    let last = network::failed_by(&events, 128, 0, 9_223_372_036_854_775_808, failed(0, 0, 0));
    same(
        rt,
        b"nodes of event 127",
        last.nodes,
        9_223_372_036_854_775_808,
    )?;
    same(rt, b"links 0 to 63 of event 127", last.low, 0)?;
    same(
        rt,
        b"links 64 to 127 of event 127",
        last.high,
        9_223_372_036_854_775_808,
    )
}
