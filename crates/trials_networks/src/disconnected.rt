// Pairs that are disconnected or not: document 01, "Effective topology". A set has node or link i as its bit i, of value 2^i.
use crate::pairs::pair;
use plan_lists::copy_first;
use std::io;
use trials_network_vectors::{failed, links};
use trials_vectors::many_links;

// Pairs of the triangle with node 2 down.
pub fn end_node_pairs(rt: &impl Print) -> io::Result<()> {
    let l = links(b"\x00\x01\x00\x02\x01\x02");
    pair(
        rt,
        b"two ends of a link that works",
        3,
        &l,
        3,
        failed(4, 0, 0),
        0,
        1,
        0,
    )?;
    pair(
        rt,
        b"a node that is down",
        3,
        &l,
        3,
        failed(4, 0, 0),
        0,
        2,
        1,
    )?;
    pair(
        rt,
        b"a node that is down and itself",
        3,
        &l,
        3,
        failed(4, 0, 0),
        2,
        2,
        1,
    )
}

// Links 0-1, 1-2 and 0-1 again: links 0 and 2 are parallel.
pub fn parallel_pairs(rt: &impl Print) -> io::Result<()> {
    let l = links(b"\x00\x01\x01\x02\x00\x01");
    // link 0 down, link 2 up
    pair(rt, b"first of two down", 3, &l, 3, failed(0, 1, 0), 0, 2, 0)
}

// Links 0 and 127 of `many_links`, both 0-43 here, with nodes 0 and 43 alone up: 1 + 2^43 = 8,796,093,022,209, and 2^64 - 1 less that is
// 18,446,735,277,616,529,406.
pub fn parallel_words(rt: &impl Print) -> io::Result<()> {
    let mut l = many_links();
    copy_first(b"\x00\x2b", &mut l, 254, 2);
    let down = 18_446_735_277_616_529_406;
    let last = 9_223_372_036_854_775_808;
    pair(
        rt,
        b"0-43, link 0 down",
        64,
        &l,
        128,
        failed(down, 1, 0),
        0,
        43,
        0,
    )?;
    pair(
        rt,
        b"0-43, link 127 down",
        64,
        &l,
        128,
        failed(down, 0, last),
        0,
        43,
        0,
    )?;
    pair(
        rt,
        b"0-43, links 0 and 127 down",
        64,
        &l,
        128,
        failed(down, 1, last),
        0,
        43,
        1,
    )
}

// Link 0-1 of two nodes: node 2 is none of them.
pub fn past_the_nodes(rt: &impl Print) -> io::Result<()> {
    let l = links(b"\x00\x01");
    pair(rt, b"past the nodes", 2, &l, 1, failed(0, 0, 0), 0, 2, 1)
}

// Links 0-2, 2-4 and 1-3: nodes 0, 2, 4 and nodes 1, 3.
pub fn islands(rt: &impl Print) -> io::Result<()> {
    let l = links(b"\x00\x02\x02\x04\x01\x03");
    pair(rt, b"one island", 5, &l, 3, failed(0, 0, 0), 0, 4, 0)?;
    pair(rt, b"two islands", 5, &l, 3, failed(0, 0, 0), 0, 3, 1)
}

// Links 63 (21-43) and 64 (21-44) of `many_links`, the last of the low word and the first of the high word, with nodes 21, 43 and 44 alone
// up: 2^64 - 1 less 2^21 + 2^43 + 2^44 is 18,446,717,685,428,387,839. Node 43 reaches node 44 by node 21, over both links.
pub fn word_end_pairs(rt: &impl Print) -> io::Result<()> {
    let l = many_links();
    let down = 18_446_717_685_428_387_839;
    pair(
        rt,
        b"43 by 21 to 44",
        64,
        &l,
        128,
        failed(down, 0, 0),
        43,
        44,
        0,
    )?;
    pair(
        rt,
        b"43 by 21 to 44, link 63 down",
        64,
        &l,
        128,
        failed(down, 9_223_372_036_854_775_808, 0),
        43,
        44,
        1,
    )?;
    pair(
        rt,
        b"43 by 21 to 44, link 64 down",
        64,
        &l,
        128,
        failed(down, 0, 1),
        43,
        44,
        1,
    )
}
