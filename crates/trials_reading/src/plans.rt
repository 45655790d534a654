// Plans that are read: document 01, "Plan file".
use std::io;
use trials_vectors::{
    BYTE, WORD, accepted, header, large_events, large_file, many_links, same_list,
};

// The triangle of document 01: links 0-1, 0-2, 1-2, and an event with q = 1 for each. The lists are longer by two bytes and by five words.
pub fn triangle(rt: &impl Print) -> io::Result<()> {
    let mut links = [BYTE; 8];
    let mut events = [WORD; 17];
    let answer = plan_reading::read(
        b"RSG\x01\x00\x03\x03\x03\x01\x00\x00\x00\x00\x00\x00\x00\x64\x00\x00\x00\x00\x01\x00\x02\x01\x02\x01\x00\x00\x00\x01\x01\x00\x01\x00\x00\x00\x01\x01\x01\x01\x00\x00\x00\x01\x01\x02",
        &mut links,
        &mut events,
    );
    accepted(rt, b"read the triangle", answer, header(3, 3, 3, 1, 100))?;
    same_list(
        rt,
        b"read the triangle: links",
        &links,
        b"\x00\x01\x00\x02\x01\x02\xaa\xaa",
    )?;
    same_list(
        rt,
        b"read the triangle: events",
        &events,
        &[1, 0, 1, 0, 1, 0, 2, 0, 1, 0, 4, 0, 77, 77, 77, 77, 77],
    )
}

// One node, no link, no event, and lists of no entry.
pub fn one_node(rt: &impl Print) -> io::Result<()> {
    let mut links = [BYTE; 0];
    let mut events = [WORD; 0];
    let answer = plan_reading::read(
        b"RSG\x01\x00\x01\x00\x00\x01\x00\x00\x00\x00\x00\x00\x00\x01\x00\x00\x00",
        &mut links,
        &mut events,
    );
    accepted(rt, b"read one node", answer, header(1, 0, 0, 1, 1))
}

// Numbers of more than one byte: t = 0x0102030405060708, cap = 0x000a0b0c = 658,188, q = 0x01020304 and then 0x00000100. The first event
// names node 1 and link 0; the second has no member. The lists have exactly the room that is due.
pub fn wide_numbers(rt: &impl Print) -> io::Result<()> {
    let mut links = [BYTE; 2];
    let mut events = [WORD; 8];
    let answer = plan_reading::read(
        b"RSG\x01\x00\x02\x01\x02\x08\x07\x06\x05\x04\x03\x02\x01\x0c\x0b\x0a\x00\x00\x01\x04\x03\x02\x01\x02\x00\x01\x01\x00\x00\x01\x00\x00\x00",
        &mut links,
        &mut events,
    );
    // 0x0102030405060708 = 72,623,859,790,382,856 and 0x01020304 = 16,909,060
    accepted(
        rt,
        b"read wide numbers",
        answer,
        header(2, 1, 2, 72_623_859_790_382_856, 658_188),
    )?;
    same_list(rt, b"read wide numbers: links", &links, b"\x00\x01")?;
    same_list(
        rt,
        b"read wide numbers: events",
        &events,
        &[16_909_060, 2, 1, 0, 256, 0, 0, 0],
    )
}

// Node 63, link 127 and both words of the links; two bytes and one word are left over.
pub fn large(rt: &impl Print) -> io::Result<()> {
    let mut links = [BYTE; 258];
    let mut events = [WORD; 9];
    let answer = plan_reading::read(&large_file(), &mut links, &mut events);
    accepted(
        rt,
        b"read the large plan",
        answer,
        header(64, 128, 2, 1_000_000_000_000_000_000, 1_000_000),
    )?;
    same_list(
        rt,
        b"read the large plan: links",
        &links[0..256],
        &many_links(),
    )?;
    same_list(
        rt,
        b"read the large plan: past the links",
        &links[256..258],
        b"\xaa\xaa",
    )?;
    same_list(
        rt,
        b"read the large plan: events",
        &events[0..8],
        &large_events(),
    )?;
    same_list(
        rt,
        b"read the large plan: past the events",
        &events[8..9],
        &[77],
    )
}
