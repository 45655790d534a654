// What the reader refuses: document 01, "Plan file" and "Refused".
use std::io;
use trials_vectors::{BYTE, WORD, all_same, refused};

// A file that is refused with lists that have room for every plan: they are left as they were.
fn kept(rt: &impl Print, label: &[u8], file: &[u8], want: u64) -> io::Result<()> {
    let mut links = [BYTE; 256];
    let mut events = [WORD; 512];
    refused(
        rt,
        label,
        plan_reading::read(file, &mut links, &mut events),
        want,
    )?;
    all_same(rt, label, &links, BYTE)?;
    all_same(rt, label, &events, WORD)
}

pub fn refused_headers(rt: &impl Print) -> io::Result<()> {
    kept(rt, b"read nothing", b"", 1)?;
    kept(
        rt,
        b"read a wrong mark",
        b"RSH\x01\x00\x02\x00\x00\x01\x00\x00\x00\x00\x00\x00\x00\x64\x00\x00\x00",
        2,
    )?;
    kept(
        rt,
        b"read version 2",
        b"RSG\x02\x00\x02\x00\x00\x01\x00\x00\x00\x00\x00\x00\x00\x64\x00\x00\x00",
        3,
    )?;
    kept(
        rt,
        b"read 65 nodes",
        b"RSG\x01\x00\x41\x00\x00\x01\x00\x00\x00\x00\x00\x00\x00\x64\x00\x00\x00",
        4,
    )?;
    kept(
        rt,
        b"read threshold 0",
        b"RSG\x01\x00\x02\x00\x00\x00\x00\x00\x00\x00\x00\x00\x00\x64\x00\x00\x00",
        5,
    )?;
    kept(
        rt,
        b"read cap 0",
        b"RSG\x01\x00\x02\x00\x00\x01\x00\x00\x00\x00\x00\x00\x00\x00\x00\x00\x00",
        6,
    )
}

// Each of these has a first link, 0-1, and a first event that are right.
pub fn refused_entries(rt: &impl Print) -> io::Result<()> {
    kept(
        rt,
        b"read two links, cut off in the second",
        b"RSG\x01\x00\x02\x02\x00\x01\x00\x00\x00\x00\x00\x00\x00\x64\x00\x00\x00\x00\x01\x00",
        1,
    )?;
    kept(
        rt,
        b"read a second link to N",
        b"RSG\x01\x00\x02\x02\x00\x01\x00\x00\x00\x00\x00\x00\x00\x64\x00\x00\x00\x00\x01\x00\x02",
        7,
    )?;
    kept(
        rt,
        b"read a second probability of 10^9 + 1",
        b"RSG\x01\x00\x02\x01\x02\x01\x00\x00\x00\x00\x00\x00\x00\x64\x00\x00\x00\x00\x01\x05\x00\x00\x00\x00\x01\xca\x9a\x3b\x00",
        8,
    )?;
    kept(
        rt,
        b"read a second probability that rises",
        b"RSG\x01\x00\x02\x01\x02\x01\x00\x00\x00\x00\x00\x00\x00\x64\x00\x00\x00\x00\x01\x05\x00\x00\x00\x00\x06\x00\x00\x00\x00",
        9,
    )?;
    kept(
        rt,
        b"read a second event on link 1 of one",
        b"RSG\x01\x00\x02\x01\x02\x01\x00\x00\x00\x00\x00\x00\x00\x64\x00\x00\x00\x00\x01\x05\x00\x00\x00\x00\x05\x00\x00\x00\x01\x01\x01",
        10,
    )?;
    kept(
        rt,
        b"read a byte after the last event",
        b"RSG\x01\x00\x02\x01\x01\x01\x00\x00\x00\x00\x00\x00\x00\x64\x00\x00\x00\x00\x01\x05\x00\x00\x00\x01\x01\x00\x00",
        11,
    )
}
