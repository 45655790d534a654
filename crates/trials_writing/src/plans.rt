// Plans that are written: document 01, "Plan file".
use std::io;
use trials_vectors::{BYTE, header, large_events, large_file, many_links, same_list, written};

// The triangle of document 01: 20 bytes, 6 for the links and 7 for each event. Three bytes are left over.
pub fn triangle(rt: &impl Print) -> io::Result<()> {
    let mut out = [BYTE; 50];
    let answer = plan_writing::write(
        header(3, 3, 3, 1, 100),
        b"\x00\x01\x00\x02\x01\x02",
        &[1, 0, 1, 0, 1, 0, 2, 0, 1, 0, 4, 0],
        &mut out,
    );
    written(rt, b"write the triangle", answer, 47)?;
    same_list(
        rt,
        b"the written triangle",
        &out,
        b"RSG\x01\x00\x03\x03\x03\x01\x00\x00\x00\x00\x00\x00\x00\x64\x00\x00\x00\x00\x01\x00\x02\x01\x02\x01\x00\x00\x00\x01\x01\x00\x01\x00\x00\x00\x01\x01\x01\x01\x00\x00\x00\x01\x01\x02\xaa\xaa\xaa",
    )
}

// Node 63, link 127 and both words of the links. Two bytes are left over.
pub fn large(rt: &impl Print) -> io::Result<()> {
    let mut out = [BYTE; 304];
    let answer = plan_writing::write(
        header(64, 128, 2, 1_000_000_000_000_000_000, 1_000_000),
        &many_links(),
        &large_events(),
        &mut out,
    );
    written(rt, b"write the large plan", answer, 302)?;
    same_list(rt, b"the written large plan", &out[0..302], &large_file())?;
    same_list(
        rt,
        b"past the written large plan",
        &out[302..304],
        b"\xaa\xaa",
    )
}

// What stands past a count is not used: links that 7 would refuse, an event that 8 and 10 would refuse, and three words that make no event.
pub fn past_the_counts(rt: &impl Print) -> io::Result<()> {
    let mut out = [BYTE; 32];
    let answer = plan_writing::write(
        header(2, 1, 1, 1, 100),
        b"\x00\x01\xff\xff\x01",
        &[
            5,
            1,
            1,
            0,
            18_446_744_073_709_551_615,
            18_446_744_073_709_551_615,
            18_446_744_073_709_551_615,
            18_446_744_073_709_551_615,
            9,
            9,
            9,
        ],
        &mut out,
    );
    // the event has q = 5, node 0 and link 0
    written(rt, b"write one link and one event of more", answer, 31)?;
    same_list(
        rt,
        b"the written one link and one event",
        &out,
        b"RSG\x01\x00\x02\x01\x01\x01\x00\x00\x00\x00\x00\x00\x00\x64\x00\x00\x00\x00\x01\x05\x00\x00\x00\x02\x00\x00\x01\x00\xaa",
    )
}

// No link and no event, whatever the lists hold, into an output of exactly 20 bytes: t = 0x0102030405060708 and cap = 658,188 = 0x000a0b0c.
pub fn header_alone(rt: &impl Print) -> io::Result<()> {
    let mut out = [BYTE; 20];
    let answer = plan_writing::write(
        header(64, 0, 0, 72_623_859_790_382_856, 658_188),
        b"\xff\xff",
        &[18_446_744_073_709_551_615, 1, 1, 1],
        &mut out,
    );
    written(rt, b"write a header alone", answer, 20)?;
    same_list(
        rt,
        b"the written header alone",
        &out,
        b"RSG\x01\x00\x40\x00\x00\x08\x07\x06\x05\x04\x03\x02\x01\x0c\x0b\x0a\x00",
    )
}
