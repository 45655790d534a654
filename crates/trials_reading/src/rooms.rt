// The room that the reader asks for: document 01, "Refused", 12 and its place.
use std::io;
use trials_vectors::{BYTE, WORD, all_same, refused};

// The triangle with lists that it is held to: 6 bytes and 12 words are due.
fn into(
    rt: &impl Print,
    label: &[u8],
    links: &mut [u8],
    events: &mut [u64],
    want: u64,
) -> io::Result<()> {
    let answer = plan_reading::read(
        b"RSG\x01\x00\x03\x03\x03\x01\x00\x00\x00\x00\x00\x00\x00\x64\x00\x00\x00\x00\x01\x00\x02\x01\x02\x01\x00\x00\x00\x01\x01\x00\x01\x00\x00\x00\x01\x01\x01\x01\x00\x00\x00\x01\x01\x02",
        links,
        events,
    );
    refused(rt, label, answer, want)
}

// 5 bytes for 3 links, which take 6.
pub fn short_links(rt: &impl Print) -> io::Result<()> {
    let mut links = [BYTE; 5];
    let mut events = [WORD; 12];
    into(
        rt,
        b"read into 5 bytes for 3 links",
        &mut links,
        &mut events,
        12,
    )?;
    all_same(rt, b"read: 5 bytes for 3 links", &links, BYTE)?;
    all_same(rt, b"read: the events beside 5 bytes", &events, WORD)
}

// 11 words for 3 events, which take 12.
pub fn short_events(rt: &impl Print) -> io::Result<()> {
    let mut links = [BYTE; 6];
    let mut events = [WORD; 11];
    into(
        rt,
        b"read into 11 words for 3 events",
        &mut links,
        &mut events,
        12,
    )?;
    all_same(rt, b"read: the links beside 11 words", &links, BYTE)?;
    all_same(rt, b"read: 11 words for 3 events", &events, WORD)
}

pub fn exact_lists(rt: &impl Print) -> io::Result<()> {
    let mut links = [BYTE; 6];
    let mut events = [WORD; 12];
    into(rt, b"read into exact lists", &mut links, &mut events, 0)
}

// A byte after the last link, and one byte for the link, which takes two.
pub fn byte_too_many(rt: &impl Print) -> io::Result<()> {
    let mut links = [BYTE; 1];
    let mut events = [WORD; 11];
    let answer = plan_reading::read(
        b"RSG\x01\x00\x02\x01\x00\x01\x00\x00\x00\x00\x00\x00\x00\x64\x00\x00\x00\x00\x01\x00",
        &mut links,
        &mut events,
    );
    refused(rt, b"read: 11 before 12", answer, 11)
}
