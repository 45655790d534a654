// The members of an event, read by steps of the reader into an array of ranks. The array holds a pattern, word 77, before the call. A node
// has its number as its rank, a link 256 more.
use mass::Refusal;
use record_reading::read_members;
use std::io;
use trials_vectors::{WORD, large_file, refused, same_at, same_part};

fn answer(
    rt: &impl Print,
    label: &[u8],
    got: Result<(), Refusal>,
    at: usize,
    number: u64,
    position: u64,
) -> io::Result<()> {
    refused(rt, label, got, number)?;
    same_part(rt, label, b"position", at as u64, position)
}

// The seven members of the large plan's first event stand at 281 and take two bytes each: nodes 0 and 63, links 0, 63, 64, 66 and 127. The
// words past their ranks stay.
pub fn seven(rt: &impl Print) -> io::Result<()> {
    let mut out = [WORD; 512];
    let mut at = 281;
    let got = read_members(&large_file(), &mut at, 7, 64, 128, &mut out);
    let label = b"seven members";
    answer(rt, label, got, at, 0, 295)?;
    same_at(rt, label, 0, out[0], 0)?;
    same_at(rt, label, 1, out[1], 63)?;
    same_at(rt, label, 2, out[2], 256)?;
    same_at(rt, label, 3, out[3], 319)?;
    same_at(rt, label, 4, out[4], 320)?;
    same_at(rt, label, 5, out[5], 322)?;
    same_at(rt, label, 6, out[6], 383)?;
    same_at(rt, label, 7, out[7], WORD)?;
    same_at(rt, label, 511, out[511], WORD)
}

// Node 1 and link 2 are given; then link 2 does not rise.
pub fn up_to_a_refusal(rt: &impl Print) -> io::Result<()> {
    let mut out = [WORD; 512];
    let bytes = b"\x00\x01\x01\x02\x01\x02\x01\x03";
    let mut at = 0;
    let got = read_members(bytes, &mut at, 4, 3, 4, &mut out);
    let label = b"a third member that does not rise";
    answer(rt, label, got, at, 10, 4)?;
    same_at(rt, label, 0, out[0], 1)?;
    same_at(rt, label, 1, out[1], 258)?;
    same_at(rt, label, 2, out[2], WORD)
}

// Node 1 is given; then one byte is left.
pub fn bytes_end(rt: &impl Print) -> io::Result<()> {
    let mut out = [WORD; 512];
    let mut at = 1;
    let got = read_members(b"\xff\x00\x01\x00", &mut at, 2, 3, 3, &mut out);
    let label = b"bytes that end";
    answer(rt, label, got, at, 1, 3)?;
    same_at(rt, label, 0, out[0], 1)?;
    same_at(rt, label, 1, out[1], WORD)
}

// No member: nothing is read, also past the end.
pub fn no_member(rt: &impl Print) -> io::Result<()> {
    let mut out = [WORD; 512];
    let mut at = 5;
    let got = read_members(b"\x02\x09", &mut at, 0, 3, 3, &mut out);
    let label = b"no member";
    answer(rt, label, got, at, 0, 5)?;
    same_at(rt, label, 0, out[0], WORD)
}
