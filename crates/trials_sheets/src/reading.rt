// Sheets that are read: their events in order, wide numbers, and the room of a lent list.
use crate::compare::counts;
use std::io;
use trials_vectors::{WORD, all_same, same_list, same_part};

// Three lines: 10 FIT, 2 hours, 3 km for link 0; 100, 1, 1 for node 2; 60, 1, 1 for node 0 and link 1. The products are 60, 100, 60: the
// second comes first, and the first stays before the third. The list is longer by five words.
pub fn in_order(rt: &impl Print) -> io::Result<()> {
    let mut events = [WORD; 17];
    counts(
        rt,
        b"in order",
        b"EQS\x01\x00\x03\x02\x03\x0a\x00\x00\x00\x02\x00\x00\x00\x03\x00\x00\x00\x01\x01\x00\x64\x00\x00\x00\x01\x00\x00\x00\x01\x00\x00\x00\x01\x00\x02\x3c\x00\x00\x00\x01\x00\x00\x00\x01\x00\x00\x00\x02\x00\x00\x01\x01",
        &mut events,
        3,
        2,
        3,
    )?;
    same_list(
        rt,
        b"in order",
        &events,
        &[100, 4, 0, 0, 60, 0, 1, 0, 60, 1, 2, 0, 77, 77, 77, 77, 77],
    )
}

// 0x01020304 FIT and 59 hours: 16,909,060 × 59 = 997,634,540; then link 127 with 256 FIT, 1 hour, 1. No line at all.
pub fn wide_numbers(rt: &impl Print) -> io::Result<()> {
    let mut events = [WORD; 8];
    counts(
        rt,
        b"wide numbers",
        b"EQS\x01\x00\x40\x80\x02\x00\x01\x00\x00\x01\x00\x00\x00\x01\x00\x00\x00\x01\x01\x7f\x04\x03\x02\x01\x3b\x00\x00\x00\x01\x00\x00\x00\x00",
        &mut events,
        64,
        128,
        2,
    )?;
    same_list(
        rt,
        b"wide numbers",
        &events,
        &[997_634_540, 0, 0, 0, 256, 0, 0, 9_223_372_036_854_775_808],
    )?;
    let mut none = [WORD; 0];
    counts(
        rt,
        b"no line",
        b"EQS\x01\x00\x01\x00\x00",
        &mut none,
        1,
        0,
        0,
    )
}

// 12 comes last: two lines take eight words, and a sheet of 129 lines is refused with 18 whatever the room.
pub fn rooms(rt: &impl Print) -> io::Result<()> {
    let mut short = [WORD; 7];
    let answer = sheets::read(
        b"EQS\x01\x00\x01\x00\x02\x01\x00\x00\x00\x01\x00\x00\x00\x01\x00\x00\x00\x00\x01\x00\x00\x00\x01\x00\x00\x00\x02\x00\x00\x00\x00",
        &mut short,
    );
    same_part(
        rt,
        b"7 words for 2 lines",
        b"number",
        sheets::number_in(answer) as u64,
        12,
    )?;
    all_same(rt, b"7 words for 2 lines", &short, WORD)?;
    let mut exact = [WORD; 8];
    counts(
        rt,
        b"8 words for 2 lines",
        b"EQS\x01\x00\x01\x00\x02\x01\x00\x00\x00\x01\x00\x00\x00\x01\x00\x00\x00\x00\x01\x00\x00\x00\x01\x00\x00\x00\x02\x00\x00\x00\x00",
        &mut exact,
        1,
        0,
        2,
    )?;
    same_list(
        rt,
        b"8 words for 2 lines",
        &exact,
        &[2, 0, 0, 0, 1, 0, 0, 0],
    )
}
