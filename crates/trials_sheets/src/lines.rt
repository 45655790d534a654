// Lines that are cut off or wrong, and the number of lines.
use crate::compare::number;
use std::io;

// Each line 1, then each member 1 and 10, then 17; then 11.
pub fn lines_cut_and_wrong(rt: &impl Print) -> io::Result<()> {
    number(
        rt,
        b"12 bytes of a line",
        b"EQS\x01\x00\x01\x00\x01\xff\xff\xff\xff\xff\xff\xff\xff\xff\xff\xff\xff",
        1,
    )?;
    number(
        rt,
        b"a member cut off, product above 10^9",
        b"EQS\x01\x00\x01\x00\x01\xff\xff\xff\xff\xff\xff\xff\xff\xff\xff\xff\xff\x01\x00",
        1,
    )?;
    number(
        rt,
        b"a wrong member, product above 10^9",
        b"EQS\x01\x00\x01\x00\x01\xff\xff\xff\xff\xff\xff\xff\xff\xff\xff\xff\xff\x01\x01\x00",
        10,
    )?;
    number(
        rt,
        b"a right member, product above 10^9, a byte too many",
        b"EQS\x01\x00\x01\x00\x01\xff\xff\xff\xff\xff\xff\xff\xff\xff\xff\xff\xff\x01\x00\x00\x00",
        17,
    )?;
    number(
        rt,
        b"members that do not rise",
        b"EQS\x01\x00\x02\x00\x01\x01\x00\x00\x00\x01\x00\x00\x00\x01\x00\x00\x00\x02\x00\x01\x00\x01",
        10,
    )?;
    number(
        rt,
        b"a byte too many",
        b"EQS\x01\x00\x01\x00\x01\x01\x00\x00\x00\x01\x00\x00\x00\x01\x00\x00\x00\x00\x00",
        11,
    )
}

// Sheets of one node whose lines are all zeros: 13 bytes each. 18 comes after the last line and after 11.
pub fn many_lines(rt: &impl Print) -> io::Result<()> {
    let mut sheet = [0u8; 3325];
    sheet[0] = 69;
    sheet[1] = 81;
    sheet[2] = 83;
    sheet[3] = 1;
    sheet[5] = 1;
    sheet[7] = 128;
    number(rt, b"128 lines", &sheet[0..1672], 0)?;
    number(rt, b"128 lines, a byte too many", &sheet[0..1673], 11)?;
    sheet[7] = 129;
    number(rt, b"129 lines", &sheet[0..1685], 18)?;
    number(rt, b"129 lines, a byte too many", &sheet[0..1686], 11)?;
    sheet[7] = 255;
    number(rt, b"255 lines", &sheet[0..3323], 18)?;
    number(rt, b"255 lines, a byte too few", &sheet[0..3322], 1)?;
    sheet[3322] = 1;
    sheet[3323] = 2;
    number(
        rt,
        b"255 lines, a wrong member in the last",
        &sheet[0..3325],
        10,
    )
}
