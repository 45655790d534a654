// Products, and the header of a sheet.
use crate::compare::number;
use std::io;

// 17 exactly where the product is above 10^9 (0x3b9aca00) as a whole number. 2^22 × 2^21 × 2^21 is 2^64.
pub fn products(rt: &impl Print) -> io::Result<()> {
    number(
        rt,
        b"all numbers 2^32 - 1",
        b"EQS\x01\x00\x01\x00\x01\xff\xff\xff\xff\xff\xff\xff\xff\xff\xff\xff\xff\x00",
        17,
    )?;
    number(
        rt,
        b"length 0",
        b"EQS\x01\x00\x01\x00\x01\xff\xff\xff\xff\xff\xff\xff\xff\x00\x00\x00\x00\x00",
        0,
    )?;
    number(
        rt,
        b"0 hours",
        b"EQS\x01\x00\x01\x00\x01\xff\xff\xff\xff\x00\x00\x00\x00\xff\xff\xff\xff\x00",
        0,
    )?;
    number(
        rt,
        b"0 FIT",
        b"EQS\x01\x00\x01\x00\x01\x00\x00\x00\x00\xff\xff\xff\xff\xff\xff\xff\xff\x00",
        0,
    )?;
    number(
        rt,
        b"10^9",
        b"EQS\x01\x00\x01\x00\x01\x00\xca\x9a\x3b\x01\x00\x00\x00\x01\x00\x00\x00\x00",
        0,
    )?;
    number(
        rt,
        b"10^9 + 1",
        b"EQS\x01\x00\x01\x00\x01\x01\xca\x9a\x3b\x01\x00\x00\x00\x01\x00\x00\x00\x00",
        17,
    )?;
    number(
        rt,
        b"1000 each",
        b"EQS\x01\x00\x01\x00\x01\xe8\x03\x00\x00\xe8\x03\x00\x00\xe8\x03\x00\x00\x00",
        0,
    )?;
    number(
        rt,
        b"1000, 1000, 1001",
        b"EQS\x01\x00\x01\x00\x01\xe8\x03\x00\x00\xe8\x03\x00\x00\xe9\x03\x00\x00\x00",
        17,
    )?;
    number(
        rt,
        b"2^64",
        b"EQS\x01\x00\x01\x00\x01\x00\x00\x40\x00\x00\x00\x20\x00\x00\x00\x20\x00\x00",
        17,
    )
}

// 1 to 4; the count of lines is no part of 4.
pub fn headers(rt: &impl Print) -> io::Result<()> {
    number(rt, b"nothing", b"", 1)?;
    number(rt, b"7 bytes", b"EQS\x01\x00\x01\x00", 1)?;
    number(rt, b"7 bytes of a wrong mark", b"RSG\x01\x00\x01\x00", 1)?;
    number(rt, b"a plan's mark", b"RSG\x02\x00\x00\x00\x00", 2)?;
    number(rt, b"version 2", b"EQS\x02\x00\x00\x00\x00", 3)?;
    number(rt, b"version 257", b"EQS\x01\x01\x01\x00\x00", 3)?;
    number(rt, b"no node", b"EQS\x01\x00\x00\x00\x00", 4)?;
    number(rt, b"65 nodes", b"EQS\x01\x00\x41\x00\x00", 4)?;
    number(rt, b"64 nodes", b"EQS\x01\x00\x40\x00\x00", 0)?;
    number(rt, b"129 links", b"EQS\x01\x00\x01\x81\x00", 4)?;
    number(rt, b"128 links", b"EQS\x01\x00\x01\x80\x00", 0)?;
    number(
        rt,
        b"129 links and 255 lines",
        b"EQS\x01\x00\x01\x81\xff",
        4,
    )?;
    number(rt, b"255 lines announced", b"EQS\x01\x00\x01\x00\xff", 1)
}
