// The check of a plan file's header.
use std::io;
use trials_vectors::refused;

// Holds the check of a file to a number.
pub fn number(rt: &impl Print, label: &[u8], plan: &[u8], want: u64) -> io::Result<()> {
    refused(rt, label, plan::check(plan), want)
}

pub fn header(rt: &impl Print) -> io::Result<()> {
    number(rt, b"empty", b"", 1)?;
    number(
        rt,
        b"a header of 19 bytes",
        b"RSG\x01\x00\x02\x00\x00\x01\x00\x00\x00\x00\x00\x00\x00\x64\x00\x00",
        1,
    )?;
    number(rt, b"the length before the mark", b"RSH\x01\x00", 1)?;
    number(
        rt,
        b"mark",
        b"RSH\x01\x00\x02\x00\x00\x01\x00\x00\x00\x00\x00\x00\x00\x64\x00\x00\x00",
        2,
    )?;
    number(
        rt,
        b"the mark before the version",
        b"rSG\x02\x00\x02\x00\x00\x01\x00\x00\x00\x00\x00\x00\x00\x64\x00\x00\x00",
        2,
    )?;
    number(
        rt,
        b"version",
        b"RSG\x01\x01\x02\x00\x00\x01\x00\x00\x00\x00\x00\x00\x00\x64\x00\x00\x00",
        3,
    )?;
    number(
        rt,
        b"two nodes and nothing else",
        b"RSG\x01\x00\x02\x00\x00\x01\x00\x00\x00\x00\x00\x00\x00\x64\x00\x00\x00",
        0,
    )
}

pub fn counts(rt: &impl Print) -> io::Result<()> {
    number(
        rt,
        b"no node",
        b"RSG\x01\x00\x00\x00\x00\x01\x00\x00\x00\x00\x00\x00\x00\x64\x00\x00\x00",
        4,
    )?;
    number(
        rt,
        b"65 nodes",
        b"RSG\x01\x00\x41\x00\x00\x01\x00\x00\x00\x00\x00\x00\x00\x64\x00\x00\x00",
        4,
    )?;
    number(
        rt,
        b"64 nodes",
        b"RSG\x01\x00\x40\x00\x00\x01\x00\x00\x00\x00\x00\x00\x00\x64\x00\x00\x00",
        0,
    )?;
    number(
        rt,
        b"129 links",
        b"RSG\x01\x00\x02\x81\x00\x01\x00\x00\x00\x00\x00\x00\x00\x64\x00\x00\x00",
        4,
    )?;
    number(
        rt,
        b"129 events",
        b"RSG\x01\x00\x02\x00\x81\x01\x00\x00\x00\x00\x00\x00\x00\x64\x00\x00\x00",
        4,
    )
}

pub fn threshold_and_cap(rt: &impl Print) -> io::Result<()> {
    number(
        rt,
        b"threshold 0",
        b"RSG\x01\x00\x02\x00\x00\x00\x00\x00\x00\x00\x00\x00\x00\x64\x00\x00\x00",
        5,
    )?;
    number(
        rt,
        b"threshold 10^18 + 1",
        b"RSG\x01\x00\x02\x00\x00\x01\x00\x64\xa7\xb3\xb6\xe0\x0d\x64\x00\x00\x00",
        5,
    )?;
    number(
        rt,
        b"threshold 10^18",
        b"RSG\x01\x00\x02\x00\x00\x00\x00\x64\xa7\xb3\xb6\xe0\x0d\x64\x00\x00\x00",
        0,
    )?;
    number(
        rt,
        b"cap 0",
        b"RSG\x01\x00\x02\x00\x00\x01\x00\x00\x00\x00\x00\x00\x00\x00\x00\x00\x00",
        6,
    )?;
    number(
        rt,
        b"cap 1,000,001",
        b"RSG\x01\x00\x02\x00\x00\x01\x00\x00\x00\x00\x00\x00\x00\x41\x42\x0f\x00",
        6,
    )?;
    number(
        rt,
        b"cap 1,000,000",
        b"RSG\x01\x00\x02\x00\x00\x01\x00\x00\x00\x00\x00\x00\x00\x40\x42\x0f\x00",
        0,
    )
}
