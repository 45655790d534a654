// The first plan of `held` at several thresholds. Masses are in ten-thousandths of the whole.
//
// What is relevant, and the ends in order, a dropped one in brackets:
//   t above 9,000:              nothing     [W] [F]
//   t above 8,910, up to 9,000: nothing     [WW] [WF] [F]
//   t above 1,000, up to 8,910: WW          WW [WF] [F]
//   t above 990, up to 1,000:   WW          WW [WF] [FW] [FF]
//   t above 90, up to 990:      WW, FW      WW [WF] FW [FF]
//   t above 10, up to 90:       WW, WF, FW  WW WF FW [FF]
//   t up to 10:                 all four    WW WF FW FF
use crate::held::rows;
use std::io;
use thresholds::CommonHeader;
use trials_vectors::WORD;

fn asked(rt: &impl Print, label: &[u8], cap: u64, list: &[u64], text: &[u8]) -> io::Result<()> {
    let links = [0u8, 1, 1, 2];
    let events = [100_000_000u64, 0, 1, 0, 10_000_000, 0, 2, 0];
    let mut lower = [WORD; 52];
    let mut upper = [WORD; 52];
    let h = CommonHeader {
        nodes: 3,
        links: 2,
        events: 2,
        cap,
    };
    let a = thresholds::thresholds(h, &links, &events, list, &mut lower, &mut upper);
    rows(rt, label, a, &lower, &upper, text)
}

// The whole, half of it and one unit of mass.
pub fn few(rt: &impl Print) -> io::Result<()> {
    let list = [1_000_000_000_000_000_000u64, 500_000_000_000_000_000, 1];
    asked(rt, b"10^18, half of it and 1", 100, &list, b"01 11 41 ")
}

// Two that differ by one unit of mass: the first drops FW, whose mass is the second. Each of them alone has the same answers.
pub fn either_side(rt: &impl Print) -> io::Result<()> {
    let list = [99_000_000_000_000_001u64, 99_000_000_000_000_000];
    asked(rt, b"either side of FW", 100, &list, b"11 21 ")?;
    asked(rt, b"one above FW", 100, &list[0..1], b"11 ")?;
    asked(rt, b"FW", 100, &list[1..2], b"21 ")
}

// 10^18, the six edges above, each after what is one unit above it, and three more: 16 thresholds.
fn edges() -> [u64; 16] {
    [
        1_000_000_000_000_000_000,
        900_000_000_000_000_001,
        900_000_000_000_000_000,
        891_000_000_000_000_001,
        891_000_000_000_000_000,
        100_000_000_000_000_001,
        100_000_000_000_000_000,
        99_000_000_000_000_001,
        99_000_000_000_000_000,
        9_000_000_000_000_001,
        9_000_000_000_000_000,
        1_000_000_000_000_001,
        1_000_000_000_000_000,
        3,
        2,
        1,
    ]
}

// At cap 4 all are complete. At cap 3 those with two or three ends are, and the others stop before FF. At cap 2 the first two are; with W the
// ends are [WW] and [WF] or WW and [WF].
pub fn sixteen(rt: &impl Print) -> io::Result<()> {
    let list = edges();
    asked(
        rt,
        b"16 thresholds at cap 4",
        4,
        &list,
        b"01 01 01 01 11 11 11 11 21 21 31 31 41 41 41 41 ",
    )?;
    asked(
        rt,
        b"16 thresholds at cap 3",
        3,
        &list,
        b"01 01 01 01 11 11 10 10 20 20 30 30 30 30 30 30 ",
    )?;
    asked(
        rt,
        b"10 thresholds at cap 2",
        2,
        &list[0..10],
        b"01 01 00 00 10 10 10 10 10 10 ",
    )
}
