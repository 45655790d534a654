// The second plan of `held` at four thresholds and several caps: where a low threshold stops, a high one goes on. Masses are in
// ten-thousandths of the whole.
//
// The ends in order, a dropped one in brackets:
//   t = 10,000:     1 [W], 2 [F]
//   t = 3,645:      1 WWWW, 2 [WWWF], 3 [WWF], 4 [WF], 5 FWWW, 6 [FWWF], 7 [FWF], 8 [FF]
//   t = 405:        1 WWWW, 2 WWWF, 3 WWFW, 4 [WWFF], 5 WFWW, 6 [WFWF], 7 [WFF], 8 FWWW, 9 FWWF, 10 FWFW, 11 [FWFF], 12 FFWW, 13 [FFWF], 14 [FFF]
//   t = 1 unit:     the 16 of the plan
use crate::held::rows;
use std::io;
use thresholds::CommonHeader;
use trials_vectors::WORD;

fn asked(rt: &impl Print, label: &[u8], cap: u64, text: &[u8]) -> io::Result<()> {
    let links = [0u8, 1, 1, 2];
    let q = 100_000_000;
    let events = [500_000_000, 0, 1, 0, q, 0, 2, 0, q, 0, 0, 0, q, 4, 0, 0];
    let list = [
        1_000_000_000_000_000_000u64,
        364_500_000_000_000_000,
        40_500_000_000_000_000,
        1,
    ];
    let mut lower = [WORD; 52];
    let mut upper = [WORD; 52];
    let h = CommonHeader {
        nodes: 3,
        links: 2,
        events: 4,
        cap,
    };
    let a = thresholds::thresholds(h, &links, &events, &list, &mut lower, &mut upper);
    rows(rt, label, a, &lower, &upper, text)
}

// Each cap with the four outcomes, and which are complete.
pub fn caps(rt: &impl Print) -> io::Result<()> {
    // the first end of each
    asked(rt, b"cap 1", 1, b"00 a0 a0 a0 ")?;
    // 10,000 is complete; 3,645 has dropped WWWF, the two below have examined it
    asked(rt, b"cap 2", 2, b"01 a0 c0 c0 ")?;
    // 3,645 lacks [FF]; 405 has not reached FWWW
    asked(rt, b"cap 7", 7, b"01 b0 d0 g0 ")?;
    // 3,645 is complete: it has examined FWWW, which 1 unit, stopped with WFFF, does not reach; 405 stops with FWWW
    asked(rt, b"cap 8", 8, b"01 b1 e0 h0 ")
}

pub fn higher_caps(rt: &impl Print) -> io::Result<()> {
    // 405 is complete, 1 unit lacks FFFW and FFFF
    asked(rt, b"cap 14", 14, b"01 b1 f1 i0 ")?;
    asked(rt, b"cap 15", 15, b"01 b1 f1 j0 ")?;
    asked(rt, b"cap 16", 16, b"01 b1 f1 k1 ")
}
