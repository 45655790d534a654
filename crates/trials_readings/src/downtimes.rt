// The downtime: document 01, "Further readings of a plan", with the rounding of document 02, U1.
use std::io;
use trials_vectors::{same, same_part};

const WHOLE: u64 = 1_000_000_000_000_000_000;

// Holds the downtime of two masses to its number and its seconds.
fn seconds(
    rt: &impl Print,
    label: &[u8],
    lower: u64,
    upper: u64,
    number: u64,
    low: u64,
    high: u64,
) -> io::Result<()> {
    match readings::downtime(lower, upper) {
        Err(refusal) => same(rt, label, u32::from(refusal) as u64, number),
        Ok(s) => {
            same(rt, label, 0, number)?;
            same_part(rt, label, b"lower", s.lower, low)?;
            same_part(rt, label, b"upper", s.upper, high)
        }
    }
}

// Masses that make whole seconds are not raised: 10^18 units are 31,536,000 seconds, so 62,500,000,000,000 are 1,971.
pub fn whole_seconds(rt: &impl Print) -> io::Result<()> {
    seconds(rt, b"nothing", 0, 0, 0, 0, 0)?;
    seconds(rt, b"nothing and one whole", 0, WHOLE, 0, 0, 31_536_000)?;
    seconds(rt, b"one whole", WHOLE, WHOLE, 0, 31_536_000, 31_536_000)?;
    seconds(
        rt,
        b"a tenth",
        WHOLE / 10,
        WHOLE / 10,
        0,
        3_153_600,
        3_153_600,
    )?;
    seconds(
        rt,
        b"1,971 seconds",
        62_500_000_000_000,
        62_500_000_000_000,
        0,
        1971,
        1971,
    )
}

// A second is 10^18 / 31,536,000 = 31,709,791,983.76.. units. The lower mass is rounded down, the upper one up.
pub fn rounded_seconds(rt: &impl Print) -> io::Result<()> {
    seconds(rt, b"one unit", 1, 1, 0, 0, 1)?;
    seconds(rt, b"the bounds of the triangle", 0, 4, 0, 0, 1)?;
    seconds(rt, b"four units", 4, 4, 0, 0, 1)?;
    seconds(
        rt,
        b"less than a second",
        31_709_791_983,
        31_709_791_983,
        0,
        0,
        1,
    )?;
    seconds(
        rt,
        b"more than a second",
        31_709_791_984,
        31_709_791_984,
        0,
        1,
        2,
    )?;
    seconds(
        rt,
        b"one unit short of one whole",
        WHOLE - 1,
        WHOLE - 1,
        0,
        31_535_999,
        31_536_000,
    )
}

// 16 where either mass is above one whole.
pub fn refused_seconds(rt: &impl Print) -> io::Result<()> {
    seconds(rt, b"16 for the lower mass", WHOLE + 1, 0, 16, 0, 0)?;
    seconds(rt, b"16 for the upper mass", 0, WHOLE + 1, 16, 0, 0)?;
    seconds(
        rt,
        b"16 for both",
        18_446_744_073_709_551_615,
        18_446_744_073_709_551_615,
        16,
        0,
        0,
    )
}
