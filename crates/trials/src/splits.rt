// Splits of a mass: document 01, "Units and the splitting of mass".
use mass::Mass;
use std::io;
use trials_vectors::same;

// Holds a split's answer to its number and its two parts; the parts of a refusal are 0.
fn split(
    rt: &impl Print,
    label: &[u8],
    m: u64,
    q: u64,
    number: u64,
    fails: u64,
    works: u64,
) -> io::Result<()> {
    match (Mass { units: m }).split(q) {
        Err(refusal) => {
            same(rt, label, u32::from(refusal) as u64, number)?;
            same(rt, label, 0, fails)?;
            same(rt, label, 0, works)
        }
        Ok(parts) => {
            same(rt, label, 0, number)?;
            same(rt, label, parts.fails.units, fails)?;
            same(rt, label, parts.works.units, works)
        }
    }
}

pub fn splits(rt: &impl Print) -> io::Result<()> {
    let whole = 1_000_000_000_000_000_000;
    split(rt, b"split whole at 0", whole, 0, 0, 0, whole)?;
    split(rt, b"split whole at 1", whole, 1_000_000_000, 0, whole, 0)?;
    split(
        rt,
        b"split whole at 0.1",
        whole,
        100_000_000,
        0,
        100_000_000_000_000_000,
        900_000_000_000_000_000,
    )?;
    // 999,999,999,999,999,999 x 333,333,333 / 10^9 = 333,333,332,999,999,999.67, and x 666,666,667: 666,666,666,999,999,999.33
    split(
        rt,
        b"split rounds both parts down",
        999_999_999_999_999_999,
        333_333_333,
        0,
        333_333_332_999_999_999,
        666_666_666_999_999_999,
    )?;
    // marked plan 11
    split(rt, b"split one unit at 10^-9", 1, 1, 0, 0, 0)?;
    split(rt, b"split nothing", 0, 500_000_000, 0, 0, 0)
}

pub fn refused_splits(rt: &impl Print) -> io::Result<()> {
    let whole = 1_000_000_000_000_000_000;
    split(rt, b"split above one whole", whole + 1, 0, 16, 0, 0)?;
    split(
        rt,
        b"split the greatest word",
        18_446_744_073_709_551_615,
        0,
        16,
        0,
        0,
    )?;
    split(rt, b"split at more than 1", whole, 1_000_000_001, 8, 0, 0)?;
    split(
        rt,
        b"split at the greatest word",
        0,
        18_446_744_073_709_551_615,
        8,
        0,
        0,
    )?;
    split(
        rt,
        b"split: 16 before 8",
        whole + 1,
        1_000_000_001,
        16,
        0,
        0,
    )
}
