// Every split of the walk of the plan of `trials_panel_vectors` into two and into three parts. After each part all looks are held to the table of
// that plan.
use panel::Quota;
use std::io;
use trials_panel_vectors::{FULL, begun, left_after, less, went_on};

// Every split, at a cap above the number of ends, at it, and below it.
pub fn all_splits(rt: &impl Print) -> io::Result<()> {
    // a walk has as many ends as there are, or as its cap allows
    splits(rt, b"cap 100", 100, 14)?;
    splits(rt, b"cap 14", 14, 14)?;
    splits(rt, b"cap 9", 9, 9)
}

// The walk of n ends at once, in two parts, the first of them of 0 to n ends, and in three.
fn splits(rt: &impl Print, label: &[u8], cap: u64, n: u64) -> io::Result<()> {
    at_once(rt, label, cap, n)?;
    for a in 0..15 {
        if a <= n {
            two(rt, label, cap, n, a)?;
            seconds(rt, label, cap, n, a)?;
        }
    }
    Ok(())
}

// The second of three parts has 0 ends or more, up to what the first leaves.
fn seconds(rt: &impl Print, label: &[u8], cap: u64, n: u64, a: u64) -> io::Result<()> {
    for b in 0..15 {
        if b <= less(n, a) {
            three(rt, label, cap, n, a, b)?;
        }
    }
    Ok(())
}

// One go-on for all n ends.
fn at_once(rt: &impl Print, label: &[u8], cap: u64, n: u64) -> io::Result<()> {
    let mut w = begun(rt, cap)?;
    let mut quota = Quota { left: FULL };
    went_on(rt, label, &mut w, &mut quota, n, 0, n, n, left_after(n))
}

// One for a ends, then one for the others.
fn two(rt: &impl Print, label: &[u8], cap: u64, n: u64, a: u64) -> io::Result<()> {
    let mut w = begun(rt, cap)?;
    let mut quota = Quota { left: FULL };
    went_on(rt, label, &mut w, &mut quota, a, 0, a, a, left_after(a))?;
    let rest = less(n, a);
    went_on(
        rt,
        label,
        &mut w,
        &mut quota,
        rest,
        0,
        rest,
        n,
        left_after(n),
    )
}

// One for a ends, one for b ends, then one for the others: n less what these leave is a and b together.
fn three(rt: &impl Print, label: &[u8], cap: u64, n: u64, a: u64, b: u64) -> io::Result<()> {
    let mut w = begun(rt, cap)?;
    let mut quota = Quota { left: FULL };
    let rest = less(less(n, a), b);
    let both = less(n, rest);
    went_on(rt, label, &mut w, &mut quota, a, 0, a, a, left_after(a))?;
    went_on(
        rt,
        label,
        &mut w,
        &mut quota,
        b,
        0,
        b,
        both,
        left_after(both),
    )?;
    went_on(
        rt,
        label,
        &mut w,
        &mut quota,
        rest,
        0,
        rest,
        n,
        left_after(n),
    )
}
