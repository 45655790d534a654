// One walk and its quota.
use panel::Quota;
use std::io;
use trials_panel_vectors::{begun, same_walk, went_on};
use walk_state::Walk;

// The largest number of ends that may be asked for.
pub const ALL: u64 = 18_446_744_073_709_551_615;

// "One quota of 10,000,000 ends": the 14 ends of a walk are taken from it, and no more for a call that asks for more.
pub fn power_up(rt: &impl Print) -> io::Result<()> {
    let mut w = begun(rt, 1_000_000)?;
    let mut quota = panel::power_up();
    went_on(
        rt,
        b"full quota",
        &mut w,
        &mut quota,
        ALL,
        0,
        14,
        14,
        9_999_986,
    )
}

// Goes on with a walk under a quota of its own.
fn goes(
    rt: &impl Print,
    label: &[u8],
    w: &mut Walk,
    quota: u64,
    k: u64,
    number: u64,
    ends: u64,
    r: u64,
    left: u64,
) -> io::Result<()> {
    let mut own = Quota { left: quota };
    went_on(rt, label, w, &mut own, k, number, ends, r, left)
}

// A go-on that reaches no end: its number is 0 or 19, and the walk and the quota are as they were, in every field.
fn stays(
    rt: &impl Print,
    label: &[u8],
    w: Walk,
    left: u64,
    k: u64,
    number: u64,
    r: u64,
) -> io::Result<()> {
    let mut same = w;
    goes(rt, label, &mut same, left, k, number, 0, r, left)?;
    same_walk(rt, label, same, w)
}

// A quota of 3 runs dry in the middle of a walk. "19 where the quota is empty", but for k = 0. What is left of the walk is reached from
// another quota, and then 19 is not given any more: "after those two cases".
pub fn dry(rt: &impl Print) -> io::Result<()> {
    let mut w = begun(rt, 100)?;
    goes(rt, b"quota of 3", &mut w, 3, 5, 0, 3, 3, 0)?;
    stays(rt, b"dry", w, 0, 1, 19, 3)?;
    stays(rt, b"dry, all", w, 0, ALL, 19, 3)?;
    stays(rt, b"dry, k = 0", w, 0, 0, 0, 3)?;
    goes(rt, b"after 19", &mut w, 11, 12, 0, 11, 14, 0)?;
    stays(rt, b"ended and dry", w, 0, 1, 0, 14)
}

// Quotas next to the number of ends: 13 ends leave one, 14 end the walk with nothing over.
pub fn enough(rt: &impl Print) -> io::Result<()> {
    let mut w = begun(rt, 14)?;
    goes(rt, b"quota of 13", &mut w, 13, 14, 0, 13, 13, 0)?;
    stays(rt, b"quota of 13", w, 0, 1, 19, 13)?;
    let mut ended = begun(rt, 14)?;
    goes(rt, b"quota of 14", &mut ended, 14, 14, 0, 14, 14, 0)?;
    stays(rt, b"quota of 14", ended, 0, 14, 0, 14)?;
    stays(rt, b"ended, k = 0", ended, 0, 0, 0, 14)?;
    stays(rt, b"ended", ended, 5, 1, 0, 14)
}

// An empty quota from the start, and at the cap, which ends a walk too.
pub fn empty(rt: &impl Print) -> io::Result<()> {
    let mut w = begun(rt, 9)?;
    stays(rt, b"empty", w, 0, 1, 19, 0)?;
    stays(rt, b"empty, k = 0", w, 0, 0, 0, 0)?;
    goes(rt, b"to the cap", &mut w, 9, ALL, 0, 9, 9, 0)?;
    stays(rt, b"cap reached and dry", w, 0, 1, 0, 9)
}

// "Exactly the smallest of k, the ends the walk still has under the plan's cap, and what the quota still holds": each of the three in turn.
pub fn smallest(rt: &impl Print) -> io::Result<()> {
    let mut w = begun(rt, 9)?;
    goes(rt, b"k is the smallest", &mut w, 10, 4, 0, 4, 4, 6)?;
    let mut capped = w;
    goes(
        rt,
        b"the cap is the smallest",
        &mut capped,
        6,
        7,
        0,
        5,
        9,
        1,
    )?;
    stays(rt, b"the cap leaves none", capped, 1, 7, 0, 9)?;
    let mut short = w;
    goes(
        rt,
        b"the quota is the smallest",
        &mut short,
        3,
        7,
        0,
        3,
        7,
        0,
    )?;
    goes(rt, b"all three are equal", &mut w, 5, 5, 0, 5, 9, 0)
}
