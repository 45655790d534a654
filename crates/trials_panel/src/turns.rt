// Two walks on one quota, with different caps.
use crate::quotas::ALL;
use panel::Quota;
use std::io;
use trials_panel_vectors::{begun, same_walk, went_on};
use walk_state::Walk;

// A call that reaches no end: the walk is as it was, in every field.
fn stays(
    rt: &impl Print,
    label: &[u8],
    w: Walk,
    quota: &mut Quota,
    k: u64,
    number: u64,
    r: u64,
    left: u64,
) -> io::Result<()> {
    let mut same = w;
    went_on(rt, label, &mut same, quota, k, number, 0, r, left)?;
    same_walk(rt, label, same, w)
}

// In turns 4, 5 and 1 ends; then the quota is dry for both.
pub fn turns(rt: &impl Print) -> io::Result<()> {
    let mut quota = Quota { left: 10 };
    let mut a = begun(rt, 100)?;
    let mut b = begun(rt, 9)?;
    went_on(rt, b"turns, a", &mut a, &mut quota, 4, 0, 4, 4, 6)?;
    went_on(rt, b"turns, b", &mut b, &mut quota, 5, 0, 5, 5, 1)?;
    stays(rt, b"turns, a, k = 0", a, &mut quota, 0, 0, 4, 1)?;
    went_on(rt, b"turns, a again", &mut a, &mut quota, 3, 0, 1, 5, 0)?;
    dry(rt, b"turns, b dry", b, &mut quota, 5)?;
    dry(rt, b"turns, a dry", a, &mut quota, 5)
}

// A dry quota: 19, but for k = 0.
fn dry(rt: &impl Print, label: &[u8], w: Walk, quota: &mut Quota, r: u64) -> io::Result<()> {
    stays(rt, label, w, quota, 1, 19, r, 0)?;
    stays(rt, label, w, quota, ALL, 19, r, 0)?;
    stays(rt, label, w, quota, 0, 0, r, 0)
}

// A walk that ended takes nothing: 9 ends up to its cap, then 1 of the other, then it is dry for the other alone.
pub fn ended_between(rt: &impl Print) -> io::Result<()> {
    let mut quota = Quota { left: 10 };
    let mut b = begun(rt, 9)?;
    went_on(rt, b"b ends", &mut b, &mut quota, ALL, 0, 9, 9, 1)?;
    stays(rt, b"b ended", b, &mut quota, 1, 0, 9, 1)?;
    let mut a = begun(rt, 15)?;
    went_on(rt, b"a after b", &mut a, &mut quota, 2, 0, 1, 1, 0)?;
    stays(rt, b"b ended, dry", b, &mut quota, ALL, 0, 9, 0)?;
    dry(rt, b"a dry", a, &mut quota, 1)
}
