// A plan whose ends are worked out by hand, what looks at its walk show after so many ends, and holding a walk and the answer of a go-on to
// that. Masses are in thousandths of the whole, 10^15 units each.
//
// 3 nodes, t = 56; link 0 is 0-1, link 1 is 0-2, link 2 is 1-2.
//   event 0, q = 0.4:  link 1.
//   event 1, q = 0.3:  link 0.
//   event 2, q = 0.25: node 1, so that links 0 and 2 do not work either.
//   event 3, q = 0.2:  links 1 and 2, so that node 2 is alone.
//
// The walk, W for works and F for fails, event 0 first. Every product is exact, so no unit is lost.
//   W 600, F 400. WW 600 x 0.7 = 420, WF 600 x 0.3 = 180, FW 400 x 0.7 = 280, FF 400 x 0.3 = 120.
//   WWW 420 x 0.75 = 315, WWF 105. WFW 135, WFF 45, dropped. FWW 210, FWF 70. FFW 90, FFF 30, dropped.
//
//   end          mass             failing  disconnected
//    1  WWWW     315 x 0.8 = 252  none     none
//    2  WWWF     315 x 0.2 = 63   3        0-2, 1-2
//    3  WWFW     105 x 0.8 = 84   2        0-1, 1-2
//    4  WWFF     105 x 0.2 = 21   dropped
//    5  WFWW     135 x 0.8 = 108  1        none: 0-2-1
//    6  WFWF     135 x 0.2 = 27   dropped
//    7  WFF      45               dropped
//    8  FWWW     210 x 0.8 = 168  0        none: 0-1-2
//    9  FWWF     210 x 0.2 = 42   dropped
//   10  FWFW      70 x 0.8 = 56   0 and 2  0-1, 0-2, 1-2 (its mass is t)
//   11  FWFF      70 x 0.2 = 14   dropped
//   12  FFWW      90 x 0.8 = 72   0 and 1  0-1, 0-2: node 0 is alone
//   13  FFWF      90 x 0.2 = 18   dropped
//   14  FFF      30               dropped
//
// The seven relevant ones have 252 + 63 + 84 + 108 + 168 + 56 + 72 = 803, the seven dropped ones 21 + 27 + 45 + 42 + 14 + 18 + 30 = 197.
ghost use Rattle.std.specs.Prelude.{◌≡◌, IfOk, get_or};
ghost use Rattle.trials_panel_vectors.specs.Table.{begun_with, WentTo};

use crate::compare::{after, answered, bounds, totals};
use panel::Quota;
use std::io;
use trials_vectors::{header, same};
use walk_state::{Walk, no_walk};

// How many ends the walk has.
const ENDS: u64 = 14;

// The walk of this plan, begun, with a cap; a walk of zeros where the cap is refused.
pub fn begun(rt: &impl Print, cap: u64) -> io::Result<Walk>
    ensures { IfOk result (λ w. w ≡ begun_with «cap») }
{
    let links = [0u8, 1, 0, 2, 1, 2];
    let events = [
        400_000_000u64,
        0,
        2,
        0,
        300_000_000,
        0,
        1,
        0,
        250_000_000,
        2,
        0,
        0,
        200_000_000,
        0,
        6,
        0,
    ];
    let h = header(3, 3, 4, 56_000_000_000_000_000, cap);
    let answer = panel::begin(h, &links, &events);
    same(
        rt,
        b"the plan in the table",
        u64::from(mass::number_in(&answer)),
        0,
    )?;
    Ok(answer.unwrap_or(no_walk()))
}

// The byte at a position: 0 past the last one.
pub fn wide_at(list: &[u8], at: usize) -> u64
    ensures { result ≡ get_or list.now at 0 }
{
    if list.len() <= at {
        return 0;
    }
    plan::byte_at(list, at)
}

// Entry r of a column, which has four digits and a blank for each r from 0 to 14. The digit of a byte is what is over 48.
fn entry(column: &[u8], r: u64) -> u64 {
    if r > ENDS {
        return 7777;
    }
    let at = r as usize * 5;
    wide_at(column, at) % 48 * 1000
        + wide_at(column, at + 1) % 48 * 100
        + wide_at(column, at + 2) % 48 * 10
        + wide_at(column, at + 3) % 48
}

// The same in units of mass, where the entry is in thousandths of the whole.
fn mass_at(column: &[u8], r: u64) -> u64 {
    let n = entry(column, r);
    if n > 7777 {
        return 7;
    }
    n * 1_000_000_000_000_000
}

// The complete flag after r ends: 1 at the last one only.
fn complete_at(r: u64) -> u64 {
    if r == ENDS {
        return 1;
    }
    0
}

// Holds the bounds of a pair to entry r of two columns.
fn pair_shown(
    rt: &impl Print,
    label: &[u8],
    w: Walk,
    r: u64,
    v: u64,
    x: u64,
    lower: &[u8],
    upper: &[u8],
) -> io::Result<()> {
    bounds(
        rt,
        label,
        r,
        w,
        v,
        x,
        0,
        mass_at(lower, r),
        mass_at(upper, r),
    )
}

// Holds the bounds of the three pairs to the table, after r ends. Lower: 0-1 has 84 (end 3), 56 (end 10) and 72 (end 12); 0-2 has 63 (2),
// 56 (10) and 72 (12); 1-2 has 63 (2), 84 (3) and 56 (10). Upper is 1,000 less the masses that leave the pair connected: of 0-1 these are
// 252 (1), 63 (2), 108 (5) and 168 (8); of 0-2 they are 252 (1), 84 (3), 108 (5) and 168 (8); of 1-2 they are 252 (1), 108 (5), 168 (8) and
// 72 (12).
fn pairs_shown(rt: &impl Print, label: &[u8], w: Walk, r: u64) -> io::Result<()> {
    pair_shown(
        rt,
        label,
        w,
        r,
        0,
        1,
        b"0000 0000 0000 0084 0084 0084 0084 0084 0084 0084 0140 0140 0212 0212 0212",
        b"1000 0748 0685 0685 0685 0577 0577 0577 0409 0409 0409 0409 0409 0409 0409",
    )?;
    pair_shown(
        rt,
        label,
        w,
        r,
        0,
        2,
        b"0000 0000 0063 0063 0063 0063 0063 0063 0063 0063 0119 0119 0191 0191 0191",
        b"1000 0748 0748 0664 0664 0556 0556 0556 0388 0388 0388 0388 0388 0388 0388",
    )?;
    pair_shown(
        rt,
        label,
        w,
        r,
        1,
        2,
        b"0000 0000 0063 0147 0147 0147 0147 0147 0147 0147 0203 0203 0203 0203 0203",
        b"1000 0748 0748 0748 0748 0640 0640 0640 0472 0472 0472 0472 0400 0400 0400",
    )
}

// Holds all that looks show of a walk of this plan to the table, after r ends: the count, whether no end is left, E, and the bounds.
pub fn shown(rt: &impl Print, label: &[u8], w: Walk, r: u64) -> io::Result<()> {
    totals(
        rt,
        label,
        r,
        panel::look(w),
        entry(
            b"0000 0001 0002 0003 0003 0004 0004 0004 0005 0005 0006 0006 0007 0007 0007",
            r,
        ),
        complete_at(r),
        mass_at(
            b"0000 0252 0315 0399 0399 0507 0507 0507 0675 0675 0731 0731 0803 0803 0803",
            r,
        ),
    )?;
    pairs_shown(rt, label, w, r)
}

// Goes on with a walk of this plan for at most k ends. The call is to have a number, to reach so many ends, so that the walk has reached r,
// and to leave so much of the quota.
pub fn went_on(
    rt: &impl Print,
    label: &[u8],
    walk: &mut Walk,
    quota: &mut Quota,
    k: u64,
    number: u64,
    ends: u64,
    r: u64,
    left: u64,
) -> io::Result<()>
    ensures { WentTo walk.old quota.old k walk.new quota.new }
{
    let answer = panel::go_on(walk, quota, k);
    answered(rt, label, r, answer, *quota, number, ends, left)?;
    after(rt, label, r, b"reached", walk.reached, r)?;
    shown(rt, label, *walk, r)
}
