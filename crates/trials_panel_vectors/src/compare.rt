// Holding what a look shows, and what a go-on answers, to what it should be.
ghost use Rattle.std.specs.Prelude.{◌≡◌, ◌-◌};

use bounds::Totals;
use mass::{Refusal, number_in};
use panel::Quota;
use std::io;
use trials_vectors::same_part;
use walk_state::Walk;

pub const WHOLE: u64 = 1_000_000_000_000_000_000;

// What the quota holds at power-up: "One quota of 10,000,000 ends".
pub const FULL: u64 = 10_000_000;

// What is left of that quota after so many ends: 0 where they are more.
pub fn left_after(ends: u64) -> u64
    ensures { result ≡ 10000000 - ends }
{
    if ends > FULL {
        return 0;
    }
    FULL - ends
}

// Prints the label, how many ends the walk should have reached, the part and both numbers where they differ.
pub fn after(
    rt: &impl Print,
    label: &[u8],
    r: u64,
    part: &[u8],
    got: u64,
    want: u64,
) -> io::Result<()> {
    if got != want {
        rt.write_all(label)?;
        print!(rt; ", after {r}")?;
        same_part(rt, b" ends", part, got, want)?;
    }
    Ok(())
}

// Holds what a look shows of a walk after r ends to count, complete and E.
pub fn totals(
    rt: &impl Print,
    label: &[u8],
    r: u64,
    t: Totals,
    count: u64,
    complete: u64,
    mass: u64,
) -> io::Result<()> {
    after(rt, label, r, b"count", t.count, count)?;
    after(rt, label, r, b"complete", t.complete, complete)?;
    after(rt, label, r, b"E", t.mass, mass)
}

// Holds what a look shows of a pair after r ends to its number and its bounds.
pub fn bounds(
    rt: &impl Print,
    label: &[u8],
    r: u64,
    w: Walk,
    v: u64,
    x: u64,
    number: u64,
    lower: u64,
    upper: u64,
) -> io::Result<()> {
    let answer = panel::look_pair(w, v, x);
    pair_after(
        rt,
        label,
        r,
        v,
        x,
        b"number",
        u64::from(number_in(&answer)),
        number,
    )?;
    if let Ok(b) = answer {
        pair_after(rt, label, r, v, x, b"lower", b.lower, lower)?;
        pair_after(rt, label, r, v, x, b"upper", b.upper, upper)?;
    }
    Ok(())
}

// The same for a part of a pair's answer.
fn pair_after(
    rt: &impl Print,
    label: &[u8],
    r: u64,
    v: u64,
    x: u64,
    part: &[u8],
    got: u64,
    want: u64,
) -> io::Result<()> {
    if got != want {
        rt.write_all(label)?;
        print!(rt; ", pair {v} {x}")?;
        after(rt, b"", r, part, got, want)?;
    }
    Ok(())
}

// Holds the answer of a go-on and the quota after it to its number, the ends that it reached and what is left of the quota. The walk should
// have reached r ends.
pub fn answered(
    rt: &impl Print,
    label: &[u8],
    r: u64,
    answer: Result<u64, Refusal>,
    quota: Quota,
    number: u64,
    ends: u64,
    left: u64,
) -> io::Result<()> {
    after(
        rt,
        label,
        r,
        b"number",
        u64::from(number_in(&answer)),
        number,
    )?;
    after(rt, label, r, b"ends", answer.unwrap_or(0), ends)?;
    after(rt, label, r, b"quota", quota.left, left)
}

// What is over: 0 where the second number is the larger one.
pub fn less(a: u64, b: u64) -> u64
    ensures { result ≡ a - b }
{
    if a < b {
        return 0;
    }
    a - b
}
