// Plans without a pair or an event. Masses are in units of 10^-18.
ghost use Rattle.std.specs.Prelude.{◌<◌};

use mass::Refusal;
use std::io;
use thresholds::{Answered, CommonHeader};
use trials_threshold_vectors::{answered, untouched};
use trials_vectors::{WORD, same_list, same_part};

const WHOLE: u64 = 1_000_000_000_000_000_000;

const TENTH: u64 = 100_000_000_000_000_000;

// 9/10.
const REST: u64 = 900_000_000_000_000_000;

// Holds what stands at one place of an answer. A refusal is told by `answered`.
fn at(
    rt: &impl Print,
    label: &[u8],
    answer: Result<Answered, Refusal>,
    place: usize,
    count: u64,
    complete: u64,
    mass: u64,
) -> io::Result<()>
    requires { place < 16 }
{
    let Ok(a) = answer else {
        return Ok(());
    };
    let counts = a.count;
    let completes = a.complete;
    let masses = a.mass;
    same_part(rt, label, b"count", counts[place], count)?;
    same_part(rt, label, b"complete", completes[place], complete)?;
    same_part(rt, label, b"E", masses[place], mass)
}

fn head(nodes: u64, links: u64, events: u64, cap: u64) -> CommonHeader {
    CommonHeader {
        nodes,
        links,
        events,
        cap,
    }
}

// Marked plan 10 with an event of 1/10 on the node: no pairs, so the blocks are empty and no entry is touched. The node works in one of the two
// scenarios, of 9/10.
pub fn no_pair(rt: &impl Print, label: &[u8]) -> io::Result<()> {
    let none = [0u8; 1];
    let events = [100_000_000u64, 1, 0, 0];
    let list = [100_000_000_000_000_001u64, TENTH];
    let mut lower = [WORD; 2];
    let mut upper = [WORD; 2];
    let h = head(1, 0, 1, 2);
    let a = thresholds::thresholds(h, &none[0..0], &events, &list, &mut lower, &mut upper);
    at(rt, label, a, 0, 1, 1, REST)?;
    at(rt, label, a, 1, 2, 1, WHOLE)?;
    answered(rt, label, a, 2)?;
    untouched(rt, label, &lower, &upper, 0)
}

// No event: one end, the whole, at every threshold, and a cap of 1 holds it. The link 0-1 works, so node 2 alone is cut off. Two blocks of three
// pairs: the lists have exactly six entries.
pub fn no_event(rt: &impl Print, label: &[u8]) -> io::Result<()> {
    let links = [0u8, 1];
    let words = [7u64];
    let list = [WHOLE, 1];
    let mut lower = [WORD; 6];
    let mut upper = [WORD; 6];
    let h = head(3, 1, 0, 1);
    let a = thresholds::thresholds(h, &links, &words, &list, &mut lower, &mut upper);
    at(rt, label, a, 0, 1, 1, WHOLE)?;
    at(rt, label, a, 1, 1, 1, WHOLE)?;
    answered(rt, label, a, 2)?;
    let want = [0u64, WHOLE, WHOLE, 0, WHOLE, WHOLE];
    same_list(rt, label, &lower, &want)?;
    same_list(rt, label, &upper, &want)
}
