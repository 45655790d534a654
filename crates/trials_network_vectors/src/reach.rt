// Holding what the nodes of a network reach to what it should be.
ghost use Rattle.plan.specs.Held.{LinksHeld};

use crate::held;
use network::Failed;
use std::io;
use trials_vectors::{same_at, same_part};

// The set that is expected at node v: the list starts at node `first`, and all others have the empty set.
fn set_at(want: &[u64], first: usize, v: usize) -> u64 {
    if v < first {
        return 0;
    }
    if v - first < want.len() {
        return want[v - first];
    }
    0
}

// The number of rounds that is expected at node v: all others have 1.
fn rounds_at(want: &[u8], first: usize, v: usize) -> u64 {
    if v < first {
        return 1;
    }
    if v - first < want.len() {
        return plan::byte_at(want, v - first);
    }
    1
}

// Holds what each node reaches to a list of sets, and its number of rounds to a list of numbers. Both start at node `first`; all others
// reach nothing, in one round.
pub fn parts(
    rt: &impl Print,
    label: &[u8],
    n: usize,
    links: &[u8; 256],
    count: usize,
    failed: Failed,
    first: usize,
    want: &[u64],
    rounds: &[u8],
) -> io::Result<()> {
    if held(n, links, count) {
        compared(rt, label, n, links, count, failed, first, want, rounds)?;
    } else {
        same_part(rt, label, b"valid", 0, 1)?;
    }
    Ok(())
}

fn compared(
    rt: &impl Print,
    label: &[u8],
    n: usize,
    links: &[u8; 256],
    count: usize,
    failed: Failed,
    first: usize,
    want: &[u64],
    rounds: &[u8],
) -> io::Result<()>
    requires { LinksHeld n links.now count }
{
    let table = network::links_at(n, links, count);
    for v in 0..64 {
        let reach = topology::reach_from(n, failed, links, count, &table, v);
        same_at(rt, label, v, reach.set, set_at(want, first, v))?;
        same_at(rt, label, v, reach.rounds, rounds_at(rounds, first, v))?;
    }
    Ok(())
}
