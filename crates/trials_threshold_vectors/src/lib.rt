// What the test programs of several thresholds share: document 02, request U8. Holding answers and lists to what they should be.
// Differences are printed on standard output; where that fails, the error is returned.
#![tactic(auto)]

use mass::Refusal;
use std::io;
use thresholds::Answered;
use trials_vectors::{WORD, same, same_at};

// Holds every word of a list from a place on to one value.
fn rest(rt: &impl Print, label: &[u8], list: &[u64], from: usize, want: u64) -> io::Result<()> {
    for i in from..list.len() {
        same_at(rt, label, i, list[i], want)?;
    }
    Ok(())
}

// An answer without a refusal, and 0 at the places from `from` on.
pub fn answered(
    rt: &impl Print,
    label: &[u8],
    answer: Result<Answered, Refusal>,
    from: usize,
) -> io::Result<()> {
    same(rt, label, mass::number_in(&answer) as u64, 0)?;
    let Ok(a) = answer else {
        return Ok(());
    };
    let counts = a.count;
    let completes = a.complete;
    let masses = a.mass;
    rest(rt, label, &counts, from, 0)?;
    rest(rt, label, &completes, from, 0)?;
    rest(rt, label, &masses, from, 0)
}

// Two lists of bounds are untouched from an entry on.
pub fn untouched(
    rt: &impl Print,
    label: &[u8],
    lower: &[u64],
    upper: &[u64],
    from: usize,
) -> io::Result<()> {
    rest(rt, label, lower, from, WORD)?;
    rest(rt, label, upper, from, WORD)
}

// A refusal with its number: both lists are untouched.
pub fn refused(
    rt: &impl Print,
    label: &[u8],
    answer: Result<Answered, Refusal>,
    lower: &[u64],
    upper: &[u64],
    number: u64,
) -> io::Result<()> {
    same(rt, label, mass::number_in(&answer) as u64, number)?;
    untouched(rt, label, lower, upper, 0)
}
