// The test program of the run, and of the run with windows (`with_windows`). Each expected value stands beside its vector, taken from document
// 01 or worked out by hand; a difference is printed, and `trials ended` is the last line. The stored output is that line alone.
#![tactic(auto)]

mod with_windows;

use bounds::Totals;
use mass::Refusal;
use std::io;
use trials_vectors::{all_same, header, many_links, same, same_part};

fn main(rt: HostRuntime) -> io::Result<()> {
    halves(&rt, b"128 events of 1/2 at cap 1", 1)?;
    halves(&rt, b"128 events of 1/2 at cap 1,000", 1_000)?;
    halves(&rt, b"128 events of 1/2 at cap 1,000,000", 1_000_000)?;
    line(&rt)?;
    short(&rt)?;
    with_windows::windows(&rt)?;
    println!(rt; "trials ended")
}

// Holds a run's answer to its number, examined count, complete and E.
fn totals(
    rt: &impl Print,
    label: &[u8],
    answer: Result<Totals, Refusal>,
    number: u64,
    count: u64,
    complete: u64,
    mass: u64,
) -> io::Result<()> {
    match answer {
        Err(refusal) => same(rt, label, u32::from(refusal) as u64, number),
        Ok(t) => {
            same(rt, label, 0, number)?;
            same_part(rt, label, b"examined", t.count, count)?;
            same_part(rt, label, b"complete", t.complete, complete)?;
            same_part(rt, label, b"E", t.mass, mass)
        }
    }
}

// "With 128 events of q = 5 x 10^8 and t = 1 nothing is relevant: examined 0, complete 0 for every cap." The sets of the events do not
// matter: here each holds the bits of 5 x 10^8.
fn halves(rt: &impl Print, label: &[u8], cap: u64) -> io::Result<()> {
    let events = [500_000_000u64; 512];
    let links = many_links();
    let mut lower = [7u64; 2017];
    let mut upper = [7u64; 2017];
    let h = header(64, 128, 128, 1, cap);
    totals(
        rt,
        label,
        bounds::run(h, &links, &events, &mut lower, &mut upper),
        0,
        0,
        0,
        0,
    )?;
    all_same(rt, label, &lower[0..2016], 0)?;
    all_same(rt, label, &upper[0..2016], 1_000_000_000_000_000_000)?;
    same_part(rt, label, b"past the last pair", lower[2016], 7)?;
    same_part(rt, label, b"past the last pair", upper[2016], 7)
}

// Marked plan 4: one link, an event of 1/10 on it, cap 1.
fn line(rt: &impl Print) -> io::Result<()> {
    let links = [0u8, 1];
    let events = [100_000_000u64, 0, 1, 0];
    let mut lower = [7u64; 1];
    let mut upper = [7u64; 1];
    let h = header(2, 1, 1, 1, 1);
    totals(
        rt,
        b"marked plan 4",
        bounds::run(h, &links, &events, &mut lower, &mut upper),
        0,
        1,
        0,
        900_000_000_000_000_000,
    )?;
    same(rt, b"marked plan 4, lower", lower[0], 0)?;
    same(
        rt,
        b"marked plan 4, upper",
        upper[0],
        100_000_000_000_000_000,
    )
}

// Three nodes have three pairs: two entries are too few, in either list, and both lists stay as they were.
fn short(rt: &impl Print) -> io::Result<()> {
    let none = [0u8; 1];
    let words = [0u64; 1];
    let mut two = [7u64; 2];
    let mut three = [7u64; 3];
    let h = header(3, 0, 0, 1, 1);
    totals(
        rt,
        b"12 for the lower list",
        bounds::run(h, &none, &words, &mut two, &mut three),
        12,
        0,
        0,
        0,
    )?;
    totals(
        rt,
        b"12 for the upper list",
        bounds::run(h, &none, &words, &mut three, &mut two),
        12,
        0,
        0,
        0,
    )?;
    all_same(rt, b"12 leaves the short list", &two, 7)?;
    all_same(rt, b"12 leaves the other list", &three, 7)
}
