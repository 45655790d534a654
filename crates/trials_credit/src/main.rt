// The test program of service credits: document 02, request U6. Fee, rate and credits are in cents, times in seconds a year.
// Each expected value stands beside its vector, worked out by hand; a difference is printed, and `trials ended` is the last line. The
// stored output is that line alone.
#![tactic(auto)]

use credits::Credits;
use mass::Refusal;
use plan::Header;
use std::io;
use trials_vectors::{header, same, same_part};

const MOST: u64 = 1_000_000_000_000;

const YEAR: u64 = 31_536_000;

fn main(rt: HostRuntime) -> io::Result<()> {
    minutes(&rt)?;
    fees_and_rates(&rt)?;
    limits(&rt)?;
    ends_of_the_range(&rt)?;
    bounds_apart(&rt)?;
    refused(&rt)?;
    println!(rt; "trials ended")
}

// Holds an answer to its number, its credits and its headroom.
fn same_answer(
    rt: &impl Print,
    label: &[u8],
    answer: Result<Credits, Refusal>,
    number: u64,
    lower: u64,
    upper: u64,
    headroom: i64,
) -> io::Result<()> {
    match answer {
        Err(refusal) => same(rt, label, u32::from(refusal) as u64, number),
        Ok(c) => {
            same(rt, label, 0, number)?;
            same_part(rt, label, b"lower", c.lower, lower)?;
            same_part(rt, label, b"upper", c.upper, upper)?;
            let right = c.headroom == headroom;
            same_part(rt, label, b"headroom as it must be", right as u64, 1)
        }
    }
}

// The credits of the pair 0, 1 of a plan with the contract, held to what they must be.
fn of_plan(
    rt: &impl Print,
    label: &[u8],
    h: Header,
    links: &[u8],
    events: &[u64],
    fee: u64,
    limit: u64,
    rate: u64,
    number: u64,
    lower: u64,
    upper: u64,
    headroom: i64,
) -> io::Result<()> {
    let answer = credits::credit(h, links, events, 0, 1, fee, limit, rate);
    same_answer(rt, label, answer, number, lower, upper, headroom)
}

// A link with an event of 62,500 × 10^-9 on it: the pair is cut off for 62,500,000,000,000 units, 1,971 seconds a year, exactly.
fn on_link(
    rt: &impl Print,
    label: &[u8],
    fee: u64,
    limit: u64,
    rate: u64,
    number: u64,
    due: u64,
    headroom: i64,
) -> io::Result<()> {
    let links = [0u8, 1];
    let events = [62_500u64, 0, 1, 0];
    let h = header(2, 1, 1, 1, 100);
    of_plan(
        rt, label, h, &links, &events, fee, limit, rate, number, due, due, headroom,
    )
}

// 0 seconds above the limit are 0 minutes, 1 to 60 are 1, 61 are 2.
fn minutes(rt: &impl Print) -> io::Result<()> {
    on_link(rt, b"one second below the limit", 5000, 1972, 500, 0, 0, 1)?;
    on_link(
        rt,
        b"the downtime equal to the limit",
        5000,
        1971,
        500,
        0,
        0,
        0,
    )?;
    on_link(rt, b"one second above", 5000, 1970, 500, 0, 500, -1)?;
    on_link(rt, b"sixty seconds above", 5000, 1911, 500, 0, 500, -60)?;
    on_link(
        rt,
        b"sixty-one seconds above",
        5000,
        1910,
        500,
        0,
        1000,
        -61,
    )?;
    on_link(
        rt,
        b"a limit of 0: 32.85 minutes",
        50_000,
        0,
        500,
        0,
        16_500,
        -1971,
    )
}

// Two started minutes: the rate times two, or the fee if less.
fn fees_and_rates(rt: &impl Print) -> io::Result<()> {
    on_link(rt, b"the fee is one cent less", 999, 1910, 500, 0, 999, -61)?;
    on_link(rt, b"the fee is as much", 1000, 1910, 500, 0, 1000, -61)?;
    on_link(
        rt,
        b"the fee is one cent more",
        1001,
        1910,
        500,
        0,
        1000,
        -61,
    )?;
    on_link(rt, b"fee 0", 0, 1910, 500, 0, 0, -61)?;
    on_link(rt, b"rate 0", 5000, 1910, 0, 0, 0, -61)?;
    on_link(rt, b"fee and rate 0", 0, 1910, 0, 0, 0, -61)
}

// Each number at its limit, and one more.
fn limits(rt: &impl Print) -> io::Result<()> {
    on_link(rt, b"fee and rate 10^12", MOST, 1910, MOST, 0, MOST, -61)?;
    on_link(rt, b"20 for the fee", MOST + 1, 1910, 500, 20, 0, 0)?;
    on_link(rt, b"20 for the rate", 5000, 1910, MOST + 1, 20, 0, 0)?;
    on_link(rt, b"a limit of a year", 5000, YEAR, 500, 0, 0, 31_534_029)?;
    on_link(rt, b"20 for the limit", 5000, YEAR + 1, 500, 20, 0, 0)
}

// Two nodes with so many links, 0 or 1, that never fail: without one the pair is cut off all the year, 525,600 minutes, else never.
fn unfailing(
    rt: &impl Print,
    label: &[u8],
    count: u64,
    fee: u64,
    limit: u64,
    rate: u64,
    due: u64,
    headroom: i64,
) -> io::Result<()> {
    let links = [0u8, 1];
    let none = [0u64; 4];
    let h = header(2, count, 0, 1, 100);
    of_plan(
        rt, label, h, &links, &none, fee, limit, rate, 0, due, due, headroom,
    )
}

fn ends_of_the_range(rt: &impl Print) -> io::Result<()> {
    unfailing(rt, b"the whole year", 0, MOST, 0, 1, 525_600, -31_536_000)?;
    unfailing(
        rt,
        b"the whole year at 10^12",
        0,
        MOST,
        0,
        MOST,
        MOST,
        -31_536_000,
    )?;
    unfailing(
        rt,
        b"the whole year in the limit",
        0,
        MOST,
        YEAR,
        MOST,
        0,
        0,
    )?;
    unfailing(rt, b"never", 1, MOST, YEAR, MOST, 0, 31_536_000)?;
    unfailing(rt, b"never, with a limit of 0", 1, MOST, 0, MOST, 0, 0)
}

// Marked plan 9, an event of 1/2 at t = 10^18: nothing is examined, so the downtime lies between 0 and 31,536,000 seconds. With a limit of
// 3,600 seconds 525,540 minutes of the upper one are above it.
fn bounds_apart(rt: &impl Print) -> io::Result<()> {
    let links = [0u8, 1];
    let events = [500_000_000u64, 0, 1, 0];
    let h = header(2, 1, 1, 1_000_000_000_000_000_000, 100);
    of_plan(
        rt,
        b"bounds apart",
        h,
        &links,
        &events,
        MOST,
        3600,
        100,
        0,
        0,
        52_554_000,
        -31_532_400,
    )
}

// The number of a call with a fee that is too high.
fn too_high(
    rt: &impl Print,
    label: &[u8],
    h: Header,
    events: &[u64],
    v: u64,
    number: u64,
) -> io::Result<()> {
    let links = [0u8, 1];
    let answer = credits::credit(h, &links, events, v, 1, MOST + 1, 0, 0);
    same_answer(rt, label, answer, number, 0, 0, 0)
}

// The lists' refusals come first, then 13, then 20.
fn refused(rt: &impl Print) -> io::Result<()> {
    let events = [62_500u64, 0, 1, 0];
    let short = [62_500u64, 0, 1];
    too_high(
        rt,
        b"20 for a pair",
        header(2, 1, 1, 1, 100),
        &events,
        0,
        20,
    )?;
    too_high(rt, b"13 before 20", header(2, 1, 1, 1, 100), &events, 1, 13)?;
    too_high(rt, b"12 before 20", header(2, 1, 1, 1, 100), &short, 0, 12)?;
    too_high(
        rt,
        b"5 before 13 and 20",
        header(2, 1, 1, 0, 100),
        &events,
        1,
        5,
    )
}
