// The test program of plans that are written and read: document 01, "Plan file". Lists and outputs hold a pattern, byte 170 and word 77,
// before the call. Each expected value stands beside its vector, taken from document 01 or worked out by hand; a difference is printed,
// and `trials ended` is the last line. The stored output is that line alone.
#![tactic(auto)]

use std::io;
use trials_vectors::{
    BYTE, WORD, accepted, full_events, header, large_file, many_links, same, same_list, written,
};

fn main(rt: HostRuntime) -> io::Result<()> {
    read_then_written(&rt)?;
    longest(&rt)?;
    println!(rt; "trials ended")
}

// A file that is read is written again as the same bytes.
fn read_then_written(rt: &impl Print) -> io::Result<()> {
    let mut links = [BYTE; 256];
    let mut events = [WORD; 9];
    let mut out = [BYTE; 302];
    let h = header(64, 128, 2, 1_000_000_000_000_000_000, 1_000_000);
    accepted(
        rt,
        b"read and write again",
        plan_reading::read(&large_file(), &mut links, &mut events),
        h,
    )?;
    written(
        rt,
        b"write again what was read",
        plan_writing::write(h, &links, &events, &mut out),
        302,
    )?;
    same_list(rt, b"what was read and written again", &out, &large_file())
}

// The longest plan, 50,068 bytes (document 01): 20, 256 for the links, and 128 events of 5 bytes and 192 members. What is written reads
// back equal.
fn longest(rt: &impl Print) -> io::Result<()> {
    let mut out = [BYTE; 50069];
    let answer = plan_writing::write(
        header(64, 128, 128, 1, 1),
        &many_links(),
        &full_events(),
        &mut out,
    );
    written(rt, b"write the longest plan", answer, 50_068)?;
    same_list(rt, b"past the longest plan", &out[50_068..50_069], b"\xaa")?;
    longest_read(rt, &out[0..50_068])
}

fn longest_read(rt: &impl Print, file: &[u8]) -> io::Result<()> {
    let mut links = [BYTE; 256];
    let mut events = [WORD; 512];
    let answer = plan_reading::read(file, &mut links, &mut events);
    accepted(
        rt,
        b"read the longest plan",
        answer,
        header(64, 128, 128, 1, 1),
    )?;
    same_list(rt, b"the longest plan: links", &links, &many_links())?;
    same_list(rt, b"the longest plan: events", &events, &full_events())
}
