// The test program of writing plans from lent lists: what is written, and what is refused. The output holds a pattern, byte 170, before the
// call. Each expected value stands beside its vector, taken from document 01 or worked out by hand; a difference is printed, and `trials
// ended` is the last line. The stored output is that line alone.
#![tactic(auto)]

mod plans;
mod unwritten;

use std::io;

fn main(rt: HostRuntime) -> io::Result<()> {
    plans::triangle(&rt)?;
    plans::large(&rt)?;
    plans::past_the_counts(&rt)?;
    plans::header_alone(&rt)?;
    unwritten::counts(&rt)?;
    unwritten::threshold_and_cap(&rt)?;
    unwritten::short_lists(&rt)?;
    unwritten::short_output(&rt)?;
    unwritten::short_large_output(&rt)?;
    unwritten::no_output(&rt)?;
    unwritten::ends(&rt)?;
    unwritten::probabilities(&rt)?;
    unwritten::sets(&rt)?;
    println!(rt; "trials ended")
}
