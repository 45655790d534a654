// The test program of the conditional figure, the downtime and the witness. A mass is in units of 10^-18. Each expected value stands beside
// its vector, taken from the documents or worked out by hand; a difference is printed, and `trials ended` is the last line. The stored
// output is that line alone.
#![tactic(auto)]

mod downtimes;
mod figures;
mod witness;

use std::io;

fn main(rt: HostRuntime) -> io::Result<()> {
    figures::marked_figures(&rt)?;
    figures::rounded_figures(&rt)?;
    figures::refused_figures(&rt)?;
    downtimes::whole_seconds(&rt)?;
    downtimes::rounded_seconds(&rt)?;
    downtimes::refused_seconds(&rt)?;
    witness::witness(&rt)?;
    println!(rt; "trials ended")
}
