// The test program of what goes by way of records and of the reader: document 01, "Plan file". An output holds a pattern, byte 170, before
// the call. Each expected value stands beside its vector, taken from document 01 or worked out by hand; a difference is printed, and
// `trials ended` is the last line. The stored output is that line alone.
#![tactic(auto)]

mod copies;
mod members;
mod steps;

use std::io;

fn main(rt: HostRuntime) -> io::Result<()> {
    copies::triangle(&rt)?;
    copies::large(&rt)?;
    copies::header_alone(&rt)?;
    copies::refused(&rt)?;
    copies::short_output(&rt)?;
    steps::links(&rt)?;
    steps::moved(&rt)?;
    steps::stays(&rt)?;
    steps::refused(&rt)?;
    members::seven(&rt)?;
    members::up_to_a_refusal(&rt)?;
    members::bytes_end(&rt)?;
    members::no_member(&rt)?;
    println!(rt; "trials ended")
}
