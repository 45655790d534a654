// The test program of the split of a mass, and of the check of a plan file: document 01, "Units and the splitting of mass", "Plan file" and
// "Refused". A header is 20 bytes: RSG, version 1, nodes, links, events, the threshold in 8 bytes and the cap in 4, here 1 and 100 unless
// the vector is about them. Each expected value stands beside its vector, taken from document 01 or worked out by hand; a difference is
// printed, and `trials ended` is the last line. The stored output is that line alone.
#![tactic(auto)]

mod headers;
mod past_header;
mod splits;

use std::io;

fn main(rt: HostRuntime) -> io::Result<()> {
    splits::splits(&rt)?;
    splits::refused_splits(&rt)?;
    headers::header(&rt)?;
    headers::counts(&rt)?;
    headers::threshold_and_cap(&rt)?;
    past_header::links(&rt)?;
    past_header::events(&rt)?;
    past_header::members(&rt)?;
    past_header::rising_members(&rt)?;
    past_header::lengths(&rt)?;
    println!(rt; "trials ended")
}
