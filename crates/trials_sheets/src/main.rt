// The test program of equipment sheets: document 02, U2. Lists hold a pattern, word 77, before the call. Each expected value stands beside
// its vector, taken from document 02 or worked out by hand; a difference is printed, and `trials ended` is the last line. The stored output
// is that line alone.
#![tactic(auto)]

mod compare;
mod lines;
mod products;
mod reading;

use std::io;

fn main(rt: HostRuntime) -> io::Result<()> {
    reading::in_order(&rt)?;
    reading::wide_numbers(&rt)?;
    reading::rooms(&rt)?;
    products::products(&rt)?;
    products::headers(&rt)?;
    lines::lines_cut_and_wrong(&rt)?;
    lines::many_lines(&rt)?;
    println!(rt; "trials ended")
}
