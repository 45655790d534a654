// The test program of several thresholds in one walk: document 02, request U8. Each expected value is worked out by hand from the ends in
// order; a difference is printed, and `trials ended` is the last line. The stored output is that line alone. What is refused stands in
// `refusing` and `orders`, plans without a pair or an event in `single`.
#![tactic(auto)]

mod caps;
mod held;
mod levels;
mod orders;
mod refusing;
mod single;

use std::io;

fn main(rt: HostRuntime) -> io::Result<()> {
    levels::few(&rt)?;
    levels::either_side(&rt)?;
    levels::sixteen(&rt)?;
    caps::caps(&rt)?;
    caps::higher_caps(&rt)?;
    single::no_pair(&rt, b"no pair")?;
    single::no_event(&rt, b"no event")?;
    orders::headers(&rt, b"4, 6 or 12 for a header")?;
    orders::link(&rt, b"7 for a link")?;
    refusing::lengths(&rt)?;
    refusing::values(&rt, b"23 for a value")?;
    refusing::lower_room(&rt)?;
    refusing::upper_room(&rt)?;
    println!(rt; "trials ended")
}
