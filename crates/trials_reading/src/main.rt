// The test program of reading plans into lent lists: what is read, what is refused, and the room that is asked for. Lists hold a pattern,
// byte 170 and word 77, before the call. Each expected value stands beside its vector, taken from document 01 or worked out by hand; a
// difference is printed, and `trials ended` is the last line. The stored output is that line alone.
#![tactic(auto)]

mod plans;
mod rooms;
mod unread;

use std::io;

fn main(rt: HostRuntime) -> io::Result<()> {
    plans::triangle(&rt)?;
    plans::one_node(&rt)?;
    plans::wide_numbers(&rt)?;
    plans::large(&rt)?;
    unread::refused_headers(&rt)?;
    unread::refused_entries(&rt)?;
    rooms::short_links(&rt)?;
    rooms::short_events(&rt)?;
    rooms::exact_lists(&rt)?;
    rooms::byte_too_many(&rt)?;
    println!(rt; "trials ended")
}
