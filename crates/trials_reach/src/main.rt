// The test program of what nodes reach, and in how many rounds: the triangle and parallel links, with links and end nodes down; lines of
// three and of 64 nodes; nodes without a link, rings, islands, and the last node and link. Each expected value stands beside its vector,
// taken from document 01 or request U3 of document 02, or worked out by hand; a difference is printed, and `trials ended` is the last line.
// The stored output is that line alone.
#![tactic(auto)]

mod components;
mod lines;
mod networks;

use std::io;

fn main(rt: HostRuntime) -> io::Result<()> {
    networks::triangle(&rt)?;
    networks::end_nodes(&rt)?;
    networks::parallel(&rt)?;
    networks::parallel_end(&rt)?;
    lines::three(&rt)?;
    lines::three_cut(&rt)?;
    lines::longest(&rt)?;
    components::without_links(&rt)?;
    components::ring(&rt)?;
    components::ring_nodes(&rt)?;
    components::islands(&rt)?;
    components::top_bits(&rt)?;
    println!(rt; "trials ended")
}
