// The test program of working nodes and links, and of disconnected pairs. Each expected value stands beside its vector, taken from document
// 01 or worked out by hand; a difference is printed, and `trials ended` is the last line. The stored output is that line alone.
#![tactic(auto)]

mod disconnected;
mod networks;
mod pairs;
mod working;

use std::io;

fn main(rt: HostRuntime) -> io::Result<()> {
    networks::triangle(&rt)?;
    networks::end_nodes(&rt)?;
    networks::parallel(&rt)?;
    networks::without_links(&rt)?;
    networks::ring_nodes(&rt)?;
    networks::top_bits(&rt)?;
    networks::word_ends(&rt)?;
    networks::outages(&rt)?;
    disconnected::end_node_pairs(&rt)?;
    disconnected::parallel_pairs(&rt)?;
    disconnected::parallel_words(&rt)?;
    disconnected::past_the_nodes(&rt)?;
    disconnected::islands(&rt)?;
    disconnected::word_end_pairs(&rt)?;
    println!(rt; "trials ended")
}
