// Holding the working nodes and links of a network to what they should be.
ghost use Rattle.plan.specs.Held.{LinksHeld};

use network::Failed;
use std::io;
use trials_network_vectors::held;
use trials_vectors::same_part;

// Holds the working nodes and links to three words.
pub fn works(
    rt: &impl Print,
    label: &[u8],
    n: usize,
    links: &[u8; 256],
    count: usize,
    failed: Failed,
    nodes: u64,
    low: u64,
    high: u64,
) -> io::Result<()> {
    if held(n, links, count) {
        working(rt, label, n, links, count, failed, nodes, low, high)?;
    } else {
        same_part(rt, label, b"valid", 0, 1)?;
    }
    Ok(())
}

fn working(
    rt: &impl Print,
    label: &[u8],
    n: usize,
    links: &[u8; 256],
    count: usize,
    failed: Failed,
    nodes: u64,
    low: u64,
    high: u64,
) -> io::Result<()>
    requires { LinksHeld n links.now count }
{
    let up_nodes = network::working_nodes(n, failed.nodes);
    let table = network::links_at(n, links, count);
    let up = network::working_links(failed, count, &table);
    same_part(rt, label, b"working nodes", up_nodes, nodes)?;
    same_part(rt, label, b"working links 0 to 63", up.low, low)?;
    same_part(rt, label, b"working links 64 to 127", up.high, high)
}
