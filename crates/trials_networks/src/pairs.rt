// Holding the disconnected test of a pair to what it should be.
ghost use Rattle.std.specs.Prelude.{◌<◌};
ghost use Rattle.plan.specs.Held.{LinksHeld};

use network::Failed;
use std::io;
use trials_network_vectors::held;
use trials_vectors::same_part;

// Holds the disconnected test of a pair to 1, disconnected, or 0.
pub fn pair(
    rt: &impl Print,
    label: &[u8],
    n: usize,
    links: &[u8; 256],
    count: usize,
    failed: Failed,
    v: usize,
    w: usize,
    want: u64,
) -> io::Result<()>
    requires { (v < 64) × (w < 64) }
{
    if held(n, links, count) {
        tested(rt, label, n, links, count, failed, v, w, want)?;
    } else {
        same_part(rt, label, b"valid", 0, 1)?;
    }
    Ok(())
}

fn tested(
    rt: &impl Print,
    label: &[u8],
    n: usize,
    links: &[u8; 256],
    count: usize,
    failed: Failed,
    v: usize,
    w: usize,
    want: u64,
) -> io::Result<()>
    requires links_held { LinksHeld n links.now count }
    requires v_bound { (v < 64) × (w < 64) }
{
    let table = network::links_at(n, links, count);
    let cut = topology::is_disconnected(n, failed, links, count, &table, v, w);
    same_part(rt, label, b"disconnected", cut as u64, want)
}
