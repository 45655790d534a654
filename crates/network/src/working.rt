// The working nodes and links. Links are two bytes each, their end nodes.
ghost use Rattle.std.specs.Prelude.{◌≡◌, not, ◌&&◌, List, ℕ, ◌≤◌, ◌<◌, ltb};
ghost use Rattle.sets.specs.Sets.{bit, joined};
ghost use Rattle.network.specs.Topology.{link_works};
ghost use Rattle.network.specs.Code.{network_in};
ghost use Rattle.plan.specs.Held.{LinksHeld};
ghost use Rattle.network.specs.Table.{ends_of, link_in, at_nodes, LinksAt};

use crate::{Failed, Links};

// The two end nodes of link i, the smaller one first.
pub fn ends(n: usize, links: &[u8; 256], count: usize, i: usize) -> (usize, usize)
    requires links_held { LinksHeld n links.now count }
    requires i_lt_count { i < count }
    ensures is { ends_of result.0 result.1 ≡ link_in links.now i }
    ensures within { (result.0 < 64) × (result.1 < 64) }
{
    (usize::from(links[2 * i]), usize::from(links[2 * i + 1]))
}

// The working nodes, of n.
pub fn working_nodes(n: usize, failed: u64) -> u64
    requires { n ≤ 64 }
    ensures { (v : ℕ) → bit result v ≡ (ltb v n && not (bit failed v)) }
{
    sets::less(sets::all_below(n), failed)
}

// The first `count` links.
fn first_links(count: usize) -> Links
    requires { count ≤ 128 }
    ensures { (i : ℕ) → bit (joined result.low result.high) i ≡ ltb i count }
{
    Links {
        low: sets::all_below(count.min(64)),
        high: sets::all_below(count.saturating_sub(64)),
    }
}

// A set of links without those at the nodes of a set.
fn apart_from(up: Links, nodes: u64, table: &[u64; 128]) -> Links
    ensures { (i : ℕ) → i < 128 →
        bit (joined result.low result.high) i ≡ (bit (joined up.low up.high) i && not (at_nodes table.now nodes i)) }
{
    let mut apart = up;
    // Without the links at those nodes still to come, `apart` is the set to be returned.
    for v in sets::elements(nodes) {
        apart.low = sets::less(apart.low, table[2 * v]);
        apart.high = sets::less(apart.high, table[2 * v + 1]);
    }
    apart
}

// The working links, of `count`, of any network whose table of links this is: those that have not failed, and that are at no failed node.
pub fn working_links(failed: Failed, count: usize, table: &[u64; 128]) -> Links
    requires { count ≤ 128 }
    ensures { (n : ℕ) (bytes : List ℕ) → LinksHeld n bytes count → LinksAt bytes count table.now → (i : ℕ) →
        bit (joined result.low result.high) i ≡ link_works (network_in n failed bytes count) i }
{
    let all = first_links(count);
    let up = Links {
        low: sets::less(all.low, failed.low),
        high: sets::less(all.high, failed.high),
    };
    apart_from(up, failed.nodes, table)
}
