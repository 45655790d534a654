// Which pairs of nodes the effective topology disconnects.
ghost use Rattle.std.specs.Prelude.{◌≡◌, true, ◌↔◌, ℕ, ◌<◌};
ghost use Rattle.sets.specs.Sets.{bit};
ghost use Rattle.topology.specs.Paths.{Reaches, disconnected};
ghost use Rattle.topology.specs.Rounds.{reach_of};
ghost use Rattle.network.specs.Code.{network_in};
ghost use Rattle.plan.specs.Held.{LinksHeld};
ghost use Rattle.network.specs.Table.{LinksAt};

use crate::Reach;
use crate::rounds::reach;
use network::{Failed, neighbours, working_nodes};

// What node v reaches: w exactly where v works and a path of working links joins v and w. Beside it, the number of rounds.
pub fn reach_from(
    n: usize,
    failed: Failed,
    links: &[u8; 256],
    count: usize,
    table: &[u64; 128],
    v: usize,
) -> Reach
    requires links_held { LinksHeld n links.now count }
    requires links_at { LinksAt links.now count table.now }
    requires v_bound { v < 64 }
    ensures paths { (w : ℕ) → (bit result.set w ≡ true) ↔ Reaches (network_in n failed links.now count) v w }
    ensures rounds { result ≡ reach_of (network_in n failed links.now count) v }
{
    let rows = neighbours(n, links, count, table, failed);
    let nodes = working_nodes(n, failed.nodes);
    reach(rows, nodes, v)
}

// Whether v and w are disconnected.
pub fn is_disconnected(
    n: usize,
    failed: Failed,
    links: &[u8; 256],
    count: usize,
    table: &[u64; 128],
    v: usize,
    w: usize,
) -> bool
    requires links_held { LinksHeld n links.now count }
    requires links_at { LinksAt links.now count table.now }
    requires v_bound { (v < 64) × (w < 64) }
    ensures { result ≡ disconnected (network_in n failed links.now count) v w }
{
    let found = reach_from(n, failed, links, count, table, v);
    sets::at(found.set, w) == 0
}
