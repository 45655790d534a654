// The loop of the topology list over the ends of the walk.
ghost use Rattle.std.specs.Prelude.{◌≡◌, [], ◌/◌, ◌^◌, ◌<◌, length};
ghost use Rattle.sets.specs.Sets.{joined};
ghost use Rattle.plan.specs.LentLists.{plan_of_lists};
ghost use Rattle.network.specs.Table.{LinksAt};
ghost use Rattle.walk.specs.Scenario.{scenario_of};
ghost use Rattle.plan.specs.Held.{Held};
ghost use Rattle.network.specs.Outage.{intact};
ghost use Rattle.topology_list.specs.Entries.{topology_list};
ghost use Rattle.topology_list.specs.TopologyList.{placed_all, topology_after, topology_list_of};
ghost use Rattle.topology_list.specs.Words.{HoldsList};
ghost use Rattle.topology_list.specs.MassesFit.{next_ends, MassesFit};

use crate::Topology;
use crate::entries::place_topology;
use mass::Refusal;
use network::Failed;
use plan::Header;
use walk::Failing;

// The effective topology of a scenario, by its failing events.
fn topology_of(
    h: Header,
    links: &[u8; 256],
    words: &[u64; 512],
    table: &[u64; 128],
    failing: Failing,
) -> Topology
    requires held { Held h links.now words.now }
    requires links_at { LinksAt links.now h.links table.now }
    requires high_bound { joined failing.low failing.high < 2 ^ h.events }
    ensures { result ≡ topology_after intact (plan_of_lists h links.now words.now)
        (scenario_of h.events (joined failing.low failing.high)) }
{
    let n = h.nodes as usize;
    let failed = network::failed_by(
        words,
        h.events as usize,
        failing.low,
        failing.high,
        Failed::NONE,
    );
    let nodes = network::working_nodes(n, failed.nodes);
    let up = network::working_links(failed, h.links as usize, table);
    Topology {
        nodes,
        low: up.low,
        high: up.high,
    }
}

// Places the topologies of the relevant scenarios among the next h.cap ends of a walk.
fn list_ends(
    h: Header,
    links: &[u8; 256],
    words: &[u64; 512],
    table: &[u64; 128],
    stack: &mut [u64; 512],
    start: usize,
    list: &mut [u64],
) -> Result<usize, Refusal>
    requires links_at { LinksAt links.now h.links table.now }
    requires masses_fit { MassesFit h links.now words.now start stack.old }
    ensures { HoldsList
        (placed_all (length list.old / 4) (topology_after intact (plan_of_lists h links.now words.now))
        (topology_list [] 0) (next_ends h words.now start stack.old h.cap))
        0 list.old list.new result }
{
    let mut at = start;
    let mut left = h.cap;
    let mut count = 0;
    // Placing the topologies of the next `left` ends into the list of `count` entries gives what the call is to give.
    // A scenario that is found takes one end or more, so `left` falls in each turn that does not return.
    loop {
        let r = walk::next_relevant(h.events, h.threshold, words, &mut *stack, at, left);
        let Some(x) = r.found else {
            return Ok(count);
        };
        let t = topology_of(h, links, words, table, x.failing);
        count = place_topology(&mut *list, count, t, x.mass)?;
        at = r.at;
        left = r.left;
    }
}

// The topology list of an accepted plan, from the root of the walk.
pub fn list_all(
    h: Header,
    links: &[u8; 256],
    words: &[u64; 512],
    list: &mut [u64],
) -> Result<usize, Refusal>
    requires { Held h links.now words.now }
    ensures { HoldsList (topology_list_of intact (length list.old / 4) (plan_of_lists h links.now words.now))
        0 list.old list.new result }
{
    let table = network::links_at(h.nodes as usize, links, h.links as usize);
    let mut stack = [0u64; 512];
    let start = walk::begin(&mut stack);
    list_ends(h, links, words, &table, &mut stack, start, list)
}
