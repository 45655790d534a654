// The loop of the run over the relevant scenarios of the walk.
ghost use Rattle.std.specs.Prelude.{◌^◌, ◌<◌};
ghost use Rattle.sets.specs.Sets.{joined};
ghost use Rattle.plan.specs.Held.{Held};
ghost use Rattle.plan.specs.LentLists.{plan_of_lists};
ghost use Rattle.network.specs.Code.{outage};
ghost use Rattle.network.specs.Table.{LinksAt};
ghost use Rattle.walk.specs.Scenario.{scenario_of};
ghost use Rattle.bounds.specs.Bounds.{cuts};
ghost use Rattle.bounds.specs.Blocks.{BlocksFit, BlocksAdded};
ghost use Rattle.bounds.specs.Tallied.{walked_plan, run_state, Ready, Tallied};

use crate::Tally;
use network::Failed;
use pairs::{add_cut, pair_count};
use plan::Header;
use walk::Failing;

// Adds the mass of a scenario to the entries of the pairs that its topology, with what is out before the first event, disconnects, in each
// block of a set. The topology is worked out once.
pub fn examine(
    h: Header,
    links: &[u8; 256],
    words: &[u64; 512],
    table: &[u64; 128],
    out: Failed,
    failing: Failing,
    lower: &mut [u64],
    blocks: u64,
    mass: u64,
)
    requires held { Held h links.now words.now }
    requires links_at { LinksAt links.now h.links table.now }
    requires high_bound { joined failing.low failing.high < 2 ^ h.events }
    requires blocks_fit { BlocksFit h.nodes blocks mass lower.old }
    ensures { BlocksAdded h.nodes (λ v w. cuts (outage out) (plan_of_lists h links.now words.now) v w
        (scenario_of h.events (joined failing.low failing.high))) blocks mass lower.old lower.new }
{
    let n = h.nodes as usize;
    let failed = network::failed_by(words, h.events as usize, failing.low, failing.high, out);
    let nodes = network::working_nodes(n, failed.nodes);
    let rows = network::neighbours(n, links, h.links as usize, table, failed);
    let pairs = pair_count(n);
    // With the mass added to the blocks still to come, the entries are as with it added to all.
    for b in sets::elements(blocks) {
        add_cut(&mut *lower, pairs * b, n, rows, nodes, mass);
    }
}

// Goes on with a walk for so many ends as may still be reached, adding up what they give.
pub fn go_on(
    h: Header,
    links: &[u8; 256],
    words: &[u64; 512],
    table: &[u64; 128],
    out: Failed,
    stack: &mut [u64; 512],
    lower: &mut [u64; 2016],
    so_far: Tally,
) -> Tally
    requires links_at { LinksAt links.now h.links table.now }
    requires ready { Ready h links.now words.now (run_state stack.old lower.old so_far) }
    ensures { Tallied (walked_plan (outage out) h links.now words.now)
        (run_state stack.old lower.old so_far) (run_state stack.new lower.new result) }
{
    let mut at = so_far.at;
    let mut left = so_far.left;
    let mut count = so_far.count;
    let mut mass = so_far.mass;
    // Going on from here gives what the call is to give from the start.
    // A scenario that is found takes one end or more, so `left` falls in each turn that does not return.
    loop {
        let step = walk::next_relevant(h.events, h.threshold, words, &mut *stack, at, left);
        at = step.at;
        left = step.left;
        let Some(x) = step.found else {
            return Tally {
                at,
                left,
                count,
                mass,
            };
        };
        examine(
            h,
            links,
            words,
            table,
            out,
            x.failing,
            &mut *lower,
            1,
            x.mass,
        );
        count += 1;
        mass += x.mass;
    }
}
