// The reach of one node of a network whose links are lent, for crate `probe`, not part of the product: it shows what
// `topology::reach_from` gives.
// Assumes nothing.
#![tactic(auto)]

ghost use Rattle.std.specs.Prelude.{◌≡◌, ◌<◌, IfOk, OnOk};
ghost use Rattle.mass.specs.Refusal.{number_in};
ghost use Rattle.host_answers.specs.Laid.{laid, values_or_zeros};
ghost use Rattle.host_reach.specs.NodeReach.{links_number, LinksTaken, node_test, reach_number, reach_in, reach_values};

use host_answers::give;
use mass::Refusal;
use network::Failed;
use plan::Header;
use topology::Reach;

// Takes lent links into the array, and answers their refusal, if there is one: 4, 12, 7. They are accepted as those of a plan without
// events.
fn accept_links(nodes: u64, count: u64, links: &[u8], bytes: &mut [u8; 256]) -> Result<(), Refusal>
    ensures number { number_in result ≡ links_number nodes count links.now }
    ensures taken { OnOk result (LinksTaken nodes count links.now bytes.new) }
{
    let h = Header {
        nodes,
        links: count,
        events: 0,
        threshold: 1,
        cap: 1,
    };
    let none = [0u64; 1];
    let mut words = [0u64; 512];
    plan_lists::accept(h, links, &none, bytes, &mut words)
}

// 13: v is no node.
fn node_test(nodes: u64, v: u64) -> Result<(), Refusal>
    ensures number { number_in result ≡ node_test nodes v }
    ensures inside { OnOk result (v < nodes) }
{
    Refusal::Pair.when(nodes <= v)
}

// What node v reaches: the set of nodes, and the number of rounds.
#[tactic(auto, using(mass::proofs::RefusalLaws::refuses), unfolding(crate::specs::NodeReach::reach_number))]
fn reach_of(nodes: u64, count: u64, links: &[u8], failed: Failed, v: u64) -> Result<Reach, Refusal>
    ensures number { number_in result ≡ reach_number nodes count links.now v }
    ensures reach { IfOk result (λ r. r ≡ reach_in nodes count links.now failed v) }
{
    let mut bytes = [0u8; 256];
    accept_links(nodes, count, links, &mut bytes)?;
    node_test(nodes, v)?;
    let n = nodes as usize;
    let k = count as usize;
    let table = network::links_at(n, &bytes, k);
    Ok(topology::reach_from(n, failed, &bytes, k, &table, v as usize))
}

fn reach_values(found: Reach) -> [u64; 2]
    ensures { result ≡ reach_values found }
{
    [found.set, found.rounds]
}

// The set that node v reaches and the number of rounds, laid down in a lent list as far as it has room: 0, 0 where the call refuses. What has
// failed is three words: a set of nodes, and a set of links in two.
pub fn reach(
    nodes: u64,
    count: u64,
    links: &[u8],
    failed_nodes: u64,
    failed_low: u64,
    failed_high: u64,
    v: u64,
    res: &mut [u64],
) -> u32
    ensures number { result ≡ reach_number nodes count links.now v }
    ensures res { res.new ≡ laid (values_or_zeros 2 result (reach_values (reach_in nodes count links.now
        (record { nodes = failed_nodes; low = failed_low; high = failed_high }) v))) res.old }
{
    let failed = Failed {
        nodes: failed_nodes,
        low: failed_low,
        high: failed_high,
    };
    give(
        reach_of(nodes, count, links, failed, v).map(reach_values),
        res,
    )
}
