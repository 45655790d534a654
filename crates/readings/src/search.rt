// Witness: the first examined scenario that disconnects a pair.
ghost use Rattle.std.specs.Prelude.{◌≡◌, ◌^◌, ◌<◌, IfOk};
ghost use Rattle.mass.specs.Refusal.{number_in};
ghost use Rattle.sets.specs.Sets.{joined};
ghost use Rattle.plan.specs.LentLists.{plan_of_lists, in_words};
ghost use Rattle.walk.specs.Scenario.{scenario_of};
ghost use Rattle.walk.specs.Walk.{examined};
ghost use Rattle.network.specs.Table.{LinksAt};
ghost use Rattle.bounds.specs.Bounds.{cuts};
ghost use Rattle.plan.specs.Held.{Held};
ghost use Rattle.network.specs.Outage.{intact};
ghost use Rattle.readings.specs.Witness.{witness_number, witness_of};
ghost use Rattle.readings.specs.Search.{reached_scenarios, searched, Seeking};

use mass::Refusal;
use network::Failed;
use plan::Header;
use walk::Failing;

// Whether the topology of a scenario, by its failing events, disconnects the pair.
fn cut_by(
    h: Header,
    links: &[u8; 256],
    words: &[u64; 512],
    table: &[u64; 128],
    failing: Failing,
    v: usize,
    w: usize,
) -> bool
    requires held { Held h links.now words.now }
    requires links_at { LinksAt links.now h.links table.now }
    requires high_bound { (joined failing.low failing.high < 2 ^ h.events) × (v < 64) × (w < 64) }
    ensures { result ≡ cuts intact (plan_of_lists h links.now words.now) v w
        (scenario_of h.events (joined failing.low failing.high)) }
{
    let failed = network::failed_by(
        words,
        h.events as usize,
        failing.low,
        failing.high,
        Failed::NONE,
    );
    topology::is_disconnected(
        h.nodes as usize,
        failed,
        links,
        h.links as usize,
        table,
        v,
        w,
    )
}

// The first relevant scenario among the next k ends whose topology disconnects the pair.
fn search_on(
    h: Header,
    links: &[u8; 256],
    words: &[u64; 512],
    table: &[u64; 128],
    stack: &mut [u64; 512],
    start: usize,
    v: usize,
    w: usize,
    k: u64,
) -> Option<Failing>
    requires links_at { LinksAt links.now h.links table.now }
    requires seeking { Seeking h links.now words.now start stack.old v w }
    ensures { result ≡ searched intact (plan_of_lists h links.now words.now) v w
        (reached_scenarios h words.now start stack.old k) }
{
    let mut at = start;
    let mut left = k;
    // What a search of the next `left` ends answers from here, a search of the k ends from the start answers.
    // A scenario that is found takes one end or more, so `left` falls in each turn that does not return.
    loop {
        let r = walk::next_relevant(h.events, h.threshold, words, &mut *stack, at, left);
        let x = r.found?;
        if cut_by(h, links, words, table, x.failing, v, w) {
            return Some(x.failing);
        }
        at = r.at;
        left = r.left;
    }
}

// The witness of an accepted plan: the walk from its root, for at most cap ends.
fn search_all(
    h: Header,
    links: &[u8; 256],
    words: &[u64; 512],
    v: usize,
    w: usize,
) -> Option<Failing>
    requires held { Held h links.now words.now }
    requires v_bound { (v < 64) × (w < 64) }
    ensures { result ≡ searched intact (plan_of_lists h links.now words.now) v w
        (examined (plan_of_lists h links.now words.now)) }
{
    let table = network::links_at(h.nodes as usize, links, h.links as usize);
    let mut stack = [0u64; 512];
    let at = walk::begin(&mut stack);
    search_on(h, links, words, &table, &mut stack, at, v, w, h.cap)
}

// The witness: the first examined scenario, in the walk's order, that disconnects the pair, as the set of its failing events; 14 where there
// is none.
#[tactic(auto, using(mass::proofs::RefusalLaws::refuses), unfolding(crate::specs::Witness::witness_number))]
pub fn witness(h: Header, links: &[u8], events: &[u64], v: u64, w: u64) -> Result<Failing, Refusal>
    ensures number { number_in result ≡ witness_number intact (in_words h links.now events.now) v w }
    ensures set { IfOk result (λ set. set ≡ witness_of intact (plan_of_lists h links.now events.now) v w) }
{
    let mut bytes = [0u8; 256];
    let mut words = [0u64; 512];
    bounds::accept_pair(h, links, events, v, w, &mut bytes, &mut words)?;
    search_all(h, &bytes, &words, v as usize, w as usize).ok_or(Refusal::NoWitness)
}
