// The entries of a topology list, four words each: nodes, links 0 to 63, links 64 to 127, mass.
// Document 01, section "Further readings of a plan".
ghost use Rattle.std.specs.Prelude.{◌≡◌, [], ◌∷◌, ◌+◌, ◌*◌, ◌/◌, ◌^◌, ◌<◌, ◌≤◌, length, set, MatchOption};
ghost use Rattle.std.proofs.lemmas.List.Edits.{sets};
ghost use Rattle.topology_list.specs.Entries.{same_topology, added, fitted};
ghost use Rattle.topology_list.specs.Words.{topology_at, mass_at, entries_of, Found, MassFits, HoldsList};

use crate::Topology;
use mass::Refusal;

// Whether entry i has the topology.
#[tactic(auto, using(std::proofs::Common::tests), unfolding(crate::specs::Entries::same_topology))]
fn is_at(list: &[u64], i: usize, t: Topology) -> bool
    requires { 4 * i + 4 ≤ length list.now }
    ensures { result ≡ same_topology (topology_at list.now i) t }
{
    let at = 4 * i;
    list[at] == t.nodes && list[at + 1] == t.low && list[at + 2] == t.high
}

// The first of `count` entries that has the topology, if one has it.
fn find(list: &[u64], count: usize, t: Topology) -> Option<usize>
    requires { 4 * count ≤ length list.now }
    ensures { MatchOption result (Found t count list.now count) (λ i. (i < count) × Found t count list.now i) }
{
    // None of the first i entries has the topology.
    for i in 0..count {
        if is_at(list, i, t) {
            return Some(i);
        }
    }
    None
}

// Adds to the mass of entry i.
fn raise(list: &mut [u64], i: usize, mass: u64)
    requires { (4 * i + 4 ≤ length list.old) × (mass_at list.old i + mass < 2 ^ 64) }
    ensures { list.new ≡ set list.old (4 * i + 3) (mass_at list.old i + mass) }
{
    list[4 * i + 3] += mass;
}

// Lays entry i down.
fn put(list: &mut [u64], i: usize, t: Topology, mass: u64)
    requires { 4 * i + 4 ≤ length list.old }
    ensures { list.new ≡ sets list.old (4 * i) (t.nodes ∷ t.low ∷ t.high ∷ mass ∷ []) }
{
    let at = 4 * i;
    list[at] = t.nodes;
    list[at + 1] = t.low;
    list[at + 2] = t.high;
    list[at + 3] = mass;
}

// Adds a mass to the entry of its topology, or to a new entry after the last; 15 where the list has no entry left for it.
pub fn place_topology(
    list: &mut [u64],
    count: usize,
    t: Topology,
    mass: u64,
) -> Result<usize, Refusal>
    requires { MassFits count mass list.old }
    ensures { HoldsList
        (fitted (length list.old / 4) (entries_of count list.old) (added t mass (entries_of count list.old)))
        count list.old list.new result }
{
    if let Some(i) = find(list, count, t) {
        raise(list, i, mass);
        return Ok(count);
    }
    Refusal::ListFull.when(list.len() / 4 <= count)?;
    put(list, count, t, mass);
    Ok(count + 1)
}
