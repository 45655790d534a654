// The bounds of one pair.
ghost use Rattle.std.specs.Prelude.{◌≡◌, ◌+◌, ◌-◌, ◌<◌, ◌≤◌, min, length, get_or, take, IfOk, OnOk};
ghost use Rattle.std.proofs.lemmas.List.Edits.{sets};
ghost use Rattle.mass.specs.Refusal.{number_in};
ghost use Rattle.mass.specs.Split.{whole};
ghost use Rattle.plan.specs.LentLists.{plan_refusal, plan_of_lists, in_words};
ghost use Rattle.plan_lists.specs.Taken.{Taken};
ghost use Rattle.network.specs.Outage.{intact};
ghost use Rattle.walk.specs.Walk.{count};
ghost use Rattle.pairs.specs.Pairs.{place};
ghost use Rattle.pairs.specs.BoundsFit.{BoundsFit};
ghost use Rattle.bounds.specs.Bounds.{Encloses};
ghost use Rattle.bounds.specs.Calls.{bounds_of, pair_number};

use crate::PairBounds;
use crate::full_walk::walk_all;
use mass::Refusal;
use network::Failed;
use pairs::{pair_test, place_of};
use plan::Header;

// The bounds of one pair from the sums.
fn bounds_at(n: usize, mass: u64, sums: &[u64; 2016], v: usize, w: usize) -> PairBounds
    requires bounds_fit { BoundsFit n mass sums.now sums.now sums.now }
    requires v_lt_w { (v < w) × (w < n) }
    ensures { (result.lower ≡ get_or sums.now (place n v w) 0)
        × (result.upper ≡ (whole - mass) + get_or sums.now (place n v w) 0) }
{
    let lower = sums[place_of(n, v, w)];
    PairBounds {
        lower,
        upper: (mass::Mass::WHOLE.units - mass) + lower,
    }
}

// The tests of a call that names a pair: those of the lists, which are taken into the arrays, then 13.
#[tactic(auto, using(mass::proofs::RefusalLaws::refuses), unfolding(crate::specs::Calls::pair_number))]
pub fn accept_pair(
    h: Header,
    links: &[u8],
    events: &[u64],
    v: u64,
    w: u64,
    bytes: &mut [u8; 256],
    words: &mut [u64; 512],
) -> Result<(), Refusal>
    ensures number { number_in result ≡ pair_number (in_words h links.now events.now) v w }
    ensures accepted { OnOk result (Taken h links.now events.now bytes.new words.new
        × ((v < w) × (w < h.nodes))) }
    ensures bytes { bytes.new ≡ sets bytes.old 0
        (take (min (length links.now) 256) links.now) }
    ensures words { words.new ≡ sets words.old 0
        (take (min (length events.now) 512) events.now) }
{
    plan_lists::accept(h, links, events, bytes, words)?;
    pair_test(h.nodes, v, w)
}

// The bounds of one pair of an accepted plan that stands in arrays.
pub fn pair_in(h: Header, links: &[u8; 256], words: &[u64; 512], v: usize, w: usize) -> PairBounds
    requires words_value { plan_refusal (plan_of_lists h links.now words.now) ≡ 0 }
    requires v_lt_w { (v < w) × (w < h.nodes) }
    ensures { result ≡ bounds_of intact (plan_of_lists h links.now words.now) v w }
{
    let mut sums = [0u64; 2016];
    let totals = walk_all(h, links, words, Failed::NONE, &mut sums);
    bounds_at(h.nodes as usize, totals.mass, &sums, v, w)
}

// The bounds of one pair.
pub fn pair(h: Header, links: &[u8], events: &[u64], v: u64, w: u64) -> Result<PairBounds, Refusal>
    ensures number { number_in result ≡ pair_number (in_words h links.now events.now) v w }
    ensures bounds { IfOk result (λ b. b ≡ bounds_of intact (plan_of_lists h links.now events.now) v w) }
    ensures accepted { OnOk result ((plan_refusal (plan_of_lists h links.now events.now) ≡ 0)
        × ((v < w) × (w < h.nodes))) }
    ensures ordered { IfOk result (λ b. (b.lower ≤ b.upper) × (b.upper ≤ whole)) }
    ensures demand3 { IfOk result (λ b.
        Encloses intact (plan_of_lists h links.now events.now) v w b.lower b.upper
        (count (plan_of_lists h links.now events.now))) }
{
    let mut bytes = [0u8; 256];
    let mut words = [0u64; 512];
    accept_pair(h, links, events, v, w, &mut bytes, &mut words)?;
    Ok(pair_in(h, &bytes, &words, v as usize, w as usize))
}
