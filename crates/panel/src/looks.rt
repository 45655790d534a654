// Looks at a walk. They test the fields that they show, and no others.
ghost use Rattle.std.specs.Prelude.{◌≡◌, ℕ, ◌≤◌, ◌<◌, get_or, IfOk};
ghost use Rattle.mass.specs.Refusal.{number_in};
ghost use Rattle.plan.specs.Plan.{Plan};
ghost use Rattle.network.specs.Outage.{intact};
ghost use Rattle.pairs.specs.Pairs.{place, pair_test};
ghost use Rattle.bounds.specs.Calls.{totals_of, bounds_of};
ghost use Rattle.panel.specs.Walks.{capped, WalkAt};
ghost use Rattle.panel.specs.Calls.{look_of, may_show, bounds_shown, look_pair_of};

use bounds::{PairBounds, Totals};
use mass::Refusal;
use pairs::{pair_test, place_of};
use walk_state::Walk;

// The count, complete and E of a walk.
pub fn look(w: Walk) -> Totals
    ensures answer { result ≡ look_of w }
    ensures shown { (p : Plan) (n : ℕ) → WalkAt intact p n w → result ≡ totals_of (capped p n) }
{
    Totals {
        count: w.count,
        complete: bounds::none_left(w.at),
        mass: w.mass,
    }
}

// Whether a node count, a mass and a pair's sum are those of a walk.
fn may_show(nodes: u64, mass: u64, sum: u64) -> bool
    ensures { result ≡ may_show nodes mass sum }
{
    if nodes > 64 {
        return false;
    }
    if mass > mass::Mass::WHOLE.units {
        return false;
    }
    sum <= mass
}

// The bounds of a pair from a walk's node count, its mass and the pair's sum: 0 and one whole where these are not those of a walk.
fn bounds_from(nodes: u64, mass: u64, sum: u64) -> PairBounds
    ensures { result ≡ bounds_shown nodes mass sum }
{
    if !may_show(nodes, mass, sum) {
        return PairBounds {
            lower: 0,
            upper: mass::Mass::WHOLE.units,
        };
    }
    PairBounds {
        lower: sum,
        upper: (mass::Mass::WHOLE.units - mass) + sum,
    }
}

// The sum of a pair: 0 where there are more nodes than a plan has.
fn sum_of(nodes: u64, sums: &[u64; 2016], v: u64, x: u64) -> u64
    requires { (v < x) × (x < nodes) }
    ensures { nodes ≤ 64 → result ≡ get_or sums.now (place nodes v x) 0 }
{
    if nodes > 64 {
        return 0;
    }
    sums[place_of(nodes as usize, v as usize, x as usize)]
}

// The bounds of a pair of a walk.
pub fn look_pair(w: Walk, v: u64, x: u64) -> Result<PairBounds, Refusal>
    ensures number { number_in result ≡ pair_test w.header.nodes v x }
    ensures bounds { IfOk result (λ b. b ≡ look_pair_of w v x) }
    ensures shown { (p : Plan) (n : ℕ) → WalkAt intact p n w
        → (number_in result ≡ pair_test p.nodes v x) × IfOk result (λ b. b ≡ bounds_of intact (capped p n) v x) }
{
    let nodes = w.header.nodes;
    pair_test(nodes, v, x)?;
    let sums = w.sums;
    Ok(bounds_from(nodes, w.mass, sum_of(nodes, &sums, v, x)))
}
