// Laying the bounds of all pairs down, from the sums of the masses that disconnect them, and zeros to begin those sums with.
ghost use Rattle.std.specs.Prelude.{◌≡◌, map, ℕ, ◌+◌, ◌-◌, ◌^◌, ◌≤◌, ◌<◌, length, get_or, take, drop, replicate};
ghost use Rattle.std.proofs.lemmas.List.Edits.{sets};
ghost use Rattle.mass.specs.Split.{whole};
ghost use Rattle.pairs.specs.Pairs.{pair_count};
ghost use Rattle.pairs.specs.BoundsFit.{BoundsFit};

use crate::places::pair_count;

// Lays zeros down in the first `count` entries.
#[tactic(auto, using(crate::proofs::Raised::zeros_laid))]
pub fn clear(list: &mut [u64], count: usize)
    requires { count ≤ length list.old }
    ensures { list.new ≡ sets list.old 0 (replicate count 0) }
{
    list[..count].fill(0);
}

// Lays `count` entries down from a start on: those of another list at the same places, each with `rest` added.
pub fn copy_raised(from: &[u64], to: &mut [u64], start: usize, count: usize, rest: u64)
    requires start_in_bounds { (count + start ≤ length from.now) × (count + start ≤ length to.old) }
    requires by_index { (i : ℕ) → i < count → rest + get_or from.now (i + start) 0 < 2 ^ 64 }
    ensures { to.new ≡ sets to.old start
        (map (λ x. rest + x) (take count (drop start from.now))) }
{
    // The entries before i are laid down, each with `rest` added, and no others.
    for i in start..start + count {
        to[i] = rest + from[i];
    }
}

// Lays the bounds of all pairs down: the lower ones are the sums, the upper ones add what was not examined.
pub fn give_bounds(n: usize, mass: u64, sums: &[u64; 2016], lower: &mut [u64], upper: &mut [u64])
    requires { BoundsFit n mass sums.now lower.old upper.old }
    ensures lower_after { lower.new ≡ sets lower.old 0 (take (pair_count n) sums.now) }
    ensures upper_after { upper.new ≡ sets upper.old 0
        (map (λ x. (whole - mass) + x) (take (pair_count n) sums.now)) }
{
    let pairs = pair_count(n);
    plan_lists::copy_first(sums, lower, 0, pairs);
    copy_raised(sums, upper, 0, pairs, mass::Mass::WHOLE.units - mass);
}
