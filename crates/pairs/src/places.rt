// The places of the pairs in their order, and the test of a pair.
ghost use Rattle.std.specs.Prelude.{◌≡◌, ◌≤◌, ◌<◌, OnOk};
ghost use Rattle.mass.specs.Refusal.{number_in};
ghost use Rattle.pairs.specs.Pairs.{start, place, pair_count, pair_test};

use mass::Refusal;

// The place of the first pair of node v, of n nodes.
pub fn start_of(n: usize, v: usize) -> usize
    requires { (n ≤ 64) × (v ≤ n) }
    ensures { result ≡ start n v }
{
    (v * (2 * n - v) - v) / 2
}

// How many pairs n nodes have.
pub fn pair_count(n: usize) -> usize
    requires { n ≤ 64 }
    ensures { result ≡ pair_count n }
{
    start_of(n, n)
}

// The place of the pair (v, w), of n nodes.
pub fn place_of(n: usize, v: usize, w: usize) -> usize
    requires { (n ≤ 64) × (v < w) × (w < n) }
    ensures { (result ≡ place n v w) × (result < 2016) }
{
    start_of(n, v) + (w - (v + 1))
}

// 13: a pair without v < w < N.
pub fn pair_test(nodes: u64, v: u64, w: u64) -> Result<(), Refusal>
    ensures number { number_in result ≡ pair_test nodes v w }
    ensures inside { OnOk result ((v < w) × (w < nodes)) }
{
    Refusal::Pair.when(w <= v || nodes <= w)
}
