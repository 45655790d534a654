// Sets of nodes, links and events as words: element i is bit i (document 01, "Plan file"). Each step on a set is a small function.
// Assumes nothing.
#![tactic(auto)]

ghost use Rattle.std.specs.Prelude.{◌≡◌, true, false, not, ◌&&◌, ◌||◌, ℕ, ◌<◌, ◌≤◌, eqb, ltb, MatchOption};
ghost use Rattle.std.specs.Int.Count.{count_trailing_zeros};
ghost use Rattle.std.specs.Iterator.{at_most};
ghost use Rattle.sets.specs.Sets.{bit, digit};
ghost use Rattle.sets.specs.Elements.{LowestTaken};

// The digit of element i, below 64, in a set of one word.
pub fn at(set: u64, i: usize) -> u64
    requires { i < 64 }
    ensures { result ≡ digit (bit set i) }
{
    (set >> i) % 2
}

// The set of the one element i, or the empty set, by the digit `on`.
pub fn only(on: u64, i: usize) -> u64
    requires { (on < 2) × (i < 64) }
    ensures { (j : ℕ) → bit result j ≡ (eqb on 1 && eqb j i) }
{
    on << i
}

// The set of the elements below k.
pub fn all_below(k: usize) -> u64
    requires { k ≤ 64 }
    ensures { (j : ℕ) → bit result j ≡ ltb j k }
{
    if k < 64 {
        return (1 << k) - 1;
    }
    0xffff_ffff_ffff_ffff
}

// The elements of either set.
pub fn union(a: u64, b: u64) -> u64
    ensures { (j : ℕ) → bit result j ≡ (bit a j || bit b j) }
{
    a | b
}

// The elements of both sets.
pub fn both(a: u64, b: u64) -> u64
    ensures { (j : ℕ) → bit result j ≡ (bit a j && bit b j) }
{
    a & b
}

// The elements of a that b lacks.
pub fn less(a: u64, b: u64) -> u64
    ensures { (j : ℕ) → bit result j ≡ (bit a j && not (bit b j)) }
{
    a ^ (a & b)
}

// The lowest element of a set that is not empty.
pub fn lowest(set: u64) -> usize
    requires { 0 < set }
    ensures is { result ≡ count_trailing_zeros 64 set }
    ensures within { result < 64 }
    ensures found { bit set result ≡ true }
    ensures first { (j : ℕ) → j < result → bit set j ≡ false }
{
    u64::trailing_zeros(set) as usize
}

// A set that is not empty without its lowest element.
pub fn rest(set: u64) -> u64
    requires { 0 < set }
    ensures smaller { result < set }
    ensures others { (j : ℕ) → bit result j ≡ (bit set j && not (eqb j (count_trailing_zeros 64 set))) }
{
    set & (set - 1)
}

// The elements of a set, the lowest first.
pub fn elements(set: u64) -> Iter
    ensures { result.left ≡ set }
{
    Iter { left: set }
}

// Goes over the elements of a set: `left` has those that are still to come.
#[derive(Clone, Copy)]
pub struct Iter {
    left: u64,
}

impl Iterator for Iter {
    type Item = usize;

    // `left` falls as a number with each element.
    ghost remaining = { λ s. at_most s.left };

    ghost next_gives = { λ s r t.
        MatchOption r ((s.left ≡ 0) × (t.left ≡ 0)) (λ i. LowestTaken s.left i t.left) };

    fn next(&mut self) -> Option<usize> {
        if self.left == 0 {
            return None;
        }
        let i = lowest(self.left);
        self.left = rest(self.left);
        Some(i)
    }
}
