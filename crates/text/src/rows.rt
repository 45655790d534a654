// The lines of a plan: the first line, and a line for each pair, from the sums that the run leaves in the entries of the pairs.
ghost use Rattle.std.specs.Prelude.{◌≡◌, ◌+◌, ◌-◌, ◌≤◌, ◌<◌, length};
ghost use Rattle.std.proofs.lemmas.List.Edits.{sets};
ghost use Rattle.pairs.specs.BoundsFit.{BoundsFit};
ghost use Rattle.text.specs.Listing.{line, pairs_text};
ghost use Rattle.text.specs.Sums.{Listable, sum_line, row_text, head_line, sums_text};

use crate::fields::{put_field, put_line};
use bounds::Totals;
use plan::Header;

// The lines of the pairs of node v with each node after it.
pub fn put_row(
    out: &mut [u8],
    at: usize,
    n: usize,
    v: usize,
    sums: &[u64; 2016],
    rest: u64,
) -> usize
    requires listable { Listable n rest sums.now × (v < n) }
    requires v_in_bounds { at + length (row_text (sum_line n rest sums.now) v (v + 1) (n - (v + 1))) ≤ length out.old }
    ensures { (out.new ≡ sets out.old at (row_text (sum_line n rest sums.now) v (v + 1) (n - (v + 1))))
        × (result ≡ at + length (row_text (sum_line n rest sums.now) v (v + 1) (n - (v + 1)))) }
{
    let mut place = pairs::start_of(n, v);
    let mut next = at;
    // `place` is that of the pair of v and w. With the lines of v with w and with the nodes after w laid down from `next` on, the row is
    // whole.
    for w in v + 1..n {
        let lower = sums[place];
        next = put_line(out, next, v as u64, w as u64, lower, rest + lower);
        place += 1;
    }
    next
}

// The lines of all pairs.
pub fn put_rows(out: &mut [u8], at: usize, n: usize, sums: &[u64; 2016], rest: u64) -> usize
    requires listable { Listable n rest sums.now }
    requires n_in_bounds { at + length (pairs_text (sum_line n rest sums.now) n) ≤ length out.old }
    ensures { (out.new ≡ sets out.old at (pairs_text (sum_line n rest sums.now) n))
        × (result ≡ at + length (pairs_text (sum_line n rest sums.now) n)) }
{
    let mut next = at;
    // With the rows of v and of the nodes after it laid down from `next` on, the lines are those of all pairs.
    for v in 0..n {
        next = put_row(out, next, n, v, sums, rest);
    }
    next
}

// The first line: nodes, links, events, examined count, complete, E.
pub fn put_head(out: &mut [u8], h: Header, t: Totals) -> usize
    requires { length (head_line h t) ≤ length out.old }
    ensures { (out.new ≡ sets out.old 0 (head_line h t)) × (result ≡ length (head_line h t)) }
{
    let second = put_field(out, 0, h.nodes, b' ');
    let third = put_field(out, second, h.links, b' ');
    put_line(out, third, h.events, t.count, t.complete, t.mass)
}

// The lines of a plan, from what the run gave.
pub fn put_plan_text(out: &mut [u8], h: Header, t: Totals, sums: &[u64; 2016]) -> usize
    requires bounds_fit { BoundsFit h.nodes t.mass sums.now sums.now sums.now }
    requires sums_in_bounds { length (sums_text h t sums.now) ≤ length out.old }
    ensures { (out.new ≡ sets out.old 0 (sums_text h t sums.now))
        × (result ≡ length (sums_text h t sums.now)) }
{
    let at = put_head(out, h, t);
    put_rows(
        out,
        at,
        h.nodes as usize,
        sums,
        mass::Mass::WHOLE.units - t.mass,
    )
}
